ghost use Rattle.std.specs.Prelude.{◌≡◌};
ghost use Rattle.log_reading.specs.declared.fault.RecoveryFault.TheVariants.{Memory as no_memory, Refused as is_refused};

use block_view::ViewFault;
use std::alloc::AllocError;
use thiserror::Error;

/// What refuses a log.
#[derive(Clone, Copy, Debug, PartialEq, Eq, Error)]
pub enum LogRefusal {
    /// The chosen restart page is of another major version than 1.
    #[error("log of version {major}.{minor}")]
    LogVersion { major: u16, minor: u16 },
    /// No restart page is whole, and the log wasn't emptied.
    #[error("no restart page")]
    NoRestart,
    /// The log isn't clean and isn't this host's, with the LSN of the entry that shows it, or of
    /// the first update of a block that is recovered in part; the current LSN of the restart page
    /// where the first client is another host's; or the greatest LSN, where too few laps are left
    /// above it.
    #[error("foreign log at {lsn}")]
    ForeignLog { lsn: u64 },
}

/// Why a log isn't recovered.
#[derive(Clone, Copy, Debug, PartialEq, Eq, Error)]
pub enum RecoveryFault {
    /// The log is refused.
    #[error("the log is refused: {0}")]
    Refused(LogRefusal),
    /// The view failed.
    #[error("the view failed")]
    Fault,
    #[error("no memory")]
    Memory,
}

impl From<AllocError> for RecoveryFault {
    ghost from_gives = { λ _ e. e ≡ no_memory };

    fn from(_: AllocError) -> Self {
        RecoveryFault::Memory
    }
}

impl From<LogRefusal> for RecoveryFault {
    ghost from_gives = { λ refusal e. e ≡ is_refused refusal };

    fn from(refusal: LogRefusal) -> Self {
        RecoveryFault::Refused(refusal)
    }
}

impl From<ViewFault> for RecoveryFault {
    ghost use Rattle.log_reading.specs.Views.{fault_of_view};

    ghost from_gives = { λ fault e. e ≡ fault_of_view fault };

    fn from(fault: ViewFault) -> Self {
        match fault {
            ViewFault::Fault => RecoveryFault::Fault,
            ViewFault::Memory => RecoveryFault::Memory,
        }
    }
}
