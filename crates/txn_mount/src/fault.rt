//! Why a store isn't mounted.
use log_recovery::{LogRefusal, RecoveryFault};
use std::alloc::AllocError;
use thiserror::Error;

/// Why a store isn't mounted.
#[derive(Clone, Copy, Debug, PartialEq, Eq, Error)]
pub enum StoreFault {
    /// The log is refused, as [`recover_to_write`](log_recovery::recover_to_write) says. Nothing
    /// was written.
    #[error("the log is refused: {0}")]
    Refused(LogRefusal),
    /// The device failed.
    #[error("the device failed")]
    Fault,
    /// There is no memory left. Nothing was written.
    #[error("out of memory")]
    Memory,
    /// What was read of the log begins no session, as is never so where the device's disk is known.
    /// Nothing was written.
    #[error("the log begins no session")]
    Broken,
}

impl From<RecoveryFault> for StoreFault {
    ghost use Rattle.std.specs.Prelude.{◌≡◌};
    ghost use Rattle.txn_mount.specs.Faults.{store_fault};

    ghost from_gives = { λ fault e. e ≡ store_fault fault };

    fn from(fault: RecoveryFault) -> Self {
        match fault {
            RecoveryFault::Refused(refusal) => StoreFault::Refused(refusal),
            RecoveryFault::Fault => StoreFault::Fault,
            RecoveryFault::Memory => StoreFault::Memory,
        }
    }
}

impl From<AllocError> for StoreFault {
    ghost use Rattle.std.specs.Prelude.{◌≡◌};
    ghost use Rattle.txn_mount.specs.declared.fault.StoreFault.TheVariants as faults;

    ghost from_gives = { λ _ e. e ≡ faults.Memory };

    fn from(_: AllocError) -> Self {
        StoreFault::Memory
    }
}
