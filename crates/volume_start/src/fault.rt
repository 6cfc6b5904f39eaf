//! Why a volume isn't started.
use mounted_states::{MountFault, Refusal};
use std::alloc::{AllocError, AllocFailed};
use thiserror::Error;
use txn_mount::StoreFault;

/// Why a volume isn't started.
#[derive(Clone, Copy, Debug, PartialEq, Eq, Error)]
pub enum StartFault {
    /// The volume isn't mounted, as [`volume_mount::mount`] says. Nothing was written.
    #[error("refused: {0}")]
    Refused(Refusal),
    /// The device failed.
    #[error("the device failed")]
    Device,
    /// There is no memory left. Nothing was written.
    #[error("no memory")]
    Memory,
    /// The volume is mounted, and can't be changed yet: the bits of its clusters don't all lie in
    /// clusters, or a block would stay torn. Nothing was written.
    #[error("the volume can't be changed yet")]
    Unfit,
    /// No session may be written where the log was found. Nothing was written.
    #[error("the log can't be written")]
    Unknown,
}

impl From<MountFault> for StartFault {
    ghost use Rattle.std.specs.Prelude.{◌≡◌};
    ghost use Rattle.volume_start.specs.Faults.{start_fault};

    ghost from_gives = { λ fault e. e ≡ start_fault fault };

    fn from(fault: MountFault) -> Self {
        match fault {
            MountFault::Refused(refusal) => StartFault::Refused(refusal),
            MountFault::Device => StartFault::Device,
            MountFault::Memory => StartFault::Memory,
        }
    }
}

impl From<StoreFault> for StartFault {
    ghost use Rattle.std.specs.Prelude.{◌≡◌};
    ghost use Rattle.volume_start.specs.Faults.{fault_of_store};

    ghost from_gives = { λ fault e. e ≡ fault_of_store fault };

    fn from(fault: StoreFault) -> Self {
        match fault {
            StoreFault::Refused(refusal) => StartFault::Refused(Refusal::from(refusal)),
            StoreFault::Fault => StartFault::Device,
            StoreFault::Memory => StartFault::Memory,
            StoreFault::Broken => StartFault::Unknown,
        }
    }
}

impl From<AllocError> for StartFault {
    ghost use Rattle.std.specs.Prelude.{◌≡◌};
    ghost use Rattle.volume_start.specs.declared.fault.StartFault.TheVariants as faults;

    ghost from_gives = { λ _ e. e ≡ faults.Memory };

    fn from(_: AllocError) -> Self {
        StartFault::Memory
    }
}

impl<T: Drop> From<AllocFailed<T>> for StartFault {
    ghost use Rattle.std.specs.Prelude.{◌≡◌};
    ghost use Rattle.volume_start.specs.declared.fault.StartFault.TheVariants as faults;

    ghost from_gives = { λ _ e. e ≡ faults.Memory };

    fn from(_: AllocFailed<T>) -> Self {
        StartFault::Memory
    }
}

impl From<host_base::Memory> for StartFault {
    ghost use Rattle.std.specs.Prelude.{◌≡◌};
    ghost use Rattle.volume_start.specs.declared.fault.StartFault.TheVariants as faults;

    ghost from_gives = { λ _ e. e ≡ faults.Memory };

    fn from(_: host_base::Memory) -> Self {
        StartFault::Memory
    }
}
