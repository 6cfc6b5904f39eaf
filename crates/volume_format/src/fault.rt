ghost use Rattle.std.specs.Prelude.{◌≡◌};
ghost use Rattle.volume_format.specs.declared.fault.FormatFault.TheVariants.{Fault as device_failed, Memory as no_memory, Refused as is_refused};

use host_base::{Failed, Memory};
use std::alloc::AllocError;
use thiserror::Error;

/// A volume that was made: its clusters, and those of them that are free.
#[derive(Clone, Copy, Debug, PartialEq, Eq)]
pub struct Formatted {
    pub clusters: u64,
    pub room: u64,
}

/// What refuses a device.
#[derive(Clone, Copy, Debug, PartialEq, Eq, Error)]
pub enum FormatRefusal {
    /// The volume would have more than 16,777,216 clusters.
    #[error("{clusters} clusters are too many")]
    VolumeLarge { clusters: u64 },
    /// The least volume needs so many sectors and the device has fewer; of a device of none one is
    /// asked for.
    #[error("{sectors} sectors are needed and the device has {device}")]
    Short { sectors: u64, device: u64 },
}

/// Why a volume isn't made.
#[derive(Clone, Copy, Debug, PartialEq, Eq, Error)]
pub enum FormatFault {
    /// The device is refused.
    #[error("the device is refused: {0}")]
    Refused(FormatRefusal),
    #[error("the device failed")]
    Fault,
    #[error("no memory")]
    Memory,
}

impl From<AllocError> for FormatFault {
    ghost from_gives = { λ _ e. e ≡ no_memory };

    fn from(_: AllocError) -> Self {
        FormatFault::Memory
    }
}

impl From<FormatRefusal> for FormatFault {
    ghost from_gives = { λ refusal e. e ≡ is_refused refusal };

    fn from(refusal: FormatRefusal) -> Self {
        FormatFault::Refused(refusal)
    }
}

impl From<Failed> for FormatFault {
    ghost from_gives = { λ _ e. e ≡ device_failed };

    fn from(_: Failed) -> Self {
        FormatFault::Fault
    }
}

impl From<Memory> for FormatFault {
    ghost from_gives = { λ _ e. e ≡ no_memory };

    fn from(_: Memory) -> Self {
        FormatFault::Memory
    }
}
