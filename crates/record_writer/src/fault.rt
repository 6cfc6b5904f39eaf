ghost use Rattle.std.specs.Prelude.{◌≡◌};
ghost use Rattle.record_writer.specs.declared.fault.RoomFault.TheVariants.{Memory as no_memory};

use std::alloc::AllocError;
use thiserror::Error;

/// Why a record takes no attribute more.
#[derive(Clone, Copy, Debug, PartialEq, Eq, Error)]
pub enum RoomFault {
    /// The record would use so many bytes, which are above 1,024.
    #[error("{used} bytes would be used")]
    Full { used: u32 },
    #[error("no memory")]
    Memory,
}

impl From<AllocError> for RoomFault {
    ghost from_gives = { λ _ e. e ≡ no_memory };

    fn from(_: AllocError) -> Self {
        RoomFault::Memory
    }
}
