//! Why a volume doesn't take changes.

use std::alloc::AllocError;
use thiserror::Error;

/// Why a volume didn't take a list of changes. Then its content and its map are as before.
#[derive(Clone, Copy, Debug, PartialEq, Eq, Error)]
pub enum PutFault {
    /// The changes take more pages of the log than are free.
    #[error("{pages} pages of the log are needed, and {room} are free")]
    NeedsRoom {
        /// The pages that they take.
        pages: u64,
        /// The pages that are free.
        room: u64,
    },
    /// The device failed.
    #[error("the device failed")]
    Fault,
    /// There is no memory left.
    #[error("out of memory")]
    Memory,
    /// The content after the changes is no volume's, its files would have names that aren't allowed,
    /// or a body has no spelling: only where what the device gives isn't known.
    #[error("the changes lead to no volume")]
    Broken,
}

impl From<AllocError> for PutFault {
    ghost use Rattle.std.specs.Prelude.{◌≡◌};
    ghost use Rattle.state_store.specs.declared.fault.PutFault.TheVariants.{Memory};

    ghost from_gives = { λ _ fault. fault ≡ Memory };

    fn from(_error: AllocError) -> Self {
        PutFault::Memory
    }
}
