ghost use Rattle.std.specs.Prelude.{◌≡◌};
ghost use Rattle.log_model.specs.declared.fault.EntryFault.TheVariants.{Memory as no_memory};

use std::alloc::AllocError;
use thiserror::Error;

/// Why bytes are no entry of the log.
#[derive(Clone, Copy, Debug, PartialEq, Eq, Error)]
pub enum EntryFault {
    /// The field at this offset of the entry is out of shape, and none before it is.
    #[error("the field at {at} is out of shape")]
    Shape { at: u32 },
    #[error("no memory")]
    Memory,
}

impl From<AllocError> for EntryFault {
    ghost from_gives = { λ _ e. e ≡ no_memory };

    fn from(_: AllocError) -> Self {
        EntryFault::Memory
    }
}
