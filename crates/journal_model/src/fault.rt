ghost use Rattle.std.specs.Prelude.{◌≡◌};
ghost use Rattle.journal_model.specs.declared.fault.UsnFault.TheVariants.{Memory as no_memory};

use std::alloc::AllocError;
use thiserror::Error;

/// Why bytes of the change journal are no record (Microsoft's reference, "USN_RECORD_V2").
#[derive(Clone, Copy, Debug, PartialEq, Eq, Error)]
pub enum UsnFault {
    /// The length, or the record at this offset of the journal, runs past the bytes of its page.
    #[error("the record at {at} runs past its page")]
    Cut { at: u64 },
    /// The length of the record at this offset is below 8 or no multiple of 8, or a record of
    /// version 2 breaks its layout.
    #[error("the record at {at} is out of shape")]
    Shape { at: u64 },
    #[error("no memory")]
    Memory,
}

impl From<AllocError> for UsnFault {
    ghost from_gives = { λ _ e. e ≡ no_memory };

    fn from(_: AllocError) -> Self {
        UsnFault::Memory
    }
}
