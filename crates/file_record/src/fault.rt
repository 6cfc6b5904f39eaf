ghost use Rattle.std.specs.Prelude.{◌≡◌};
ghost use Rattle.file_record.specs.declared.fault.RecFault.TheVariants.{Memory as no_memory};

use std::alloc::AllocError;
use thiserror::Error;

/// Why bytes are no file record.
#[derive(Clone, Copy, Debug, PartialEq, Eq, Error)]
pub enum RecFault {
    /// The least rule that the bytes break: 1 where the first attribute doesn't begin at a multiple
    /// of 8 inside the used bytes, 2 where the sizes are wrong, 3 where an attribute's length is, 4
    /// where types fall, 5 where there is no end mark, 6 where a name, a value or mapping pairs lie
    /// outside their attribute, 8 where standard information or a file name is out of shape.
    #[error("rule {rule} of file records is broken")]
    Rule { rule: u32 },
    #[error("no memory")]
    Memory,
}

impl From<AllocError> for RecFault {
    ghost from_gives = { λ _ e. e ≡ no_memory };

    fn from(_: AllocError) -> Self {
        RecFault::Memory
    }
}
