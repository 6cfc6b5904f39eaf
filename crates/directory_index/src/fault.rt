use host_base::Memory;
use std::alloc::AllocError;
use thiserror::Error;

/// Why the index of a directory has no answer. An index at fault is an answer.
#[derive(Clone, Copy, Debug, PartialEq, Eq, Error)]
pub enum IndexFault {
    /// The view failed, and counts it.
    #[error("the view failed")]
    View,
    #[error("no memory")]
    Memory,
}

impl From<AllocError> for IndexFault {
    ghost use Rattle.std.specs.Prelude.{◌≡◌};
    ghost use Rattle.directory_index.specs.declared.fault.IndexFault.TheVariants.{Memory as no_memory};

    ghost from_gives = { λ _ fault. fault ≡ no_memory };

    fn from(_error: AllocError) -> Self {
        IndexFault::Memory
    }
}

impl From<Memory> for IndexFault {
    ghost use Rattle.std.specs.Prelude.{◌≡◌};
    ghost use Rattle.directory_index.specs.declared.fault.IndexFault.TheVariants.{Memory as no_memory};

    ghost from_gives = { λ _ fault. fault ≡ no_memory };

    fn from(_error: Memory) -> Self {
        IndexFault::Memory
    }
}
