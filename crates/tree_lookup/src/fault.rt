use host_base::Memory;
use std::alloc::AllocError;
use thiserror::Error;

/// Why a tree gives no answer.
#[derive(Clone, Copy, Debug, PartialEq, Eq, Error)]
pub enum LookupFault {
    /// What is behind the tree failed, and counts it.
    #[error("the tree can't be read")]
    Outside,
    #[error("no memory")]
    Memory,
    /// What was read is part of no tree. This never comes where the tree is known.
    #[error("there is no tree")]
    Broken,
}

impl From<AllocError> for LookupFault {
    ghost use Rattle.std.specs.Prelude.{◌≡◌};
    ghost use Rattle.tree_lookup.specs.declared.fault.LookupFault.TheVariants.{Memory as no_memory};

    ghost from_gives = { λ _ fault. fault ≡ no_memory };

    fn from(_error: AllocError) -> Self {
        LookupFault::Memory
    }
}

impl From<Memory> for LookupFault {
    ghost use Rattle.std.specs.Prelude.{◌≡◌};
    ghost use Rattle.tree_lookup.specs.declared.fault.LookupFault.TheVariants.{Memory as no_memory};

    ghost from_gives = { λ _ fault. fault ≡ no_memory };

    fn from(_error: Memory) -> Self {
        LookupFault::Memory
    }
}
