use space_model::Memory;
use std::alloc::AllocError;
use thiserror::Error;

/// Why no clusters are chosen.
#[derive(Clone, Copy, Debug, PartialEq, Eq, Error)]
pub enum SpaceFault {
    /// Only so many bits are clear, which is fewer than are wanted.
    #[error("{room} clusters are free")]
    Short { room: u64 },
    /// Want of memory.
    #[error("no memory")]
    Memory,
}

impl From<AllocError> for SpaceFault {
    ghost use Rattle.std.specs.Prelude.{◌≡◌};
    ghost use Rattle.plan_space.specs.declared.fault.SpaceFault.TheVariants.{Memory as no_memory};

    ghost from_gives = { λ _ fault. fault ≡ no_memory };

    fn from(_error: AllocError) -> Self {
        SpaceFault::Memory
    }
}

impl From<Memory> for SpaceFault {
    ghost use Rattle.std.specs.Prelude.{◌≡◌};
    ghost use Rattle.plan_space.specs.declared.fault.SpaceFault.TheVariants.{Memory as no_memory};

    ghost from_gives = { λ _ fault. fault ≡ no_memory };

    fn from(_error: Memory) -> Self {
        SpaceFault::Memory
    }
}
