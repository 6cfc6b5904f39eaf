use host_base::Memory;
use std::alloc::AllocError;
use thiserror::Error;
use used_laws::SpaceFault;

/// Why nothing comes of a file's data.
#[derive(Clone, Copy, Debug, PartialEq, Eq, Error)]
pub enum DataFault {
    /// The file's record would use so many bytes, which are above 1,024.
    #[error("{used} bytes would be used")]
    Full { used: u64 },
    /// Only so many clusters are free, which are fewer than are wanted.
    #[error("{room} clusters are free")]
    Short { room: u64 },
    /// Want of memory.
    #[error("no memory")]
    Memory,
}

impl From<SpaceFault> for DataFault {
    ghost use Rattle.std.specs.Prelude.{◌≡◌};
    ghost use Rattle.data_plan.specs.Faults.{of_space};

    ghost from_gives = { λ e fault. fault ≡ of_space e };

    fn from(error: SpaceFault) -> Self {
        match error {
            SpaceFault::Short { room } => DataFault::Short { room },
            SpaceFault::Memory => DataFault::Memory,
        }
    }
}

impl From<Memory> for DataFault {
    ghost use Rattle.std.specs.Prelude.{◌≡◌};
    ghost use Rattle.data_plan.specs.declared.fault.DataFault.TheVariants.{Memory as no_memory};

    ghost from_gives = { λ _ fault. fault ≡ no_memory };

    fn from(_error: Memory) -> Self {
        DataFault::Memory
    }
}

impl From<AllocError> for DataFault {
    ghost use Rattle.std.specs.Prelude.{◌≡◌};
    ghost use Rattle.data_plan.specs.declared.fault.DataFault.TheVariants.{Memory as no_memory};

    ghost from_gives = { λ _ fault. fault ≡ no_memory };

    fn from(_error: AllocError) -> Self {
        DataFault::Memory
    }
}
