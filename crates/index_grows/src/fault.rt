use draft_indexes::GrowthFault;
use host_base::Memory;
use std::alloc::AllocError;
use thiserror::Error;

/// Why a directory's index doesn't get blocks.
#[derive(Clone, Copy, Debug, PartialEq, Eq, Error)]
pub enum IndexFault {
    /// The view failed.
    #[error("the view failed")]
    Fault,
    /// The directory's record would use so many bytes, which are above 1,024.
    #[error("{used} bytes would be used")]
    Full { used: u64 },
    /// Want of memory.
    #[error("no memory")]
    Memory,
    /// The bitmap of the blocks stands in clusters or has to leave the record, or what was read is
    /// part of no state.
    #[error("the index can't grow so")]
    Unplanned,
}

impl From<AllocError> for IndexFault {
    ghost use Rattle.std.specs.Prelude.{◌≡◌};
    ghost use Rattle.index_grows.specs.declared.fault.IndexFault.TheVariants.{Memory as no_memory};

    ghost from_gives = { λ _ fault. fault ≡ no_memory };

    fn from(_error: AllocError) -> Self {
        IndexFault::Memory
    }
}

impl From<Memory> for IndexFault {
    ghost use Rattle.std.specs.Prelude.{◌≡◌};
    ghost use Rattle.index_grows.specs.declared.fault.IndexFault.TheVariants.{Memory as no_memory};

    ghost from_gives = { λ _ fault. fault ≡ no_memory };

    fn from(_error: Memory) -> Self {
        IndexFault::Memory
    }
}

impl From<GrowthFault> for IndexFault {
    ghost use Rattle.std.specs.Prelude.{◌≡◌};
    ghost use Rattle.index_grows.specs.Faults.{of_growth};

    ghost from_gives = { λ e fault. fault ≡ of_growth e };

    fn from(error: GrowthFault) -> Self {
        match error {
            GrowthFault::Fault => IndexFault::Fault,
            GrowthFault::Full { .. } => IndexFault::Unplanned,
            GrowthFault::Short { .. } => IndexFault::Unplanned,
            GrowthFault::Memory => IndexFault::Memory,
        }
    }
}
