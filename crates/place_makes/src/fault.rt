use block_view::ViewFault;
use host_base::Memory;
use index_grows::IndexFault;
use std::alloc::AllocError;
use thiserror::Error;

/// Why a file isn't made in its place.
#[derive(Clone, Copy, Debug, PartialEq, Eq, Error)]
pub enum PlaceFault {
    /// The view failed.
    #[error("the view failed")]
    Fault,
    /// The directory's record would use so many bytes, which are above 1,024, with the blocks that
    /// its index would get.
    #[error("{used} bytes would be used")]
    Full { used: u64 },
    /// Want of memory.
    #[error("no memory")]
    Memory,
    /// Something of the directory would have to grow first in another way, or what was read is part
    /// of no state.
    #[error("the directory would have to grow")]
    Unplanned,
}

impl From<ViewFault> for PlaceFault {
    ghost use Rattle.std.specs.Prelude.{◌≡◌};
    ghost use Rattle.place_makes.specs.Faults.{of_view};

    ghost from_gives = { λ e fault. fault ≡ of_view e };

    fn from(error: ViewFault) -> Self {
        match error {
            ViewFault::Fault => PlaceFault::Fault,
            ViewFault::Memory => PlaceFault::Memory,
        }
    }
}

impl From<AllocError> for PlaceFault {
    ghost use Rattle.std.specs.Prelude.{◌≡◌};
    ghost use Rattle.place_makes.specs.declared.fault.PlaceFault.TheVariants.{Memory as no_memory};

    ghost from_gives = { λ _ fault. fault ≡ no_memory };

    fn from(_error: AllocError) -> Self {
        PlaceFault::Memory
    }
}

impl From<Memory> for PlaceFault {
    ghost use Rattle.std.specs.Prelude.{◌≡◌};
    ghost use Rattle.place_makes.specs.declared.fault.PlaceFault.TheVariants.{Memory as no_memory};

    ghost from_gives = { λ _ fault. fault ≡ no_memory };

    fn from(_error: Memory) -> Self {
        PlaceFault::Memory
    }
}

impl From<IndexFault> for PlaceFault {
    ghost use Rattle.std.specs.Prelude.{◌≡◌};
    ghost use Rattle.place_makes.specs.Faults.{of_index};

    ghost from_gives = { λ e fault. fault ≡ of_index e };

    fn from(error: IndexFault) -> Self {
        match error {
            IndexFault::Fault => PlaceFault::Fault,
            IndexFault::Full { used } => PlaceFault::Full { used },
            IndexFault::Memory => PlaceFault::Memory,
            IndexFault::Unplanned => PlaceFault::Unplanned,
        }
    }
}
