use block_view::ViewFault;
use draft_growth::GrowthFault;
use host_base::Memory;
use place_makes::PlaceFault;
use std::alloc::AllocError;
use thiserror::Error;

/// Why a file isn't made in its place below a level more.
#[derive(Clone, Copy, Debug, PartialEq, Eq, Error)]
pub enum RaiseFault {
    /// The index has so many levels, and no room for one more.
    #[error("the index has {height} levels")]
    Deep { height: u32 },
    /// The view failed.
    #[error("the view failed")]
    Fault,
    /// The directory's record would use so many bytes, which are above 1,024, with the blocks that
    /// its index would get.
    #[error("{used} bytes would be used")]
    Full { used: u64 },
    /// Want of memory.
    #[error("no memory")]
    Memory,
    /// Something of the directory would have to grow first in another way, or what was read is part
    /// of no state.
    #[error("the directory would have to grow")]
    Unplanned,
}

impl From<ViewFault> for RaiseFault {
    ghost use Rattle.std.specs.Prelude.{◌≡◌};
    ghost use Rattle.place_raises.specs.Faults.{of_view};

    ghost from_gives = { λ e fault. fault ≡ of_view e };

    fn from(error: ViewFault) -> Self {
        match error {
            ViewFault::Fault => RaiseFault::Fault,
            ViewFault::Memory => RaiseFault::Memory,
        }
    }
}

impl From<AllocError> for RaiseFault {
    ghost use Rattle.std.specs.Prelude.{◌≡◌};
    ghost use Rattle.place_raises.specs.declared.fault.RaiseFault.TheVariants.{Memory as no_memory};

    ghost from_gives = { λ _ fault. fault ≡ no_memory };

    fn from(_error: AllocError) -> Self {
        RaiseFault::Memory
    }
}

impl From<Memory> for RaiseFault {
    ghost use Rattle.std.specs.Prelude.{◌≡◌};
    ghost use Rattle.place_raises.specs.declared.fault.RaiseFault.TheVariants.{Memory as no_memory};

    ghost from_gives = { λ _ fault. fault ≡ no_memory };

    fn from(_error: Memory) -> Self {
        RaiseFault::Memory
    }
}

impl From<PlaceFault> for RaiseFault {
    ghost use Rattle.std.specs.Prelude.{◌≡◌};
    ghost use Rattle.place_raises.specs.Faults.{of_place};

    ghost from_gives = { λ e fault. fault ≡ of_place e };

    fn from(error: PlaceFault) -> Self {
        match error {
            PlaceFault::Fault => RaiseFault::Fault,
            PlaceFault::Full { .. } => RaiseFault::Unplanned,
            PlaceFault::Memory => RaiseFault::Memory,
            PlaceFault::Unplanned => RaiseFault::Unplanned,
        }
    }
}

impl From<GrowthFault> for RaiseFault {
    ghost use Rattle.std.specs.Prelude.{◌≡◌};
    ghost use Rattle.place_raises.specs.Faults.{of_growth};

    ghost from_gives = { λ e fault. fault ≡ of_growth e };

    fn from(error: GrowthFault) -> Self {
        match error {
            GrowthFault::Fault => RaiseFault::Fault,
            GrowthFault::Full { .. } => RaiseFault::Unplanned,
            GrowthFault::Short { .. } => RaiseFault::Unplanned,
            GrowthFault::Memory => RaiseFault::Memory,
        }
    }
}
