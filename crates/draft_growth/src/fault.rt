ghost use Rattle.std.specs.Prelude.{◌≡◌};

use draft_bitmaps::SpaceFault;
use draft_numbers::DraftFault;
use thiserror::Error;

/// Why a file table doesn't grow.
#[derive(Clone, Copy, Debug, PartialEq, Eq, Error)]
pub enum GrowthFault {
    /// A file record would use so many bytes, which are above 1,024.
    #[error("{used} bytes would be used")]
    Full { used: u32 },
    /// Fewer clusters are free than are needed, so many.
    #[error("{room} clusters are free")]
    Short { room: u64 },
    /// The view failed.
    #[error("the view failed")]
    Fault,
    /// Want of memory.
    #[error("no memory")]
    Memory,
}

impl From<DraftFault> for GrowthFault {
    ghost use Rattle.draft_growth.specs.Faults.{of_draft};

    ghost from_gives = { λ e fault. fault ≡ of_draft e };

    fn from(error: DraftFault) -> Self {
        match error {
            DraftFault::Full { used } => GrowthFault::Full { used },
            DraftFault::Fault => GrowthFault::Fault,
            DraftFault::Memory => GrowthFault::Memory,
        }
    }
}

impl From<SpaceFault> for GrowthFault {
    ghost use Rattle.draft_growth.specs.Faults.{of_space};

    ghost from_gives = { λ e fault. fault ≡ of_space e };

    fn from(error: SpaceFault) -> Self {
        match error {
            SpaceFault::Short { room } => GrowthFault::Short { room },
            SpaceFault::Memory => GrowthFault::Memory,
        }
    }
}
