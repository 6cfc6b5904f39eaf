ghost use Rattle.std.specs.Prelude.{◌≡◌};

use plan_draft::ViewFault;
use resized_streams::RoomFault;
use std::alloc::AllocError;
use thiserror::Error;

/// Why an edit of a draft isn't made.
#[derive(Clone, Copy, Debug, PartialEq, Eq, Error)]
pub enum DraftFault {
    /// A file record would use so many bytes, which are above 1,024.
    #[error("{used} bytes would be used")]
    Full { used: u32 },
    /// The view failed.
    #[error("the view failed")]
    Fault,
    /// Want of memory.
    #[error("no memory")]
    Memory,
}

impl From<ViewFault> for DraftFault {
    ghost use Rattle.draft_records.specs.Faults.{of_view};

    ghost from_gives = { λ e fault. fault ≡ of_view e };

    fn from(error: ViewFault) -> Self {
        match error {
            ViewFault::Fault => DraftFault::Fault,
            ViewFault::Memory => DraftFault::Memory,
        }
    }
}

impl From<RoomFault> for DraftFault {
    ghost use Rattle.draft_records.specs.Faults.{of_room};

    ghost from_gives = { λ e fault. fault ≡ of_room e };

    fn from(error: RoomFault) -> Self {
        match error {
            RoomFault::Full { used } => DraftFault::Full { used },
            RoomFault::Memory => DraftFault::Memory,
        }
    }
}

impl From<AllocError> for DraftFault {
    ghost use Rattle.draft_records.specs.declared.fault.DraftFault.TheVariants.{Memory as no_memory};

    ghost from_gives = { λ _ fault. fault ≡ no_memory };

    fn from(_error: AllocError) -> Self {
        DraftFault::Memory
    }
}
