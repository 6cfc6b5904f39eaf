use state_model::MapRefusal;
use std::alloc::AllocError;
use stream_map::ViewFault;
use thiserror::Error;
use volume_model::Memory;

/// Why the files of a volume have no answer.
#[derive(Clone, Copy, Debug, PartialEq, Eq, Error)]
pub enum MapFault {
    /// The file table, or a record of it, is refused.
    #[error("the volume is refused")]
    Refused(MapRefusal),
    /// The view failed.
    #[error("the view failed")]
    View,
    #[error("no memory")]
    Memory,
}

impl From<AllocError> for MapFault {
    ghost use Rattle.std.specs.Prelude.{◌≡◌};
    ghost use Rattle.volume_map.specs.declared.fault.MapFault.TheVariants.{Memory as no_memory};

    ghost from_gives = { λ _ fault. fault ≡ no_memory };

    fn from(_error: AllocError) -> Self {
        MapFault::Memory
    }
}

impl From<Memory> for MapFault {
    ghost use Rattle.std.specs.Prelude.{◌≡◌};
    ghost use Rattle.volume_map.specs.declared.fault.MapFault.TheVariants.{Memory as no_memory};

    ghost from_gives = { λ _ fault. fault ≡ no_memory };

    fn from(_error: Memory) -> Self {
        MapFault::Memory
    }
}

impl From<ViewFault> for MapFault {
    ghost use Rattle.volume_map.specs.Errors.{is_of_view};

    ghost from_gives = { λ view fault. is_of_view view fault };

    fn from(fault: ViewFault) -> Self {
        match fault {
            ViewFault::Fault => MapFault::View,
            ViewFault::Memory => MapFault::Memory,
        }
    }
}
