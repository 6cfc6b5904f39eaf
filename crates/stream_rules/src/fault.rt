use block_view::ViewFault;
use host_base::Memory;
use std::alloc::AllocError;
use thiserror::Error;

/// Why there is no answer to what streams keep.
#[derive(Clone, Copy, Debug, PartialEq, Eq, Error)]
pub enum SizesFault {
    /// The view failed.
    #[error("the view failed")]
    View,
    #[error("no memory")]
    Memory,
}

impl From<AllocError> for SizesFault {
    ghost use Rattle.std.specs.Prelude.{◌≡◌};
    ghost use Rattle.stream_rules.specs.declared.fault.SizesFault.TheVariants.{Memory as no_memory};

    ghost from_gives = { λ _ fault. fault ≡ no_memory };

    fn from(_error: AllocError) -> Self {
        SizesFault::Memory
    }
}

impl From<Memory> for SizesFault {
    ghost use Rattle.std.specs.Prelude.{◌≡◌};
    ghost use Rattle.stream_rules.specs.declared.fault.SizesFault.TheVariants.{Memory as no_memory};

    ghost from_gives = { λ _ fault. fault ≡ no_memory };

    fn from(_error: Memory) -> Self {
        SizesFault::Memory
    }
}

impl From<ViewFault> for SizesFault {
    ghost use Rattle.stream_rules.specs.Errors.{is_of_view};

    ghost from_gives = { λ view fault. is_of_view view fault };

    fn from(fault: ViewFault) -> Self {
        match fault {
            ViewFault::Fault => SizesFault::View,
            ViewFault::Memory => SizesFault::Memory,
        }
    }
}
