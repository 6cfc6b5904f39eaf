use block_view::ViewFault;
use directory_index::IndexFault;
use host_base::Memory;
use std::alloc::AllocError;
use stream_rules::SizesFault;
use thiserror::Error;
use usn_journal::JournalFault;
use volume_tree::Broken;

/// Why a check found no tree.
#[derive(Clone, Copy, Debug, PartialEq, Eq, Error)]
pub enum CheckFault {
    /// The volume breaks this rule, and none before it; its number is the least at which it does.
    #[error("the volume is broken")]
    Broken(Broken),
    /// The view failed.
    #[error("the view failed")]
    View,
    #[error("no memory")]
    Memory,
}

impl From<AllocError> for CheckFault {
    ghost use Rattle.std.specs.Prelude.{◌≡◌};
    ghost use Rattle.volume_check.specs.declared.fault.CheckFault.TheVariants.{Memory as no_memory};

    ghost from_gives = { λ _ fault. fault ≡ no_memory };

    fn from(_error: AllocError) -> Self {
        CheckFault::Memory
    }
}

impl From<Memory> for CheckFault {
    ghost use Rattle.std.specs.Prelude.{◌≡◌};
    ghost use Rattle.volume_check.specs.declared.fault.CheckFault.TheVariants.{Memory as no_memory};

    ghost from_gives = { λ _ fault. fault ≡ no_memory };

    fn from(_error: Memory) -> Self {
        CheckFault::Memory
    }
}

impl From<ViewFault> for CheckFault {
    ghost use Rattle.std.specs.Prelude.{◌≡◌};
    ghost use Rattle.volume_check.specs.Errors.{of_view};

    ghost from_gives = { λ fault error. error ≡ of_view fault };

    fn from(fault: ViewFault) -> Self {
        match fault {
            ViewFault::Fault => CheckFault::View,
            ViewFault::Memory => CheckFault::Memory,
        }
    }
}

impl From<IndexFault> for CheckFault {
    ghost use Rattle.std.specs.Prelude.{◌≡◌};
    ghost use Rattle.volume_check.specs.Errors.{of_index};

    ghost from_gives = { λ fault error. error ≡ of_index fault };

    fn from(fault: IndexFault) -> Self {
        match fault {
            IndexFault::View => CheckFault::View,
            IndexFault::Memory => CheckFault::Memory,
        }
    }
}

impl From<SizesFault> for CheckFault {
    ghost use Rattle.std.specs.Prelude.{◌≡◌};
    ghost use Rattle.volume_check.specs.Errors.{of_sizes};

    ghost from_gives = { λ fault error. error ≡ of_sizes fault };

    fn from(fault: SizesFault) -> Self {
        match fault {
            SizesFault::View => CheckFault::View,
            SizesFault::Memory => CheckFault::Memory,
        }
    }
}

impl From<JournalFault> for CheckFault {
    ghost use Rattle.std.specs.Prelude.{◌≡◌};
    ghost use Rattle.volume_check.specs.Errors.{of_journal};

    ghost from_gives = { λ fault error. error ≡ of_journal fault };

    fn from(fault: JournalFault) -> Self {
        match fault {
            JournalFault::Broken { at } => CheckFault::Broken(Broken {
                rule: 9,
                number: at,
            }),
            JournalFault::View => CheckFault::View,
            JournalFault::Memory => CheckFault::Memory,
        }
    }
}
