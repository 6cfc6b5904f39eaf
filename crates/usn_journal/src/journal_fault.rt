use block_view::ViewFault;
use host_base::Memory;
use journal_model::UsnFault;
use std::alloc::AllocError;
use thiserror::Error;

/// Why a volume's change journal has no answer.
#[derive(Clone, Copy, Debug, PartialEq, Eq, Error)]
pub enum JournalFault {
    /// The record at this offset of `$J` is at fault; 0 where `$Max` or `$J` is out of shape.
    #[error("the journal is at fault at {at}")]
    Broken { at: u64 },
    /// The view failed.
    #[error("the view failed")]
    View,
    #[error("no memory")]
    Memory,
}

impl From<AllocError> for JournalFault {
    ghost use Rattle.std.specs.Prelude.{◌≡◌};
    ghost use Rattle.usn_journal.specs.declared.journal_fault.JournalFault.TheVariants.{Memory as no_memory};

    ghost from_gives = { λ _ fault. fault ≡ no_memory };

    fn from(_error: AllocError) -> Self {
        JournalFault::Memory
    }
}

impl From<Memory> for JournalFault {
    ghost use Rattle.std.specs.Prelude.{◌≡◌};
    ghost use Rattle.usn_journal.specs.declared.journal_fault.JournalFault.TheVariants.{Memory as no_memory};

    ghost from_gives = { λ _ fault. fault ≡ no_memory };

    fn from(_error: Memory) -> Self {
        JournalFault::Memory
    }
}

impl From<ViewFault> for JournalFault {
    ghost use Rattle.std.specs.Prelude.{◌≡◌};
    ghost use Rattle.usn_journal.specs.JournalErrors.{of_view};

    ghost from_gives = { λ view fault. fault ≡ of_view view };

    fn from(fault: ViewFault) -> Self {
        match fault {
            ViewFault::Fault => JournalFault::View,
            ViewFault::Memory => JournalFault::Memory,
        }
    }
}

impl From<UsnFault> for JournalFault {
    ghost use Rattle.std.specs.Prelude.{◌≡◌};
    ghost use Rattle.usn_journal.specs.JournalErrors.{of_page};

    ghost from_gives = { λ page fault. fault ≡ of_page page };

    fn from(fault: UsnFault) -> Self {
        match fault {
            UsnFault::Cut { at } => JournalFault::Broken { at },
            UsnFault::Shape { at } => JournalFault::Broken { at },
            UsnFault::Memory => JournalFault::Memory,
        }
    }
}
