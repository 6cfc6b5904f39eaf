use block_view::ViewFault;
use journal_model::UsnFault;
use std::alloc::AllocError;
use thiserror::Error;

/// What refuses a position in a journal, or the journal.
#[derive(Clone, Copy, Debug, PartialEq, Eq, Error)]
pub enum PullRefusal {
    /// The position lies before the journal, which begins at this byte.
    #[error("the journal begins at {first}")]
    Trimmed { first: u64 },
    /// The position lies after the journal, whose next record goes to this byte.
    #[error("the journal ends at {next}")]
    Ahead { next: u64 },
    /// The record at this offset is at fault. It never comes where the journal's records are known
    /// to be whole.
    #[error("the record at {at} is at fault")]
    Broken { at: u64 },
}

/// Why a journal gives no records from a position on.
#[derive(Clone, Copy, Debug, PartialEq, Eq, Error)]
pub enum PullFault {
    /// The position is refused, or the journal.
    #[error("refused: {0}")]
    Refused(PullRefusal),
    /// The view failed.
    #[error("the view failed")]
    View,
    #[error("no memory")]
    Memory,
}

/// Why the pages of a journal give no records.
#[derive(Clone, Copy, Debug, PartialEq, Eq)]
pub enum PageFault {
    /// The record at this offset is at fault. It never comes where the journal's records are known
    /// to be whole.
    Broken { at: u64 },
    /// The view failed.
    View,
    /// There is no memory left.
    Memory,
}

impl From<AllocError> for PullFault {
    ghost use Rattle.std.specs.Prelude.{◌≡◌};
    ghost use Rattle.usn_journal.specs.declared.pull_fault.PullFault.TheVariants.{Memory as no_memory};

    ghost from_gives = { λ _ fault. fault ≡ no_memory };

    fn from(_error: AllocError) -> Self {
        PullFault::Memory
    }
}

impl From<PullRefusal> for PullFault {
    ghost use Rattle.std.specs.Prelude.{◌≡◌};
    ghost use Rattle.usn_journal.specs.declared.pull_fault.PullFault.TheVariants.{Refused as is_refused};

    ghost from_gives = { λ refusal fault. fault ≡ is_refused refusal };

    fn from(refusal: PullRefusal) -> Self {
        PullFault::Refused(refusal)
    }
}

impl From<AllocError> for PageFault {
    ghost use Rattle.std.specs.Prelude.{◌≡◌};
    ghost use Rattle.usn_journal.specs.declared.pull_fault.PageFault.TheVariants.{Memory as no_memory};

    ghost from_gives = { λ _ fault. fault ≡ no_memory };

    fn from(_error: AllocError) -> Self {
        PageFault::Memory
    }
}

impl From<ViewFault> for PageFault {
    ghost use Rattle.std.specs.Prelude.{◌≡◌};
    ghost use Rattle.usn_journal.specs.PullErrors.{page_fault_of_view};

    ghost from_gives = { λ view fault. fault ≡ page_fault_of_view view };

    fn from(fault: ViewFault) -> Self {
        match fault {
            ViewFault::Fault => PageFault::View,
            ViewFault::Memory => PageFault::Memory,
        }
    }
}

impl From<UsnFault> for PageFault {
    ghost use Rattle.std.specs.Prelude.{◌≡◌};
    ghost use Rattle.usn_journal.specs.PullErrors.{of_record};

    ghost from_gives = { λ record_fault fault. fault ≡ of_record record_fault };

    fn from(fault: UsnFault) -> Self {
        match fault {
            UsnFault::Cut { at } => PageFault::Broken { at },
            UsnFault::Shape { at } => PageFault::Broken { at },
            UsnFault::Memory => PageFault::Memory,
        }
    }
}

impl From<PageFault> for PullFault {
    ghost use Rattle.std.specs.Prelude.{◌≡◌};
    ghost use Rattle.usn_journal.specs.PullErrors.{pull_fault_of_page};

    ghost from_gives = { λ page fault. fault ≡ pull_fault_of_page page };

    fn from(fault: PageFault) -> Self {
        match fault {
            PageFault::Broken { at } => PullFault::Refused(PullRefusal::Broken { at }),
            PageFault::View => PullFault::View,
            PageFault::Memory => PullFault::Memory,
        }
    }
}
