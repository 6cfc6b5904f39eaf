ghost use Rattle.std.specs.Prelude.{◌≡◌};
ghost use Rattle.log_page.specs.declared.fault.PageFault.TheVariants.{Memory as no_memory};

use std::alloc::AllocError;
use thiserror::Error;

/// Why a page of the log isn't read.
#[derive(Clone, Copy, Debug, PartialEq, Eq, Error)]
pub enum PageFault {
    /// It isn't whole: another signature, a torn sector, fields out of their bounds, or of another
    /// lap of the ring.
    #[error("the page isn't whole")]
    NotWhole,
    /// The entry at this place, by its LSN, is the first one that isn't an entry of this host.
    #[error("the entry at {lsn} has another shape")]
    Foreign { lsn: u64 },
    #[error("no memory")]
    Memory,
}

impl From<AllocError> for PageFault {
    ghost from_gives = { λ _ e. e ≡ no_memory };

    fn from(_: AllocError) -> Self {
        PageFault::Memory
    }
}
