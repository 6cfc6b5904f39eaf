//! Why a store doesn't come to a clean end.

use host_base::Failed;
use thiserror::Error;

/// Why a store wasn't closed.
#[derive(Clone, Copy, Debug, PartialEq, Eq, Error)]
pub enum CloseFault {
    /// The device failed.
    #[error("the device failed")]
    Fault,
    /// All that the store held is written out and durable, but no restart page can be made that
    /// says so: the log has no lap for a further entry, or its count of opens has come to its end.
    #[error("the log can't be marked clean")]
    Unmarked,
}

impl From<Failed> for CloseFault {
    ghost use Rattle.std.specs.Prelude.{◌≡◌};
    ghost use Rattle.txn_close.specs.declared.fault.CloseFault.TheVariants.{Fault};

    ghost from_gives = { λ _ fault. fault ≡ Fault };

    fn from(_error: Failed) -> Self {
        CloseFault::Fault
    }
}
