//! Why a change fails.

use thiserror::Error;

/// Why a block wasn't changed. The transaction is given up then.
#[derive(Clone, Copy, Debug, PartialEq, Eq, Error)]
pub enum ChangeFault {
    /// The device failed.
    #[error("the device failed")]
    Fault,
    /// There is no memory left.
    #[error("out of memory")]
    Memory,
    /// No bytes of a disk are written for the body that the block would have: it is signed, and the
    /// array of its update sequence isn't in shape or isn't zeros.
    #[error("the body has no spelling")]
    Unspelled,
}
