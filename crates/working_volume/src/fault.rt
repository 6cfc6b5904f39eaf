//! Why an operation isn't done.

use thiserror::Error;

/// Why a volume didn't do an operation. Then its content and its map are as before.
#[derive(Clone, Copy, Debug, PartialEq, Eq, Error)]
pub enum DoFault {
    /// The operation's changes take more pages of the log than are free.
    #[error("{pages} pages of the log are needed, and {room} are free")]
    NeedsRoom {
        /// The pages that they take.
        pages: u64,
        /// The pages that are free.
        room: u64,
    },
    /// What was read is part of no state of the volume: only where what the device gives isn't known.
    #[error("the volume is in no known state")]
    Unknown,
}
