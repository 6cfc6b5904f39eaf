use thiserror::Error;

/// An entry isn't appended: it needs this many pages of the ring, and so many are free.
#[derive(Clone, Copy, Debug, PartialEq, Eq, Error)]
#[error("the log has {room} free pages, and {pages} are needed")]
pub struct NoRoom {
    pub pages: u64,
    pub room: u64,
}
