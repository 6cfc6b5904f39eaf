//! The clean end of a store of blocks: all that it holds is written out and durable, and then its
//! log is marked clean.
//!
//! The contract: at `Ok` nothing is open, each commit is durable, no block is dirty, no page of the
//! log is used, and the restart page that went out last says that the log is closed; each failure
//! has its cause; and wherever the end is stopped, what a crash leaves recovers to a content of the
//! store's window, in which all stays that was claimed there, begins no lap at a mount behind the
//! store's next one, and has the blocks by which the log is found as they were at first.
#![tactic(auto)]

mod closing;
mod draining;
mod ending;
mod fault;

pub use closing::close;
pub use draining::drain;
pub use ending::has_next;
pub use fault::CloseFault;
