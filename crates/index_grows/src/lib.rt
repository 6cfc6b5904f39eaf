//! A directory's index that gets the blocks that a plan of its nodes takes, in a plan while that is
//! made, counted as a step counts it.
//!
//! The contract: the blocks, their bitmap and the directory's record are what a step says, where the
//! bitmap stands in the record; and the call is refused with the bytes that the record would use
//! exactly as a step says them. The layouts are those of the Linux-NTFS documentation,
//! "$INDEX_ALLOCATION", "$BITMAP" and "Data runs".
#![tactic(auto)]

mod checking;
mod counting;
mod fault;
mod growing;
mod streams;

pub use counting::count;
pub use draft_indexes::{Draft, FreeBits, View};
pub use fault::IndexFault;
pub use file_puts::{FileRec, VolumeStreams};
pub use growing::{grow_as_counted, may_count, may_grow_blocks};
pub use streams::index_blocks;
