//! A file that is written or cut in a plan while it is made: its record with the times, the bits of
//! the clusters that come and go, and its bytes.
//!
//! The contract: what is put is what a step says comes of the file's unnamed data, and a refusal is
//! the step's own.
#![tactic(auto)]

mod brought;
mod clusters;
mod fault;
mod held;
mod puts;
mod sizes;
mod writing;

pub use block_view::View;
pub use fault::WriteFault;
pub use file_puts::{ClusterSize, FileRec, FreeBits, Node, Op, VolumeStreams};
pub use plan_draft::Draft;
pub use puts::{put_record, put_times};
pub use writing::write_file;
