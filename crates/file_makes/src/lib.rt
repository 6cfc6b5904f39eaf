//! A file that is made in a plan while that is made: its record, the bit of its number, its entry in
//! the index of its directory, and the directory's record.
//!
//! The contract: what is put are the definitions' bodies, one after the other, and a refusal is the
//! room that the directory's record lacks. The layouts are those of the Linux-NTFS documentation,
//! "FILE Record", "$INDEX_ROOT", "Index Record" and "$Bitmap".
#![tactic(auto)]

mod lsn;
mod making;
mod newfile;
mod nodes;
mod puts;

pub use block_view::View;
pub use draft_numbers::DraftFault;
pub use file_puts::{DirPlace, NodesPlan, VolumeStreams, times_are_set};
pub use making::make_file;
pub use new_files::{FileRec, new_file_reads};
pub use newfile::NewFile;
pub use plan_draft::Draft;
pub use state_model::{ClusterSize, Extents};
