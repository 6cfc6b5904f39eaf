//! A file table that a draft has let grow first is the part of the step that makes a file.
//!
//! The contract: the laws of these definitions, as functions with no body. The layouts are those of
//! the Linux-NTFS documentation, "$MFT" and "$Bitmap".
#![tactic(auto)]

mod laws;

pub use laws::{table_is_refused, table_takes_step};
pub use made_trees::{found_is_there, new_file_reads, times_are_set};
