//! A file that a draft has put in a directory is the edit of a plan that makes it.
//!
//! The contract: the laws of these definitions, as functions with no body. The layouts are those of
//! the Linux-NTFS documentation, "FILE Record", "$INDEX_ROOT" and "$Bitmap".
#![tactic(auto)]

mod laws;

pub use file_makes::{new_file_reads, times_are_set};
pub use laws::made_is_edit;
