//! What is found and listed among all names of a tree, and which files are those of the volume
//! itself, by a directory's own index and by a file's own names.
//!
//! The contract: the laws of these definitions, as functions with no body. The layouts are those of
//! the Linux-NTFS documentation, "$FILE_NAME", "$INDEX_ROOT" and "$INDEX_ALLOCATION".
#![tactic(auto)]

mod laws;

pub use laws::{directory_by_index, names_by_file, system_by_names};
