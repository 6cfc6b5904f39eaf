//! When an insertion adds a level to a directory's index.
//!
//! The contract: the laws of these definitions, as functions with no body. Nodes and entries are
//! those of the Linux-NTFS documentation, "$INDEX_ROOT", "Index Record" and "Index Entry".
#![tactic(auto)]

mod laws;

pub use laws::{even_root_is_leaf, level_needed, level_of_insertion, root_is_lowered};
