//! A new volume keeps the rules of a volume, and stands for the tree of its system files.
//!
//! The contract: the laws of a volume that was loaded as a new one, as functions with no body. The
//! layouts are those of the Linux-NTFS documentation.
#![tactic(auto)]

mod laws;

pub use laws::{loaded_volume_stands, new_volume_keeps_indexes, new_volume_keeps_sizes};
