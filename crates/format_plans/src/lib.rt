//! In a new volume a file can be made: the edit of a plan applies to it, and leads to a state.
//!
//! The contract: the laws of that edit, as functions with no body. The layouts are those of the
//! Linux-NTFS documentation.
#![tactic(auto)]

mod laws;

pub use laws::{new_image_takes_file, new_volume_takes_file};
