//! The regions of a new volume stand on the device that was formatted, and its blocks are read.
//!
//! The contract: the laws of the image, as functions with no body. The layouts are those of the
//! Linux-NTFS documentation.
#![tactic(auto)]

mod laws;

pub use laws::{new_blocks_are_read, regions_stand};
