//! The image of a new volume stands for its tree.
//!
//! The contract: the laws of the image, as functions with no body. The layouts are those of the
//! Linux-NTFS documentation.
#![tactic(auto)]

mod laws;

pub use laws::{new_image_stands_for, new_volume_stands};
