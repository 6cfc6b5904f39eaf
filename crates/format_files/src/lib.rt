//! A new volume is loaded as its files, which keep the rules of names, owners and bits.
//!
//! The contract: the laws of the image, as functions with no body. The layouts are those of the
//! Linux-NTFS documentation.
#![tactic(auto)]

mod laws;

pub use laws::{new_volume_is_loaded, new_volume_keeps_bits, new_volume_keeps_names};
