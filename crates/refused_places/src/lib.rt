//! A file that isn't made in the place that was found for it is refused as the step of the operation
//! says.
//!
//! The contract: the laws of these definitions, as functions with no body. The layouts are those of
//! the Linux-NTFS documentation, "FILE Record", "$INDEX_ROOT", "$INDEX_ALLOCATION" and "$Bitmap".
#![tactic(auto)]

mod laws;

pub use laws::{deep_places_are_steps, full_places_are_steps, levels_top, raised_full_are_steps};
