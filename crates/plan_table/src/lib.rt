//! A file table that grows, as an edit of a plan that leads from a state to a state.
//!
//! The contract: the laws of these definitions, as functions with no body. The layouts are those of
//! the Linux-NTFS documentation, "$MFT", "Data runs" and "$Bitmap".
#![tactic(auto)]

mod laws;

pub use laws::{new_number_is_first, table_is_grown};
