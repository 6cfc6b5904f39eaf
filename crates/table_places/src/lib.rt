//! A file that is made in its place behind a file table that has grown is the step of the operation.
//!
//! The contract: the law of these definitions, as a function with no body. The layouts are those of
//! the Linux-NTFS documentation, "$MFT", "FILE Record", "$INDEX_ROOT", "$INDEX_ALLOCATION" and
//! "$Bitmap".
#![tactic(auto)]

mod laws;

pub use laws::places_behind_are_steps;
