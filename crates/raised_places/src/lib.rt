//! A file that a draft has put in its place below a level more of its directory's index is the step
//! of the operation.
//!
//! The contract: the law of these definitions, as a function with no body. The layouts are those of
//! the Linux-NTFS documentation, "FILE Record", "$INDEX_ROOT", "$INDEX_ALLOCATION" and "$Bitmap".
#![tactic(auto)]

mod laws;

pub use laws::raised_places_are_steps;
