//! Which clusters a stream gets that grows.
//!
//! The contract: the laws of these definitions, as functions with no body. Clusters and their bits
//! are those of the Linux-NTFS documentation, "Data runs" and "File - $Bitmap".
#![tactic(auto)]

mod laws;

pub use bit_set::{BitSet, Memory};
pub use laws::chosen_are_free;
pub use record_model::{Run, Runs};
