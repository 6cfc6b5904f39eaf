//! Where the nodes of a directory's index lie in a state: each in a block of its own, so that a
//! plan of changes may write them.
//!
//! The contract: the laws of these definitions, as functions with no body. The layouts are those of
//! the Linux-NTFS documentation, "$INDEX_ALLOCATION" and "Data runs".
#![tactic(auto)]

mod laws;

pub use laws::indexes_are_laid_out;
