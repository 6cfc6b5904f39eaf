//! Bits of a volume's clusters that a draft has put, wherever their bitmap stands, are edits of a
//! plan: between the calls that put them, and the laws that lead from a state to a state.
//!
//! The contract: the laws of these definitions, as functions with no body. The layouts are those of
//! the Linux-NTFS documentation, "$Bitmap" and "FILE Record".
#![tactic(auto)]

mod laws;

pub use laws::{bits_are_edit, resized_with_bits};
