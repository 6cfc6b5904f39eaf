//! A bitmap: a finite set of the numbers below its count of bits, which contracts see as the list
//! of the bits.
//!
//! The contract: each search answers the lowest place or run of clear bits that there is, and
//! None exactly where there is none. Bits of bytes count from the low bit of the first byte, as in
//! the Linux-NTFS documentation, "File - $Bitmap".
#![tactic(auto)]

mod laws;
mod set;
mod summary;
mod tree;
mod words;

pub use host_base::{Bytes, FileRef, Memory, is_same_reference};
pub use laws::{clearing_takes_away, members_are_set_bits, same_members_same_bits, setting_unites};
pub use set::BitSet;
