//! A volume as its file table is loaded: the bits of its bitmaps, its streams, indexes and
//! clusters, what each of them has to keep, and the nodes that its files stand for.
//!
//! The contract: the laws of these definitions, as functions with no body. The layouts are those of
//! the Linux-NTFS documentation, "$MFT", "$Bitmap", "Attribute Header" and "$INDEX_ALLOCATION".
#![tactic(auto)]

mod laws;

pub use bit_set::{BitSet, Bytes, FileRef, Memory, is_same_reference};
pub use laws::{joined_in_any_order, loaded_files};
pub use upcase_order::{Link, LinkList, Name, Node, Run, Runs, Upcase, UpcaseFault};
