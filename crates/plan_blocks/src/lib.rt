//! The index of a directory that gets more blocks, as an edit of a plan: it leads from a state to a
//! state, before any node stands in them.
//!
//! The contract: the laws of these definitions, as functions with no body. The layouts are those of
//! the Linux-NTFS documentation, "$INDEX_ALLOCATION", "$BITMAP" and "Data runs".
#![tactic(auto)]

mod laws;

pub use laws::{
    blocks_are_written, index_grown, index_is_edit, index_raised, level_came, rooted_is_edit,
    roots_are_written,
};
