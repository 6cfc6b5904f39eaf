//! A directory's index that a draft has let grow, as an edit of a plan: it leads from a state to a
//! state.
//!
//! The contract: the laws of these definitions, as functions with no body. The layouts are those of
//! the Linux-NTFS documentation, "$INDEX_ALLOCATION", "$BITMAP" and "Data runs".
#![tactic(auto)]

mod laws;

pub use laws::{grown_is_edit, index_streams_stand, levels_are_read, raised_is_edit};
