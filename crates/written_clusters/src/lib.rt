//! A write in clusters is done: by what a draft has put of a file whose data stands in clusters
//! after a write or a greater size, to the state and the tree that the operation leaves.
//!
//! The contract: the laws of these definitions, as functions with no body.
#![tactic(auto)]

mod laws;

pub use laws::{growth_is_done, leaving_is_done, longer_is_done};
pub use written_values::{
    bare_is_enough, changes_are_steps, cuts_are_done, data_extents, drafts_are_written, file,
    files_are_ready, found_is_there, reads_the_table, shorter_are_done, values_are_done,
};
