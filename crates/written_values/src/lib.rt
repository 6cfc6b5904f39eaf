//! Writes of a value in its record, cuts and shorter sizes: an operation that put them into a draft
//! is done.
//!
//! The contract: the laws of these definitions, as functions with no body.
#![tactic(auto)]

mod laws;

pub use change_steps::{
    bare_is_enough, changes_are_steps, data_extents, drafts_are_written, file, files_are_ready,
    found_is_there, makings_are_steps, reads_the_table, steps_of_trees, steps_stay, times_are_set,
};
pub use laws::{cuts_are_done, shorter_are_done, values_are_done};
