//! From a file that a draft has put behind its directory's times to the step of its content.
//!
//! The contract: the laws of these definitions, as functions with no body.
#![tactic(auto)]

mod laws;

pub use laws::{
    indexes_move, made_behind_are_steps, made_files_are_steps, not_made_is_step,
    rises_where_needed, times_keep_grown, times_keep_index,
};
