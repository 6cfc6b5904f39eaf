//! A file that a draft has put behind its directory's times: the draft stands for the next state, of
//! which the tree has the file.
//!
//! The contract: the laws of these definitions, as functions with no body.
#![tactic(auto)]

mod laws;

pub use laws::{
    made_behind_are_left, made_behind_are_trees, made_files_are_left, made_files_are_trees,
    none_has_grown,
};
pub use made_files::{new_file_reads, times_are_set};
pub use written_values::{found_is_there, makings_are_steps};
