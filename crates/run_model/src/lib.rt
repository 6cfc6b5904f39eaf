//! Serial runs of scripts on the file tree: the turns, the run that they make, and its printed
//! text.
//!
//! The contract: runs of turns go on and join, and what images of a disk they leave, by the laws that
//! stand here as functions with no body.
#![tactic(auto)]

mod laws;
mod turn;

pub use laws::{
    DiskRun, run_goes_on, run_keeps_states, runs_join, store_keeps_states, turn_keeps_states,
    turns_keep_states,
};
pub use tree_model::{Op, clusters_after, clusters_for, shrinks, size_after, valid_after};
pub use turn::{FindLine, Turn};
