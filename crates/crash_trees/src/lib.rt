//! The trees that a crash may bring back of a mounted volume on a device: whatever a crash leaves of it,
//! between two calls, inside a step and inside the close of its store, mounts, as the tree behind one of
//! its last commits.
//!
//! The contract: the laws of these definitions, as functions with no body but the laws that they cite.
#![tactic(auto)]

mod laws;

pub use laws::{
    close_leaves, trees_close, trees_mount, trees_put, trees_show, trees_start, trees_turn,
};
pub use resting_states::steps_stay;
pub use txn_close::{CloseFault, close, has_next};
