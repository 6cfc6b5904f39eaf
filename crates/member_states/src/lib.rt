//! What a crash leaves of a volume: each image of the disk of its store recovers to a state, one of those
//! in the store's window.
//!
//! The contract: the laws of these definitions, as functions with no body of their own.
#![tactic(auto)]

mod laws;

pub use laws::{
    crashes_leave_states, puts_keep_states, starts_hold_states, steps_keep_states, volumes_may_put,
};
pub use state_store::{endings_tell, needed_is_all, puts_spare, steps_spare, windows_tell};
