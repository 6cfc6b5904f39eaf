//! What is always so of a volume on a device between two calls: it rests, and whatever a crash leaves
//! of it recovers to a state in its store's window.
//!
//! The contract: the laws of these definitions, as functions with no body but the laws that they cite.
#![tactic(auto)]

mod laws;

pub use found_stays::steps_stay;
pub use laws::{puts_rest, rests_recover, starts_rest, turns_add_none, turns_rest};
