//! The blocks by which the log of a store is found: no call of a store writes them, so whatever a
//! crash leaves has them as they were at first.
//!
//! The contracts: the laws of these definitions, as functions with no body.
#![tactic(auto)]

mod laws;

pub use laws::{bodies_stay, calls_join, images_bear, starts_stay, steps_stay};
pub use txn_core::{Closing, Store};
