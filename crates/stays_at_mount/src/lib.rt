//! What a mount leaves of the blocks by which the log of a store is found: it writes none of their
//! sectors.
//!
//! The contract: the law of these definitions, as a function with no body.
#![tactic(auto)]

mod laws;

pub use laws::mounts_stay;
