//! An image that a crash leaves inside the start of a mounted volume mounts, as the tree that was
//! mounted.
//!
//! The contract: the law of these definitions, as a function with no body of its own.
#![tactic(auto)]

mod laws;

pub use laws::stopped_starts_mount;
