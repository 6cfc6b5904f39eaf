//! A store of blocks on a new volume: a session may be opened on its log.
//!
//! The contract: the law, as a function with no body of its own.
#![tactic(auto)]

mod laws;

pub use laws::new_logs_open;
