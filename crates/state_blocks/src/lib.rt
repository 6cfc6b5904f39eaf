//! The blocks from which a content is read as a state: where two contents agree on them, they are
//! one state.
//!
//! The contract: the law of these definitions, as a function with no body.
#![tactic(auto)]

mod laws;

pub use laws::needed_is_all;
