//! Bodies that a plan puts whole into blocks, over one content: each block once.
//!
//! The contract: the law of these definitions, as a function with no body.
#![tactic(auto)]

mod laws;

pub use laws::bodies_put;
