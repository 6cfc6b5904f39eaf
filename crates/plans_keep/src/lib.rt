//! What the changes of a draft leave of the blocks from which a state is read, where it puts the
//! bodies of a plan: a volume may take them.
//!
//! The contract: the law of these definitions, as a function with no body of its own.
#![tactic(auto)]

mod laws;

pub use laws::plans_keep;
