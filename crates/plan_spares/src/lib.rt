//! What the bodies of a plan leave of the blocks from which a state is read: a volume may take them
//! as its changes.
//!
//! The contract: the law of these definitions, as a function with no body of its own.
#![tactic(auto)]

mod laws;

pub use laws::plans_spare;
pub use plan_model::drafts_go_on;
