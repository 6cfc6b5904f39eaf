//! Whether a store may be given a list of changes, tried by where their blocks lie and what they bring.
//!
//! The contract: the answer is that of the definition; by the laws it is yes only of changes that a
//! store may log one after the other in one transaction, and it is yes of all such changes that stand
//! in the order of their blocks and beside the runs of the log.
#![tactic(auto)]

mod checking;
mod laws;

pub use checking::may_put;
pub use laws::{checks_are_enough, checks_are_met};
pub use state_store::{PutFault, SameNamesRule, put_changes, turn_store};
