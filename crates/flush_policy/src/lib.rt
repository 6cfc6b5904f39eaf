//! Which step a store takes next, by facts that it tells of itself.
//!
//! The contract: a step exactly by the order of the definition; and as laws, that the step may be
//! taken, that there is none exactly where nothing is left to do, and that each step which answers
//! `Ok` leaves less to do.
#![tactic(auto)]

mod choice;
mod facts;
mod laws;

pub use choice::next_step;
pub use facts::{Facts, StoreStep};
pub use laws::{rests_when_done, steps_come_to_an_end, steps_may_be_taken};
