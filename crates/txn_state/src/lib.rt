//! What a store of blocks holds in memory: the log, the bodies that aren't the disk's, what is
//! marked of each block, and counts of commits.
//!
//! The contract: each call leaves exactly what its definition makes of these facts. What waits for
//! memory is a change alone, and for the device what writes or syncs the log.
#![tactic(auto)]

mod changing;
mod ending;
mod keeping;
mod knowing;
mod logging;
mod marks;
mod noting;
mod outs;
mod rivals;
mod starting;
mod state;

pub use state::StoreState;
pub use txn_log::{KeptBody, Mark, Tests, pages_are_enough, pages_for, rival, rival_count};
