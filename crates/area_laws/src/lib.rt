//! The ring of a log as its fields and a disk hold it: pages of entries by their numbers, of which
//! the last ones stand in memory alone.
//!
//! The contract: the laws by which each call of `log_area` leaves a ring that follows the one
//! before, as functions with no body.
#![tactic(auto)]

mod laws;

pub use laws::{calls_are_followed, ring_is_followed};
pub use log_area::{Device, LAST_MOMENT, LogPlace};
pub use ring_laws::{View, ViewFault, lap_of, page_lsn};
