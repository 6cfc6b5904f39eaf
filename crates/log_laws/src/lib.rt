//! The live log as a table, and the laps of a log.
//!
//! The contract: the laws of these definitions, as functions with no body. The layouts are those of
//! the Linux-NTFS documentation, "$LogFile", "Restart page" and "Record page".
#![tactic(auto)]

mod laws;

pub use laws::{live_log_is_table, next_lap_is_new, page_reading_is_table, ring_is_round};
