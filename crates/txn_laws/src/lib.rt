//! What stands behind what a store of blocks keeps: the pure machine, its log on the disk, and its
//! window of contents.
//!
//! The contract: the laws by which each call, as a function of what the store keeps and by what the
//! device's contract says of its call, is an event of the machine; as functions with no body.
#![tactic(auto)]

mod laws;

pub use area_laws::{Device, LAST_MOMENT, LogPlace, View, ViewFault, lap_of, page_lsn};
pub use laws::{
    checkpoint_steps, device_steps, endings_tell, memory_calls, mounts_go_on,
    next_steps_may_be_taken, stores_start, told_can_be, windows_follow, windows_tell,
};
pub use txn_model::{Facts, Pool, StoreStep};
