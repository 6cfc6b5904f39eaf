//! A store of blocks over a device: transactions, and the steps that make them durable and write
//! their blocks out.
//!
//! The contract: each call is an event of the pure machine behind the store, so that whatever a
//! crash may leave at any moment recovers to a content of the store's window; and each failure has
//! its cause.
//!
//! So, from any settled device, through a mount, whatever calls come and however the device fails:
//! what a crash may leave of a moment or since isn't refused by a mount, as long as the laps of the
//! log don't come near their end (`stores_mount` of `txn_mount`); and it recovers, on each known
//! block that it doesn't shadow, to the content after some number of commits, in their order. That
//! is no fewer than were durable at that moment, where no rival of the block was written out since
//! and its body wasn't dropped (`windows_follow` of `txn_laws`).
#![tactic(auto)]

mod changing;
mod checkpoints;
mod closing;
mod counting;
mod fault;
mod laws;
mod opening;
mod steps;
mod store;
mod telling;
mod told;
mod transactions;
mod turning;
mod view;
mod writing;

pub use closing::Closing;
pub use device_blocks::{CheckWord, LogArea, piece_room, write_body};
pub use fault::ChangeFault;
pub use laws::{logs_open, steps_lead_on};
pub use opening::open_log;
pub use store::Store;
pub use txn_laws::{endings_tell, windows_tell};
pub use txn_state::{StoreState, pages_are_enough, rival, rival_count};
pub use view::StoreView;
