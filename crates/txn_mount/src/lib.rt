//! A store is mounted on a device whose log may hold entries: the blocks that recovery makes are
//! put out, and a session is opened. And the parts of it: what is read of the log, which blocks are
//! put out, and all that is written.
//!
//! The contract: exactly the calls of the device, in their order, and where one fails; and on a
//! known disk what stands then. The laws: what these calls leave of a settled device, wherever the
//! mount is stopped, recovers to the same content on known blocks that the log doesn't shadow; and
//! a store begins behind them that shows it. No mount refuses what a store leaves, or what a mount
//! of that leaves which was stopped, as long as the laps of the log don't come near their end; and
//! each mount begins at most one lap more.
#![tactic(auto)]

mod fault;
mod keys;
mod laws;
mod looking;
mod mounting;
mod planning;
mod puts;
mod read;
mod room;
mod session;

pub use fault::StoreFault;
pub use keys::keys_of;
pub use laws::{
    chosen_may_mount, mounts_recover, never_refused, reads_disk, reads_level, starts_behind,
    stopped_mounts, stopped_mounts_mount, stores_mount,
};
pub use looking::show_recovered;
pub use mounting::{Mounted, mount};
pub use puts::{PutOut, write_outs};
pub use read::read_log;
pub use session::write_down;
pub use txn_core::Store;
