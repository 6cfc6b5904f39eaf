//! What a store of blocks over a log keeps, what each call makes of it, and the entries that a
//! change logs.
//!
//! The bodies that aren't the disk's, what is marked of each block, and the counts of commits are
//! told by blocks; a call is a function of these facts.
#![tactic(auto)]

mod mark;

pub use block_pool::{Pool, Tests, Turns};
pub use flush_policy::{Facts, StoreStep};
pub use log_area::{Act, Block, BlockKind, Change, Device, Entry, LogArea, LogPlace, put_bytes};
pub use mark::Mark;
