//! The entries of a transaction: those that a change logs, which are appended to the ring of a log
//! one behind the other, and the pages that changes will take.
//!
//! The contract: the entries are exactly those of the definitions, and the ring and the counts of
//! commits by its places are what the definitions make of them. Memory is taken before the first
//! entry is appended.
#![tactic(auto)]

mod acts;
mod appending;
mod counting;
mod laws;
mod rivals;

pub use acts::update_acts;
pub use appending::{append_acts, append_commit};
pub use counting::pages_for;
pub use laws::pages_are_enough;
pub use rivals::{rival, rival_count};
pub use store_pools::{
    Act, Block, Device, KeptBody, LogArea, LogPlace, Mark, Pool, Tests, Turns, changed,
    mark_commits, ousted, put_bytes, restore, settle,
};
