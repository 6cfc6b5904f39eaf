//! The pools of a store, bodies that it keeps and marks of blocks: what they become when a
//! transaction ends and at a sync.
//!
//! The contract: each call leaves exactly what its definition makes of the pools, by blocks.
#![tactic(auto)]

mod ending;
mod kept;
mod mark;
mod syncing;

pub use ending::{mark_commits, restore};
pub use kept::KeptBody;
pub use mark::{changed, ousted};
pub use syncing::settle;
pub use txn_model::{
    Act, Block, BlockKind, Change, Device, Entry, LogArea, LogPlace, Mark, Pool, Tests, Turns,
    put_bytes,
};
