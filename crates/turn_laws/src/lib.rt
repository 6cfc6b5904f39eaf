//! What the steps of a store leave: the blocks whose bodies stay in the present content, whatever
//! is sealed, written, synced or written out.
//!
//! The contract: the law of these definitions, as a function with no body.
#![tactic(auto)]

mod laws;

pub use laws::steps_spare;
pub use txn_core::{
    ChangeFault, Store, StoreView, endings_tell, pages_are_enough, piece_room, steps_lead_on,
    windows_tell,
};
