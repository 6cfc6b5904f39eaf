//! Lists of changes that lead from a state to a state, through a store of a device's blocks that shows
//! a state, of which the map in memory follows the content: each list as one transaction. Of the
//! names of the files the caller has a rule, so that what is told by these needn't be made anew.
//!
//! The contract: the present content of the store is a state, of which the map is the map. After a
//! call that answers `Ok` it is the content after the changes, with one commit more; after any error
//! content, map and commits are as before. A step of the store itself, as a page written or a block
//! written out, leaves them too, whatever it answers: it takes no body from which the state is read.
#![tactic(auto)]

mod fault;
mod laws;
mod logging;
mod preparing;
mod putting;
mod rooms;
mod turning;

pub use disk_model::Change;
pub use fault::PutFault;
pub use flush_policy::StoreStep;
pub use host_base::Failed;
pub use laws::puts_spare;
pub use putting::put_changes;
pub use same_names::{LiveMap, NamesRule, SameNamesRule};
pub use state_blocks::needed_is_all;
pub use turn_laws::{Store, StoreView, endings_tell, steps_lead_on, steps_spare, windows_tell};
pub use turning::turn_store;
