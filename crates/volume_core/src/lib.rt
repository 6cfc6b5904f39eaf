//! A volume on a device: it takes operations one at a time through its store, and what it keeps in
//! memory stays right.
//!
//! The contract: the present content of the store is a state, of which the map is the map; each
//! operation that looks is replied what the tree of this state says, and each one that writes, fills
//! or cuts a file is a step of it, as one transaction, or leaves it as it is. A step of the store
//! leaves it too. Whatever a crash leaves mounts as one of the trees that the volume had, those of
//! its last operations that aren't known durable, or the newest one that is.
#![tactic(auto)]

mod changing;
mod closing;
mod laws;
mod looking;
mod telling;
mod turning;
mod volume;

pub use crash_trees::CloseFault;
pub use flush_policy::{Facts, StoreStep};
pub use host_base::Failed;
pub use laws::ready_stays;
pub use volume::Volume;
pub use working_volume::DoFault;
