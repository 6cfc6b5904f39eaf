//! Operations on a volume through its store: one that writes, fills or cuts a file is planned over the
//! present content, its changes are tried and put as one transaction, and the map follows.
//!
//! The contract: from a state that is ready, the reply and the content are those of the operation's
//! step, and the state behind it is ready for the next one; the volume holds a state whatever is
//! answered. Nothing is put that the store may not be given, and a failure of the device and want of
//! memory are replies.
#![tactic(auto)]

mod changing;
mod fault;
mod planning;

pub use change_plan::{LentView, NamedVolume, Names, Op, Reply, Upcase, VolumeStreams};
pub use changing::change_over;
pub use fault::DoFault;
pub use planning::plan_over;
pub use plans_lead::{
    LiveMap, Store, StoreView, VolumeTree, needed_is_all, steps_lead_on, steps_of_trees, steps_stay,
};
pub use put_checks::turn_store;
