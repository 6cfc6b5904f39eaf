//! The changes of a plan that writes or cuts a file are some that a volume takes: they lead from the
//! state that it shows to the next one, and its store may log each of them.
//!
//! The contract: the law of these definitions, as a function with no body of its own.
#![tactic(auto)]

mod laws;

pub use laws::{kept_is_welcome, plans_lead_on};
pub use spares_at_mount::{LiveMap, Store, StoreView, VolumeTree, needed_is_all, steps_lead_on};
pub use writes_keep::{names_stay, steps_of_trees, steps_stay};
