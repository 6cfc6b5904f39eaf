//! A loaded volume that is kept right after lists of changes, without being loaded again.
//!
//! The contract: `prepare` answers a change of the map which makes it the map of the view after the
//! changes, or what a load of that refuses; `apply` puts it in place, and takes no memory.
#![tactic(auto)]

mod alone;
mod applying;
mod bits;
mod change;
mod keeping;
mod live;
mod loading;
mod marking;
mod numbers;
mod preparing;
mod reading;

pub use applying::apply;
pub use change::{BitRun, BitsChange, MapChange, PartsChange, RecordChange};
pub use disk_model::Change;
pub use live::LiveMap;
pub use loading::load_live;
pub use preparing::prepare;
pub use volume_map::{Geometry, Link, MapFault, MapRefusal, Upcase, View, ViewFault, VolumeMap};
