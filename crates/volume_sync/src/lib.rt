//! The loops of steps that a run of operations on a volume needs.
//!
//! The contract: a sync ends with each operation durable, or with a failure of the device; the volume
//! has the same tree, and whatever a crash inside it leaves could be left before it, or mounts as one
//! of the trees of the operations that weren't known durable, or of the newest one that was.
#![tactic(auto)]

mod laws;
mod rooming;
mod stepping;
mod syncing;

pub use laws::{runs_join, turns_run};
pub use rooming::make_room;
pub use syncing::sync;
pub use volume_core::{DoFault, Failed, Volume};
