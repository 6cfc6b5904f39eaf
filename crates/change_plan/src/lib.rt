//! The plan of an operation that writes, fills or cuts a file: its reply and its changes.
//!
//! The contract: from each content that is a state of the loaded volume, without a change journal,
//! the content after the changes is that of the operation's step with this reply; the changes are
//! those of a draft that leads to a state as a plan does. Nothing is changed. The layouts are those
//! of the Linux-NTFS documentation, "FILE Record", "$DATA" and "$Bitmap".
#![tactic(auto)]

mod checking;
mod drafting;
mod fault;
mod finding;
mod laws;
mod plan;
mod planning;

pub use block_view::View;
pub use fault::PlanFault;
pub use found_files::{VolumeStreams, data_extents};
pub use laws::files_are_read;
pub use plan::ChangePlan;
pub use planning::plan_change;
pub use tree_model::{Op, Reply};
pub use upcase_order::Upcase;
pub use volume_census::{LentView, NamedVolume, Names};
