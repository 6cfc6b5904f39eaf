//! A run of a script's commands on a volume that they change.
//!
//! The contract: the turns are those of one serial run of the volume's tree, in the script's order,
//! each command once; each image that a crash could leave since the run began, or since a moment before
//! it of which this is known, mounts as the tree after a prefix of the turns, in which no sync that was
//! answered is undone; and it begins no more pages of the log than its ring has for each command.
#![tactic(auto)]

mod blank;
mod laws;
mod running;
mod turning;

pub use blank::blank_turns;
pub use laws::{laps_bounded, starts_now};
pub use running::{change_run, run_turns};
pub use volume_replies::Volume;
