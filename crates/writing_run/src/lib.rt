//! A run of a script that may change the volume of a device: it is mounted so that it takes changes,
//! its commands have their turns, and it is closed.
//!
//! The contract: the turns are those of one serial run of the tree that the recovered content stands
//! for, each command once; whatever a crash leaves from the call's beginning on mounts as the tree
//! after a prefix of them in which no sync that was answered is undone; and the text is that of the
//! turns, or the error is the first refusal.
#![tactic(auto)]

mod running;

pub use running::{Ran, run_text};
pub use volume_open::StartFault;
