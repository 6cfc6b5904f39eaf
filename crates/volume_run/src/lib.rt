//! A run of a script on the volume of a device: it is mounted, its commands have their turns, and
//! their text is made.
//!
//! The contract: the text is that of a serial run from the tree that the recovered content stands
//! for, or the error is the first refusal; a reply `fault` stands only where the device failed in
//! that command; and the device is only read.
#![tactic(auto)]

mod running;
mod volume;

pub use running::run_text;
pub use volume_mount::{MountFault, ReadJournal, Refusal, check_image, read_journal, scan_image};
