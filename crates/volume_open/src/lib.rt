//! A volume on a device is opened for operations: it is started, and taken over what was started.
//!
//! The contract: on a disk that is known, the volume has one tree that a crash may bring back: the
//! one that the device mounts as, and that of the present content. Whatever a crash leaves inside
//! the mount could be left before, or mounts as this tree too, where the volume's log is sound.
#![tactic(auto)]

mod opening;

pub use opening::mount;
pub use volume_core::{CloseFault, Volume};
pub use volume_start::{Refusal, StartFault};
