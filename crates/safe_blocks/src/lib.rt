//! What a mounted volume gives to a store whose window is to hold states: each block from which its
//! state is read is one that the store may change, or one by which its log is found.
//!
//! The contract: the laws of these definitions, as functions with no body of their own.
#![tactic(auto)]

mod laws;

pub use laws::{mounts_hold_states, needed_are_safe, single_lists_are_own};
pub use spares_at_mount::{
    LiveMap, MountFault, Mounted, Names, OpeningToWrite, Refusal, VolumeMap, boot_block,
    file_stream, has_type, mount, mounted_by_record, mounted_passes, needed_is_all, stores_spare,
    windows_tell,
};
