//! Laws of a mounted volume: what a session that writes may rest on.
//!
//! The contract: laws, as functions with no body. The layouts are those of the Linux-NTFS
//! documentation, "$LogFile".
#![tactic(auto)]

mod laws;

pub use laws::{entries_rise, least_is_first, mounted_by_record, mounted_on_ring, mounted_passes};
pub use volume_mount::{
    MountFault, Mounted, Names, OpeningToWrite, Refusal, VolumeMap, VolumeTree, boot_block,
    file_stream, has_type, mount, owned_once,
};
