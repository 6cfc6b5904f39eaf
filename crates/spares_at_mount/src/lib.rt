//! What a mount leaves to a store: no step of the store takes the body of a block from which the
//! mounted state is read.
//!
//! The contract: the laws of these definitions, as functions with no body of their own.
#![tactic(auto)]

mod laws;

pub use laws::{blocks_off_log, logs_lie_in_volumes, mounts_spare, stores_spare};
pub use mount_laws::{
    MountFault, Mounted, Names, OpeningToWrite, Refusal, VolumeMap, VolumeTree, boot_block,
    file_stream, has_type, mount, mounted_by_record, mounted_on_ring, mounted_passes,
};
pub use state_store::{LiveMap, Store, StoreView, needed_is_all, steps_lead_on, windows_tell};
