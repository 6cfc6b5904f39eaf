//! What a store that was mounted on the sectors of a mounted volume shows: the state of this volume,
//! over which it begins at rest.
//!
//! The contract: the laws of these definitions, as functions with no body of their own.
#![tactic(auto)]

mod laws;

pub use laws::{
    all_put_out, found_lie_off, stores_begin, stores_keep_found, stores_may_be_changed,
    stores_show_mounted,
};
pub use safe_blocks::{
    LiveMap, MountFault, Mounted, Names, OpeningToWrite, Refusal, VolumeMap, boot_block,
    file_stream, has_type, mount, mounts_hold_states,
};
