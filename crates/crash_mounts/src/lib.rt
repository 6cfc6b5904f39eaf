//! An image that a crash leaves of a volume's store mounts, as the state to which it recovers: a mount
//! that writes refuses it for nothing.
//!
//! The contract: the laws of these definitions, as functions with no body of their own.
#![tactic(auto)]

mod laws;

pub use laws::{
    crashes_mount, logs_are_files, logs_stay_clear, none_shadowed, opens_alike, pages_hold,
    reads_list, states_load,
};
pub use member_states::{endings_tell, needed_is_all, windows_tell};
pub use mount_laws::mounted_by_record;
