//! A file without unnamed data that is written or cut in a plan of its own, by its record with data
//! that is empty: it has its data then, in its record or in clusters.
//!
//! The contract: what a draft has put of that record leads to the state, the tree and the step of the
//! operation, as where the file has data; and the call that puts it. The layouts are those of the
//! Linux-NTFS documentation, "FILE Record" and "$DATA".
#![tactic(auto)]

mod changing;
mod laws;

pub use changing::{change_any_file, change_without_data};
pub use file_changes::{
    ClusterSize, Draft, FileRec, FreeBits, Node, Op, View, VolumeStreams, WriteFault,
    changes_are_steps, data_extents, file, files_are_ready, found_is_there, reads_the_table,
};
pub use laws::{any_file_is_ready, made_is_done, made_is_step};
pub use made_data::{has_data, made_is_counted, make_data};
pub use state_files::{files_have_data, streams_of_states};
