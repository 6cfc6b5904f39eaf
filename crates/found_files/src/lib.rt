//! Files that an operation was found to write or cut, as the call that does it asks for them.
//!
//! The contract: a law that they are so in each state, and a call that looks whether a file is. The
//! layouts are those of the Linux-NTFS documentation, "FILE Record", "Attribute Header" and "$DATA".
#![tactic(auto)]

mod data;
mod laws;
mod numbers;
mod placed;
mod writing;

pub use data::{begins_at_zero, has_all_pairs, stands_below};
pub use file_tree::Node;
pub use laws::found_may_write;
pub use placed::{lies_below, total_clusters};
pub use tree_model::Op;
pub use volume_map::VolumeMap;
pub use writing::may_write;
pub use written_made::{
    FileRec, VolumeStreams, WriteFault, change_any_file, changes_are_steps, data_extents, file,
    found_is_there, has_data, make_data, reads_the_table,
};
