//! A file that is written or cut in a plan of its own, which takes the step of that operation.
//!
//! The contract: where the operation was found to change the file, in a state of which the draft
//! touched nothing yet, the draft stands for the content after the step, or nothing was done.
#![tactic(auto)]

mod changing;
mod laws;

pub use changing::change_file;
pub use file_writes::{
    ClusterSize, Draft, FileRec, FreeBits, Node, Op, View, VolumeStreams, WriteFault, write_file,
};
pub use laws::{writes_are_done, writes_are_steps};
pub use written_clusters::{
    bare_is_enough, changes_are_steps, data_extents, drafts_are_written, file, files_are_ready,
    found_is_there, leaving_is_done, reads_the_table, values_are_done,
};
