//! What a draft of a plan puts of a file that an operation writes or cuts, and what the operation
//! has come to then.
//!
//! The contract is its definitions: which bodies are put one after the other by what comes of the
//! file's data, and what a state, its tree and its streams are where they were put.
#![tactic(auto)]

mod streams;

pub use data_plan::{
    ClusterSize, DataChange, DataFault, FileRec, FreeBits, Node, Op, Resized, data_after,
    steps_of_trees, steps_stay,
};
pub use record_times::{
    DirPlace, DirPlan, DraftFault, Extents, NodesPlan, data_extents, file, lay_out, placed_fits,
    put_bytes, put_file, put_moved, put_resized, reads_the_table, sized, state_has_bitmap,
    stream_of, timed_record, times_are_set, valued_record, written_file,
};
pub use streams::VolumeStreams;
