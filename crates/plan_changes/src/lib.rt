//! Edits of one file, one behind the other, as an operation that writes or cuts it: they change its
//! node and nothing else of the tree but the room.
//!
//! The contract: the laws of these definitions, as functions with no body.
#![tactic(auto)]

mod laws;

pub use laws::{
    bytes_brought, file_changed, files_go_on, files_show, nodes_become, rooms_fall,
    written_in_clusters,
};
pub use plan_informed::{
    DirPlace, DirPlan, DraftFault, FileRec, FixedValue, NodesPlan, data_extents, file, lay_out,
    placed_fits, push_copies, push_copy, put_bytes, put_file, put_moved, put_resized,
    reads_the_table, sized, state_has_bitmap, stream_of, valued_record, written_file,
};
