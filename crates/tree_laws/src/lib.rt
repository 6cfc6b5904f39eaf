//! What a file that is replaced changes in the names, rules, parts and tree of a volume, and what
//! stays.
//!
//! The contract: the laws of these definitions, as functions with no body. The layouts are those of
//! the Linux-NTFS documentation, "$MFT", "$FILE_NAME" and "$Bitmap".
#![tactic(auto)]

mod laws;

pub use laws::{
    file_gone, file_made, files_changed, frame_of_state, index_listed, journal_kept, leaf_replaced,
    leaves_of_volume, links_replaced, node_replaced, nodes_by_number, owners_kept, parts_elsewhere,
    planned_writes, room_counted, rules_elsewhere, states_follow, table_grown, tree_replaced,
    trees_by_look_up, ways_are_short, ways_kept,
};
pub use stream_laws::owned_once;
