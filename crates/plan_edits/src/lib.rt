//! What a draft has put is an edit of a plan: between the calls that put files and bits, and the laws
//! that lead from a state to a state.
//!
//! The contract: the laws of these definitions, as functions with no body. The layouts are those of
//! the Linux-NTFS documentation, "FILE Record" and "$Bitmap".
#![tactic(auto)]

mod laws;

pub use draft_resized::{
    DraftFault, data_extents, file, put_bytes, put_file, put_moved, put_resized, reads_the_table,
    written_file,
};
pub use laws::{
    drafts_put_blocks, moved_is_edit, record_is_edit, resized_is_edit, sized_is_edit,
    state_has_bitmap, written_is_read,
};
pub use plan_values::{
    DirPlace, DirPlan, FileRec, FixedValue, NodesPlan, lay_out, push_copies, push_copy, sized,
    stream_of,
};
