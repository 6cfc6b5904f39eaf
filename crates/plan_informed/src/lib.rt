//! What a draft has put with other values is an edit of a plan: standard information of a file, and
//! its unnamed data where this stands in the record.
//!
//! The contract: the laws of these definitions, as functions with no body. The layouts are those of
//! the Linux-NTFS documentation, "$STANDARD_INFORMATION" and "$DATA".
#![tactic(auto)]

mod laws;

pub use laws::{valued_rewrites, values_are_edit};
pub use plan_edits::{
    DirPlace, DirPlan, DraftFault, FixedValue, NodesPlan, data_extents, file, lay_out, push_copies,
    push_copy, put_bytes, put_file, put_moved, put_resized, reads_the_table, sized,
    state_has_bitmap, stream_of, written_file,
};
pub use record_values::{FileRec, placed_fits, valued_record};
