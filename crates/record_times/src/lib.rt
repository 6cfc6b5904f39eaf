//! A file record whose file, or directory, changed at a time: its standard information has the time,
//! and comes where there was none.
//!
//! The contract: the record is the one of the definition; and a law says which premises of edits it
//! meets. The layouts are those of the Linux-NTFS documentation, "FILE Record" and
//! "$STANDARD_INFORMATION".
#![tactic(auto)]

mod copying;
mod informing;
mod laws;
mod timing;

pub use laws::times_are_set;
pub use plan_changes::{
    DirPlace, DirPlan, DraftFault, FileRec, NodesPlan, data_extents, file, lay_out, placed_fits,
    put_bytes, put_file, put_moved, put_resized, reads_the_table, sized, state_has_bitmap,
    stream_of, valued_record, written_file,
};
pub use state_model::Extents;
pub use timing::timed_record;
