//! Values of a file's record that a plan writes anew: its standard information, and its unnamed data
//! where this stands in the record.
//!
//! The contract: the laws of these definitions, as functions with no body. The layouts are those of
//! the Linux-NTFS documentation, "$STANDARD_INFORMATION" and "$DATA".
#![tactic(auto)]

mod laws;

pub use laws::{data_made, value_written};
pub use plan_growth::{
    DirPlace, DirPlan, FileRec, FixedValue, NodesPlan, lay_out, push_copies, push_copy, sized,
    stream_of,
};
