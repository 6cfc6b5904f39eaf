//! Streams that come to have other clusters or sizes, as edits of a plan: each leads from a state to
//! a state.
//!
//! The contract: the laws of these definitions, as functions with no body. The layouts are those of
//! the Linux-NTFS documentation, "$MFT", "Data runs" and "$Bitmap".
#![tactic(auto)]

mod laws;

pub use laws::{chosen_may_be_taken, stream_cut, stream_grown, stream_sized, value_moved};
pub use plan_model::{DirPlace, DirPlan, FixedValue, NodesPlan, lay_out, stream_of};
pub use resized_streams::{FileRec, push_copies, push_copy, sized};
