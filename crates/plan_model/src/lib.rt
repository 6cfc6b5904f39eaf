//! Edits of a volume's files that lead from state to state, and plans of them.
//!
//! The contract: the laws of these definitions, as functions with no body. The layouts are those of
//! the Linux-NTFS documentation, "$MFT", "$STANDARD_INFORMATION" and "$INDEX_ROOT".
#![tactic(auto)]

mod laws;

pub use index_change::{
    DirPlace, DirPlan, FixedValue, Node, NodesPlan, is_attribute_of, lay_out, stream_of,
};
pub use laws::{
    attrs_replaced, drafts_go_on, file_is_made, files_edited, index_walked, indexes_of_plans,
    pieces_joined, runs_given, table_edited, times_changed, values_rewritten,
};
pub use plan_owners::{owned_once, states_stand};
