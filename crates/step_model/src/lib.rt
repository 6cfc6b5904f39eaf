//! One step of a volume's content, by an operation and its reply.
//!
//! The contract: the laws of these definitions, as functions with no body. The layouts are those of
//! the Linux-NTFS documentation, "$MFT", "$STANDARD_INFORMATION" and "$INDEX_ROOT".
#![tactic(auto)]

mod laws;

pub use laws::{
    answers_listed, contents_left, never_full, placed_once, plans_placed, plans_spread,
    steps_of_trees, steps_stay, turns_of_contents, used_bytes, worked_answers, worked_clusters,
    worked_records,
};
pub use plan_model::{Node, is_attribute_of, stream_of};
pub use record_writer::{WrittenRecord, normal_attr, push_copies};
pub use run_model::{Op, clusters_after, clusters_for, shrinks, size_after, valid_after};
