//! The used bytes of a record that an operation's plan counts are those of the record that is written.
#![tactic(auto)]

mod laws;

pub use draft_records::{
    Attr, ClusterSize, DATA, Extents, FileRec, FreeBits, OwnForm, Resized, Runs, SpaceFault,
    Stream, cut, grow, sized,
};
pub use laws::{sizes_used, streams_used, streams_used_together, written_as_counted};
pub use record_values::{placed_record, valued_record};
pub use step_model::{
    Node, Op, WrittenRecord, clusters_after, clusters_for, is_attribute_of, normal_attr,
    push_copies, shrinks, size_after, steps_of_trees, steps_stay, stream_of, valid_after,
};
