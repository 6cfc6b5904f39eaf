//! A file record in which a stream has other clusters or sizes: its attributes are joined into one,
//! with the fewest bytes for its runs.
#![tactic(auto)]

mod attribute;
mod laws;
mod records;

pub use attribute::placed_attr;
pub use laws::{placed_fits, streams_are_placed};
pub use record_writer::{
    Attr, Bytes, FileRec, OwnForm, RecFault, RoomFault, WrittenRecord, normal_attr, push_copies,
    push_copy,
};
pub use records::{copied, placed_record, with_stream};
pub use stream_map::{
    ClusterSize, Extents, Memory, attributes_of, block_at, no_extents, stream_of,
};
pub use stream_runs::{back, front, grown, last_cluster, merged, total_clusters};
