//! A file of which a stream takes clusters or gives some back: its record, and the runs that come
//! and go.
#![tactic(auto)]

mod leaving;
mod resized;
mod resizing;
mod sizing;

pub use leaving::to_clusters;
pub use plan_space::{FreeBits, Run, SpaceFault};
pub use record_streams::{
    Bytes, ClusterSize, Extents, FileRec, Memory, RecFault, RoomFault, WrittenRecord, block_at,
    no_extents, normal_attr, push_copies, push_copy, stream_of,
};
pub use resized::Resized;
pub use resizing::{cut, grow};
pub use sizing::sized;
