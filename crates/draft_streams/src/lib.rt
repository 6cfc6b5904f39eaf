//! Bytes that a plan puts into streams while it is made.
#![tactic(auto)]

mod laws;
mod sectors;

pub use laws::bytes_are_put;
pub use plan_draft::Draft;
pub use sectors::put_bytes;
pub use stream_map::{Body, ClusterSize, Extents, Run, View, ViewFault, fill};
