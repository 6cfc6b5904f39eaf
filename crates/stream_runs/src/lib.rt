//! Runs of streams that come to have more clusters or fewer: joined where they touch, behind those
//! of before, or the first of them.
#![tactic(auto)]

mod joining;
mod laws;
mod sharing;

pub use joining::{grown, merged, total_clusters};
pub use laws::{runs_are_joined, streams_grow, streams_shrink};
pub use sharing::{back, front, last_cluster};
pub use volume_model::{Run, Runs};
