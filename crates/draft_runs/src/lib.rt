//! Clusters that a plan takes or gives back while it is made: their bits in the bitmap.
#![tactic(auto)]

mod laws;
mod putting;

pub use draft_bits::{
    ClusterSize, Draft, Extents, View, ViewFault, fill_bits, put_bits, put_bytes,
};
pub use laws::runs_are_put;
pub use putting::put_runs;
pub use stream_runs::{Run, last_cluster, total_clusters};
