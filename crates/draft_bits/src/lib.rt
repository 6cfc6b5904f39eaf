//! Bits of bitmaps that a plan sets and clears while it is made: those of clusters and of file
//! records.
#![tactic(auto)]

mod bytes;
mod laws;
mod putting;

pub use bytes::fill_bits;
pub use draft_streams::{ClusterSize, Draft, Extents, View, ViewFault, put_bytes};
pub use laws::bits_are_put;
pub use putting::put_bits;
