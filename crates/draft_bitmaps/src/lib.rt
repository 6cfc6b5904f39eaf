//! Bits of a volume's bitmaps that a plan sets and clears while it is made, wherever a bitmap
//! stands: in a value of its record, or in clusters, also past its initialised size.
#![tactic(auto)]

mod bitmap;
mod held;
mod laws;
mod raised;
mod standing;

pub use bitmap::Bitmap;
pub use block_view::{View, ViewFault};
pub use draft_resized::{
    ClusterSize, Draft, DraftFault, Extents, FreeBits, Resized, RoomFault, SpaceFault, Stream,
    block_at, grow, last_cluster, put_bytes, put_resized, sized, stream_of, total_clusters,
};
pub use held::put_held_bits;
pub use laws::bitmap_is_put;
pub use raised::put_raised;
pub use record_values::{FileRec, placed_fits, valued_record};
pub use standing::put_bits_of;
