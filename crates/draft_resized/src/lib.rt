//! A file of which a stream takes clusters or gives some back in a plan while it is made: its record,
//! the bits of the clusters, and a value that left its record for them.
#![tactic(auto)]

mod laws;
mod moved;
mod resized;

pub use draft_records::{
    ClusterSize, Draft, DraftFault, Extents, FreeBits, Resized, RoomFault, SpaceFault, Stream,
    View, block_at, data_extents, file, grow, put_file, reads_the_table, sized, stream_of,
    written_file,
};
pub use draft_runs::{fill_bits, last_cluster, put_bits, put_bytes, total_clusters};
pub use laws::{moved_is_put, resized_is_put};
pub use moved::put_moved;
pub use resized::put_resized;
