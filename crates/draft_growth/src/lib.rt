//! A file table that grows in a plan while it is made: by 64 clusters and 256 records, with its
//! bitmap and the bits of the clusters; and numbers that are taken of it.
#![tactic(auto)]

mod fault;
mod growing;
mod held;
mod laws;
mod longer;
mod numbers;
mod runs;
mod table;
mod zeros;

pub use block_view::View;
pub use draft_bitmaps::{
    Bitmap, ClusterSize, Draft, Extents, FileRec, FreeBits, Resized, Stream, grow, last_cluster,
    placed_fits, put_resized, stream_of, total_clusters, valued_record,
};
pub use draft_numbers::{DraftFault, spelled_fits_but_room};
pub use fault::GrowthFault;
pub use growing::grow_table;
pub use host_base::FileRef;
pub use laws::grown_is_read;
pub use numbers::take_number_of;
pub use runs::put_runs_of;
pub use table::{Table, may_have_more};
