//! Numbers of file records that a plan takes while it is made.
#![tactic(auto)]

mod laws;
mod numbers;

pub use bit_set::BitSet;
pub use block_view::{View, ViewFault};
pub use draft_bits::put_bits;
pub use draft_records::{
    ClusterSize, Draft, DraftFault, Extents, is_past, put_file, spelled_fits_but_room,
    spelled_fits_by_room, written_file,
};
pub use host_base::FileRef;
pub use laws::spares_are_those;
pub use numbers::{spare_number, take_number};
