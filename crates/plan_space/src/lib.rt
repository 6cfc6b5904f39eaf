//! The choice of clusters for a stream that grows, in a bitmap or over one that stays as it is.
//!
//! The contract: the runs that are chosen are those of the definition, and their bits are set; or
//! fewer bits are clear than are wanted, and none is set. Clusters and their bits are those of the
//! Linux-NTFS documentation, "Data runs" and "File - $Bitmap".
#![tactic(auto)]

mod choosing;
mod fault;
mod free_bits;
mod taken;

pub use choosing::choose;
pub use fault::SpaceFault;
pub use free_bits::FreeBits;
pub use space_model::{BitSet, Run, Runs};
pub use taken::Taken;
