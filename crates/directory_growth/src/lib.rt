//! What comes of a directory's index that gets more blocks, in memory: its record, and the clusters
//! that its blocks and their bitmap take.
//!
//! The contract: what comes is what a step of the volume says. The layouts are those of the
//! Linux-NTFS documentation, "$INDEX_ALLOCATION", "$BITMAP" and "Data runs".
#![tactic(auto)]

mod bitmap;
mod change;
mod clusters;
mod counting;
mod growing;
mod laws;

pub use change::{BitsChange, IndexChange};
pub use data_plan::{DataFault, Resized};
pub use file_record::FileRec;
pub use growing::index_after;
pub use laws::index_has_room;
pub use plan_space::FreeBits;
pub use state_model::ClusterSize;
