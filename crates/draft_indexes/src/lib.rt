//! A directory's index that gets more blocks in a plan while it is made: its clusters, the bits of
//! the blocks, and the blocks as zeros; or the first of them with a node, below another root.
//!
//! The contract: the record is the one of the definition, the clusters are those that the choice of
//! clusters gives, and each block that comes to be initialised is put whole. The layouts are those
//! of the Linux-NTFS documentation, "$INDEX_ALLOCATION", "$BITMAP" and "Data runs".
#![tactic(auto)]

mod blocks;
mod fresh;
mod growing;
mod longer;
mod used;

pub use block_view::View;
pub use blocks::IndexBlocks;
pub use draft_growth::{GrowthFault, Resized};
pub use growing::{grow_blocks, raise_blocks};
pub use plan_draft::Draft;
pub use plan_space::FreeBits;
pub use state_model::{ClusterSize, Extents};
