//! The index of each directory of a volume: where its nodes lie, the names that it holds, and the
//! first directory whose index isn't the list of the names that stand in it.
//!
//! The contract: each answer is that of the definition, for the content that a view is and the
//! files that are held in memory. The layouts are those of the Linux-NTFS documentation,
//! "$INDEX_ROOT", "$INDEX_ALLOCATION" and "Index Record".
#![tactic(auto)]

mod breaking;
mod fault;
mod holding;
mod placing;
mod roots;

pub use breaking::first_broken;
pub use fault::IndexFault;
pub use holding::index_links;
pub use index_tree::{BlockList, DirPlace, TreeFault, find};
pub use placing::index_place;
