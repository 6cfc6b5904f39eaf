//! A loaded volume that is asked for its nodes, names and bytes, through the indexes of its
//! directories and the streams of its files.
//!
//! The contract: where a view's content is that of a volume that breaks no rule, each call answers
//! of the tree that it stands for; no call goes over the volume. The layouts are those of the
//! Linux-NTFS documentation, "FILE Record", "$INDEX_ROOT", "Index Record" and "$FILE_NAME".
#![tactic(auto)]

mod choosing;
mod finding;
mod listing;
mod nodes;
mod reading;
mod volume;

pub use block_view::View;
pub use record_rules::all_links;
pub use tree_lookup::{Lookup, LookupFault, Op, Reply, answer};
pub use volume::VolumeTree;
pub use volume_tree::{Head, NamedVolume, Names, Upcase};
