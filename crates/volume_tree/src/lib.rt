//! What the files of a loaded volume stand for: their names, the nodes with their kinds, why these
//! can't be changed, the data that they show and its sizes, and the tree of them with the spare
//! numbers.
//!
//! The contract: names, nodes and tree are those of the definitions; nodes are without their bytes.
//! The layouts are those of the Linux-NTFS documentation, "FILE Record", "Attribute Header",
//! "$FILE_NAME" and "$STANDARD_INFORMATION".
#![tactic(auto)]

mod kind;
mod names;
mod node;
mod shown;
mod stream;
mod tree;

pub use names::{NamedVolume, Names};
pub use node::{bare_nodes, node_at};
pub use shown::shown_at;
pub use state_model::{Broken, ClusterSize, Stream};
pub use tree::tree_with;
pub use volume_map::{Head, VolumeMap, first_unmarked, front};
pub use volume_model::Upcase;
