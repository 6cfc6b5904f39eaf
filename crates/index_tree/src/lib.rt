//! A directory's index over a view: the walk over its keys in order, and the search for a name.
//!
//! The contract: a walk gives the links of the keys of the index that the view's content holds, or
//! names a node and the rule that it breaks; a search gives the links of that name. The layouts are
//! those of the Linux-NTFS documentation, "$INDEX_ROOT", "Index Record" and "Index Entry".
#![tactic(auto)]

mod blocks;
mod fault;
mod finding;
mod met;
mod nodes;
mod place;
mod walking;

pub use blocks::BlockList;
pub use fault::TreeFault;
pub use finding::{find, side_of};
pub use index_model::{Key, Side};
pub use met::entry_link;
pub use nodes::{LEVELS_BELOW, node_if_any, read_root};
pub use place::DirPlace;
pub use stream_map::{
    Block, BlockKind, Body, Change, View, ViewFault, is_attribute_of, is_same_link, stream_of,
};
pub use volume_model::{Bytes, FileRef, Link, Node, Upcase, is_same_reference};
pub use walking::walk;
