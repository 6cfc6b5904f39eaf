//! Definitions of a directory's index: a tree of entries that stand in nodes, the list of keys that
//! it is, and when nodes stand for it.
//!
//! The contract: the laws of these definitions, as functions with no body. Nodes and entries are
//! those of the Linux-NTFS documentation, "$INDEX_ROOT", "Index Record" and "Index Entry".
#![tactic(auto)]

mod key;
mod laws;
mod side;

pub use key::Key;
pub use laws::{fault_breaks, one_index, walk_is_index};
pub use side::{ROOT_VCN, Side};
pub use state_model::{Link, LinkList, Memory, Name, Node, Run, Runs, compare_names, is_same_name};
