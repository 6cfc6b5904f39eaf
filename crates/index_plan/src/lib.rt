//! Insertion and removal in a directory's index, as the nodes that are written.
//!
//! The contract: of each index that the nodes stand for, a plan makes the index with one key more
//! or less, and each VCN is used once, is left over or is freed. Nodes and entries are those of the
//! Linux-NTFS documentation, "$INDEX_ROOT", "Index Record" and "Index Entry".
#![tactic(auto)]

mod descent;
mod draft;
mod fault;
mod frame;
mod insertion;
mod laws;
mod look;
mod node;
mod nodes;
mod numbers;
mod place;
mod plan;
mod removal;
mod search;
mod side;
mod trail;
mod write;

pub use descent::Test;
pub use draft::Draft;
pub use fault::{PlanFault, ReadFault};
pub use insertion::plan_insert;
pub use laws::{insert_law, level_law, regrown_numbers, regrown_walk, remove_law};
pub use node::is_sized;
pub use nodes::Nodes;
pub use numbers::Numbers;
pub use plan::Rooted;
pub use removal::plan_remove;
pub use side::{KeySide, Target};
pub use write::Write;
