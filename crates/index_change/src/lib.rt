//! Plans that put an entry into a directory's index over a view, or take one out of it.
//!
//! The contract: the changes of a plan, laid over the view's content, hold an index whose walk
//! gives the links with that one more or less; each block is used, freed or left, once. The layouts
//! are those of the Linux-NTFS documentation, "$INDEX_ROOT", "Index Record" and "Index Entry".
#![tactic(auto)]

mod changing;
mod drafting;
mod few;
mod finishing;
mod gathering;
mod height;
mod holding;
mod inserting;
mod laws;
mod level;
mod naming;
mod nodes_plan;
mod plan;
mod removing;

pub use finishing::lay_out;
pub use index_node::FixedValue;
pub use index_plan::Write;
pub use index_tree::{
    Block, BlockKind, BlockList, Change, DirPlace, Node, TreeFault, View, ViewFault,
    is_attribute_of, stream_of,
};
pub use inserting::{plan_insert, plan_nodes};
pub use laws::{grown_keeps, plans_join};
pub use level::plan_level;
pub use nodes_plan::NodesPlan;
pub use plan::DirPlan;
pub use removing::plan_remove;
