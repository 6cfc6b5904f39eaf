//! What comes of a file's unnamed data that is written or cut, in memory: its record, and the
//! clusters that come and go.
#![tactic(auto)]

mod change;
mod fault;
mod held;
mod laws;
mod placed;
mod planning;
mod resizing;

pub use change::DataChange;
pub use fault::DataFault;
pub use laws::data_made;
pub use planning::data_after;
pub use used_laws::{
    ClusterSize, FileRec, FreeBits, Node, Op, Resized, grow, is_attribute_of, normal_attr,
    placed_record, push_copies, sized, steps_of_trees, steps_stay, valued_record,
};
