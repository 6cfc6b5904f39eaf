//! What a file that an operation writes or cuts leaves of the blocks from which a state is read: a
//! volume may take the changes.
//!
//! The contract: the law of these definitions, as a function with no body of its own.
#![tactic(auto)]

mod laws;

pub use laws::writes_keep;
pub use names_stay::{
    names_stay, steps_of_trees, steps_stay, writes_keep_lists, writes_keep_names,
};
