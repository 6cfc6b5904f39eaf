//! The names of a volume's files, and the ways up from them, stay where an operation writes or cuts
//! a file: what a volume keeps of them is what is told of the next state too. Each file has as many
//! attribute lists then as before.
//!
//! The contracts: the laws of these definitions, as functions with no body of their own.
#![tactic(auto)]

mod laws;

pub use laws::{names_stay, writes_keep_lists, writes_keep_names};
pub use made_data::made_is_counted;
pub use written_values::{steps_of_trees, steps_stay};
