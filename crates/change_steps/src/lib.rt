//! From what an operation comes to on a volume's tree to the step of its content.
//!
//! The contract: the laws of these definitions, as functions with no body. The layouts are those of
//! the Linux-NTFS documentation, "FILE Record" and "$DATA".
#![tactic(auto)]

mod laws;

pub use file_puts::{
    data_extents, file, reads_the_table, steps_of_trees, steps_stay, times_are_set,
};
pub use laws::{
    bare_is_enough, changes_are_steps, drafts_are_written, files_are_ready, found_is_there,
    makings_are_steps,
};
