//! A file that a draft has put in the place that was found for it is the step of the operation.
//!
//! The contract: the law of these definitions, as a function with no body. The layouts are those of
//! the Linux-NTFS documentation, "FILE Record", "$INDEX_ROOT", "$INDEX_ALLOCATION" and "$Bitmap".
#![tactic(auto)]

mod laws;

pub use grown_indexes::{
    counts_among_all, put_grows_next, put_raises, puts_among, puts_as_counted,
};
pub use index_edits::raised_is_edit;
pub use laws::places_are_steps;
pub use made_steps::{indexes_move, times_keep_grown};
pub use place_makes::{found_is_there, new_file_reads, places_are_there, times_are_set};
