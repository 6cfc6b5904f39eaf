//! Definitions of the log: an entry as a reader that answers the first field at fault, a table that
//! relates bytes and entries field by field, and the one spelling that is written; and what
//! recovery makes of a disk by a list of entries.
//!
//! The layout is that of the Linux-NTFS documentation, "$LogFile".
#![tactic(auto)]

mod entry;
mod fault;
mod laws;

pub use entry::{Act, Entry};
pub use fault::EntryFault;
pub use laws::{
    crash_kernel, entry_is_table, entry_read_again, log_vector, one_more_tells, origin_kept,
    recovered_byte, shadow_is_rival, tail_counts_for_nothing,
};
