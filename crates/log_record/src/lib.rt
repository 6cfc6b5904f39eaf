//! Entries of the log: one is read from the bytes where it begins, and one is appended, or put over
//! bytes that are there, in its one spelling.
//!
//! The contract: an entry is read exactly where its bytes are in the table of `log_model`, and else
//! its first field at fault is named; what is appended or put is the one spelling of the entry. The
//! layout is that of the Linux-NTFS documentation, "$LogFile".
#![tactic(auto)]

mod checking;
mod putting;
mod reading;
mod writing;

pub use log_model::{Act, Entry, EntryFault};
pub use putting::put;
pub use reading::read;
pub use writing::write;
