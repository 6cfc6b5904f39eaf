//! Definitions of the change journal: a record as a reader that answers the first fault, a table
//! that relates bytes and entries field by field, and the one spelling that is written; the records
//! of a page, and those of a stream from one offset on to another.
//!
//! The layout is that of Microsoft's reference, "USN_RECORD_V2", and of the Linux-NTFS
//! documentation, "$UsnJrnl".
#![tactic(auto)]

mod fault;
mod laws;

pub use fault::UsnFault;
pub use laws::{
    ends_are_records, journal_is_pages, page_is_table, records_join, usn_is_table, usn_read_again,
    usn_vector,
};
pub use record_model::units_at;
