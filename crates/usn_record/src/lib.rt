//! Records of the change journal: one is read in its page, one is appended in its one spelling, and
//! a page of them is read or checked.
//!
//! The contract: a record is read exactly where its bytes spell it, a record of another version is
//! passed over, and everything else is refused by its first fault; what is appended is the one
//! spelling of the entry. The layout is that of Microsoft's reference, "USN_RECORD_V2".
#![tactic(auto)]

mod entry;
mod front;
mod judging;
mod page;
mod writing;

pub use entry::read;
pub use file_tree::{Usn, UsnList};
pub use journal_model::UsnFault;
pub use page::{check_page, ends_in_record, read_page};
pub use writing::write;
