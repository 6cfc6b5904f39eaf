//! The change journal of a loaded volume: where it lies, what it is without its records, and the
//! records from a position on.
//!
//! The contract: the journal is the one of the definition for the view's content, with each record
//! left out; or the offset is named at which the journal is at fault. Where its records lie is told
//! apart. At most so many of the records that begin at a position or after it are given, with the
//! place after the last of them; a position outside the journal is refused. The layouts are those of
//! the Linux-NTFS documentation, "$UsnJrnl", and of Microsoft's reference, "USN_RECORD_V2".
#![tactic(auto)]

mod finding;
mod journal_fault;
mod judging;
mod pages;
mod place;
mod pull_fault;
mod pulling;
mod shape;
mod whole;

pub use journal_fault::JournalFault;
pub use place::{PlaceFault, journal_place};
pub use pull_fault::{PageFault, PullFault, PullRefusal};
pub use pulling::{Pulled, pull_inside, read_from};
pub use record_rules::{all_links, first_misnamed, first_misplaced, first_unrooted};
pub use shape::first_byte;
pub use whole::volume_journal;
