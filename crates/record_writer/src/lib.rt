//! File records of an NTFS volume as they are written: a record has one spelling in 1,024 bytes,
//! is made of a list of attributes, takes attributes at a place, or gives them up, as long as it
//! has room. An attribute that was read is made normal before it is written.
//!
//! The contract: what is written is the canonical spelling of the record, which is read again as
//! that record; an attribute more is refused exactly where there is no room for it. The layouts are
//! those of the Linux-NTFS documentation, "FILE Record" and "Attribute Header".
#![tactic(auto)]

mod attrs;
mod copying;
mod fault;
mod laws;
mod lengths;
mod normal;
mod putting;
mod spelled;
mod written;

pub use attrs::write_attr;
pub use copying::{push_copies, push_copy};
pub use disk_model::{Bytes, Memory};
pub use fault::RoomFault;
pub use file_record::{FileRec, RecFault, Units};
pub use laws::{
    filled_pairs_are_read, normal_has_spelling, normal_stands_for_same, written_is_read,
};
pub use normal::normal_attr;
pub use record_model::{Attr, OwnForm, RecHead, Run, Sizes};
pub use spelled::attr_has_spelling;
pub use written::WrittenRecord;
