//! File records of an NTFS volume: `FileRec::read` makes a record's header fields and attributes
//! of its 1,024 bytes, or answers the least rule of the format that they break. `file_at` finds the
//! file with a number among records in memory.
//!
//! The layouts are those of the Linux-NTFS documentation, "FILE Record" and "Attribute Header".
#![tactic(auto)]

mod fault;
mod files;
mod record;
mod walk;

pub use attr_codec::{AttrRef, Form, read, write_mapped, write_resident};
pub use fault::RecFault;
pub use files::{file_at, is_base_record, record_at, reference};
pub use record::{FileRec, Shaped};
pub use record_model::{Attr, AttrList, Head, OwnForm, RecHead, Sizes, Units};
pub use state_model::{FileRef, Memory, is_same_reference};
pub use std_values::{FixedValue, NamedValue, is_file_name};
