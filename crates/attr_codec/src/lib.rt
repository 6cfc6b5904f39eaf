//! Attributes of file records: one is read where it stands, without a copy, and is copied where it
//! is to be kept; one is appended in its canonical spelling.
//!
//! The contract: bytes are read as the attribute that they spell, or refused by the least rule that
//! they break; what is appended is the one spelling of the attribute. The layout is that of the
//! Linux-NTFS documentation, "Attribute Header".
#![tactic(auto)]

mod borrowed;
mod header;
mod laws;
mod pushing;
mod reading;
mod writing;

pub use borrowed::{AttrFault, AttrRef, Form};
pub use disk_model::{u16_at, u32_at, u64_at};
pub use laws::{read_is_spelled, spelled_is_read, written_is_read};
pub use reading::read;
pub use record_model::{Attr, Head, OwnForm, Sizes};
pub use writing::{write_mapped, write_resident};
