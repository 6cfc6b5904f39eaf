//! The values of attributes of known types: their fields are read from a value, and are written
//! into one.
//!
//! The contract: a value is read exactly where it spells these fields, and is refused by its first
//! fault, and a file name is told without its fields too; a write sets the bytes of the fields and
//! leaves all others. The layouts are those of the
//! Linux-NTFS documentation, "$STANDARD_INFORMATION", "$FILE_NAME", "$VOLUME_INFORMATION" and
//! "$UsnJrnl".
#![tactic(auto)]

mod bytes;
mod fixed;
mod named;

pub use fixed::FixedValue;
pub use named::{NamedValue, is_file_name};
pub use record_model::{FileNameValue, JournalMax, StdInfo, ValueFault, VolumeInfo};
