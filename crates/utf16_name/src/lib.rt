//! Names of files: which lists of UTF-16 units are names, and how a name is printed and read.
//!
//! The contract: units are a name exactly where there are 1 to 255 of them and none is 0 or `/`,
//! and each other list is refused by its first fault. A text is read exactly where it spells units
//! by its grammar, else its first element at fault is placed, and what is printed is read again.
//! Names are those of the Linux-NTFS documentation, "Attribute - $FILE_NAME".
#![tactic(auto)]

mod elements;
mod laws;
mod name;
mod reading;
mod text;
mod units;

pub use host_base::{Bytes, FileRef, Memory};
pub use name::{Name, NameFault, check};
pub use reading::text_units;
pub use units::Units;
