//! Writes a new NTFS volume onto a device.
//!
//! The contract: what reads of the device give afterwards is the image of a new volume over the
//! sectors of before; a device that is too large or too short is refused before any call of it. The
//! layouts are those of the Linux-NTFS documentation.
#![tactic(auto)]

mod attributes;
mod fault;
mod filling;
mod formatting;
mod indexing;
mod layout;
mod naming;
mod parts;
mod records;
mod streams;
mod writing;
mod zeros;

pub use fault::{FormatFault, FormatRefusal, Formatted};
pub use formatting::format;
