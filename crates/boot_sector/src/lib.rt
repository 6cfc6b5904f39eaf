//! The boot sector of an NTFS volume: `Boot::read` makes its fields of 512 bytes, or answers the
//! first that is out of the profile, and `Boot::write` writes their one spelling.
//!
//! The layout is that of the Linux-NTFS documentation, "$Boot".
#![tactic(auto)]

mod boot;
mod laws;

pub use boot::{Boot, BootFault};
pub use laws::{boot_read_again, boot_read_is_table, boot_table_is_read, spells_one_boot};
