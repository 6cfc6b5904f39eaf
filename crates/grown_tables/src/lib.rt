//! A draft that has let the file table grow, as what a file may be made behind.
//!
//! The contract: the laws of these definitions, as functions with no body. The layouts are those of
//! the Linux-NTFS documentation, "$MFT" and "$Bitmap".
#![tactic(auto)]

mod laws;

pub use laws::{table_grows_first, table_is_not_full, table_is_ready, table_takes_little};
