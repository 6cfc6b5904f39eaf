//! What each state of a volume gives to the plans that change it.
//!
//! The contract: the laws of these definitions, as functions with no body. The layouts are those of
//! the Linux-NTFS documentation, "$MFT", "Data runs" and "$Bitmap".
#![tactic(auto)]

mod laws;

pub use laws::{owned_is_all, owners_by_kind, states_stand};
pub use tree_laws::owned_once;
