//! A file table that a draft has let grow is an edit of a plan: between the call that puts it and the
//! law that leads from a state to a state.
//!
//! The contract: the laws of these definitions, as functions with no body. The layouts are those of
//! the Linux-NTFS documentation, "$MFT" and "$Bitmap".
#![tactic(auto)]

mod laws;

pub use laws::{
    grown_is_edit, grown_is_kept, longer_table_lies, new_sequences_are_one, numbers_are_begun,
};
