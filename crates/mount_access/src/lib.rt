//! What a volume is mounted for, and what a mount for it is.
//!
//! The contract: a mount for each purpose is one definition, which says how the volume is opened,
//! what it is tried by and in which order. Laws, as functions with no body, say that it is what a
//! check, the reading of a journal and the mount for a change answer, and that whatever mounts for
//! one of them mounts to look too, as the same tree. The layouts are those of the Linux-NTFS
//! documentation, "$Boot", "$LogFile", "$MFT", "$VOLUME_INFORMATION" and "$UsnJrnl".
#![tactic(auto)]

mod access;
mod laws;

pub use access::Access;
pub use laws::{
    change_is_the_mount, journal_is_its_reading, look_is_the_check, mounts_to_look,
    stands_for_its_tree,
};
