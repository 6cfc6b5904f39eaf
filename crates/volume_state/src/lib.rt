//! The state of a volume: the nine rules under which it stands for a file tree, in their order, and
//! that tree, with its change journal.
//!
//! The contract: the laws of these definitions, as functions with no body. The layouts are those of
//! the Linux-NTFS documentation, "$Volume" and "$VOLUME_INFORMATION", and of Microsoft's reference,
//! "USN_RECORD_V2".
#![tactic(auto)]

mod laws;

pub use laws::{check_of_state, report_of_tree};
