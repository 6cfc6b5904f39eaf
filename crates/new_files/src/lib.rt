//! The record of a new file, and the key by which its directory's index has it.
//!
//! The contract: the record is the one of the definition, byte for byte what the format's tables
//! say, and stands for a file with one name and no bytes. The layouts are those of the Linux-NTFS
//! documentation, "FILE Record", "$STANDARD_INFORMATION" and "$FILE_NAME".
#![tactic(auto)]

mod laws;
mod records;

pub use index_model::Key;
pub use laws::new_file_reads;
pub use plan_edits::FileRec;
pub use records::{new_key, new_record};
