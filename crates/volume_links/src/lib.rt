//! The long names of a volume's files, by one pass over its file table that keeps nothing else.
//!
//! The contract: `load_links` answers the long names of the files that a view's content stands for,
//! or the first refusal that applies. The layouts are those of the Linux-NTFS documentation,
//! "$MFT", "FILE Record" and "$FILE_NAME".
#![tactic(auto)]

mod loading;
mod names;
mod plain;
mod scanning;

pub use loading::load_links;
pub use record_model::VolumeInfo;
pub use record_rules::all_links;
