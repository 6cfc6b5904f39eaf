//! The check of a loaded volume: its tree, without the bytes of its files and the records of its
//! journal, exactly where it breaks none of the nine rules; else the first rule that it breaks,
//! with the least number at which it does.
//!
//! The contract: `check` answers what the definition of a check gives for the view's content, of
//! which the map was loaded. The layouts are those of the Linux-NTFS documentation, "FILE Record",
//! "$FILE_NAME", "$INDEX_ROOT", "Data runs", "$Bitmap" and "$UsnJrnl".
#![tactic(auto)]

mod checking;
mod fault;
mod report;
mod rules;

pub use checking::check;
pub use fault::CheckFault;
pub use system_files::{upper_table, volume_info};
pub use usn_journal::{PageFault, PlaceFault, first_byte, journal_place, pull_inside};
pub use volume_model::Upcase;
pub use volume_tree::Broken;
