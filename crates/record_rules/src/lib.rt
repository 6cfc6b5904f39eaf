//! The rules under which records that are held in memory stand for a tree, each in a call of its
//! own: what one record says by itself, its names, the directories in which they stand, and the way
//! up from there.
//!
//! The contract: each answer is that of the definition, for the table that the records are. Records
//! and names are those of the Linux-NTFS documentation, "FILE Record" and "$FILE_NAME".
#![tactic(auto)]

mod climbing;
mod comparing;
mod counts;
mod fields;
mod linking;
mod names;
mod naming;
mod passing;
mod references;
mod rising;
mod rules;
mod ways;

pub use climbing::{Climber, Ways, all_links};
pub use comparing::is_index;
pub use counts::counts_in;
pub use fields::{has_type, info_of, is_compressed, is_directory_record, is_encrypted, is_sparse};
pub use file_record::{FileRec, file_at, is_base_record};
pub use linking::{links_in, links_of};
pub use names::{push_some, record_links, value_link};
pub use rules::{first_misnamed, first_misplaced, first_unrooted};
pub use state_model::is_same_link;
