//! The log's pages: restart pages, which say where reading begins, and the record pages of the
//! ring, which hold entries; with their places, their log sequence numbers and their check words.
//!
//! The layouts are those of the Linux-NTFS documentation, "$LogFile", "Restart page" and "Record
//! page".
#![tactic(auto)]

mod check;
mod entries;
mod fault;
mod laws;
mod places;
mod record;
mod restart;
mod sealing;

pub use check::pick_check;
pub use entries::{append_at, append_page, read_page};
pub use fault::PageFault;
pub use fixup_record::protect;
pub use laws::{has_digits, lsn_says_place, page_read_again, restart_read_again, written_pages};
pub use log_record::{Act, Entry, put};
pub use places::{
    Extent, LogPlace, LogRuns, digits, is_in_ring, lap_of, lsn_at, offset_of, page_lsn,
    sequence_bits,
};
pub use record::{is_blank, said_lsn};
pub use restart::{Restart, chosen, is_emptied, is_second_chosen};
pub use sealing::seal_page;
