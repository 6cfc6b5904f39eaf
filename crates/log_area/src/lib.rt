//! The ring of a log: entries are appended into pages, pages are sealed, written and synced, and
//! restart pages name the oldest place from which a log is read.
//!
//! The contract: each call leaves exactly what its definition makes of the ring and of the device's
//! calls, whether the device fails or not. A page that was sent is sent again with the same bytes.
//! The layouts are those of the Linux-NTFS documentation, "$LogFile".
#![tactic(auto)]

mod area;
mod fault;
mod page;
mod places;
mod restart;
mod restarting;
mod room;
mod sending;
mod writing;

pub use area::LogArea;
pub use disk_model::{Block, BlockKind, Change, put_bytes};
pub use fault::NoRoom;
pub use log_reading::{Act, Entry, LogPlace, Restart};
pub use page::RingPage;
pub use restart::SentRestart;
pub use sector_device::{Device, LAST_MOMENT, SECTOR_BYTES};
