//! The log of a volume on a view of its disk: its pages, what its two restart pages say, the
//! entries of the live log, its greatest LSN, and whether its pages may be written.
//!
//! The layouts are those of the Linux-NTFS documentation, "$LogFile".
#![tactic(auto)]

mod fault;
mod front;
mod laps;
mod live;
mod pages;
mod ring;

pub use block_view::{View, ViewFault};
pub use disk_model::{Block, BlockKind, Body};
pub use fault::{LogRefusal, RecoveryFault};
pub use front::{RestartFront, front_of};
pub use laps::greatest_lsn;
pub use live::{LiveLog, live_log};
pub use log_page::{
    Act, Entry, Extent, LogPlace, LogRuns, Restart, digits, is_in_ring, lap_of, offset_of,
    page_lsn, pick_check, protect, put, seal_page, sequence_bits,
};
pub use pages::read_page;
pub use ring::is_ring_place;
