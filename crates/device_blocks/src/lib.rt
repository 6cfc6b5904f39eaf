//! The blocks of a device that is written too: bodies with the check words that stand there, read
//! alone or ahead in pieces of 64 KiB, and bodies that are written under the next check word.
#![tactic(auto)]

mod ahead;
mod laws;
mod reading;
mod undoing;
mod word;
mod writing;

pub use ahead::AheadDevice;
pub use device_view::{ReadAhead, piece_room};
pub use disk_model::{Block, Body, Change, put_bytes};
pub use fixup_record::has_spelling;
pub use laws::{raw_has_sectors, spelled_has_sectors, written_word_stands};
pub use log_area::LogArea;
pub use reading::read_block;
pub use word::CheckWord;
pub use writing::{write_again, write_body};
