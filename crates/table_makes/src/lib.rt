//! A file table that grows first in a plan while that is made, counted as a step counts it.
#![tactic(auto)]

mod counting;
mod fault;
mod growing;
mod grown;

pub use draft_bitmaps::{Draft, Extents, FileRec, FreeBits, View};
pub use fault::{CountFault, TableFault};
pub use file_puts::VolumeStreams;
pub use growing::grow_table_first;
pub use grown::TableGrown;
pub use grown_tables::{table_grows_first, table_is_not_full, table_is_ready, table_takes_little};
