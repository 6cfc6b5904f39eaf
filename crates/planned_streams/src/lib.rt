//! Streams of a volume that a plan may change, checked as they are read of a file's record: the
//! bitmaps and the file table.
#![tactic(auto)]

mod bitmaps;
mod spelling;
mod tables;

pub use bitmaps::{bitmap_of, has_bits};
pub use draft_growth::{
    Bitmap, Draft, Extents, FileRec, GrowthFault, Stream, Table, grow_table, spelled_fits_but_room,
};
pub use record_model::Runs;
pub use spelling::have_spelling;
pub use tables::{may_grow, table_of};
