//! The file table as a plan has it.
ghost use Rattle.std.specs.Prelude.{◌≡◌, ◌↔◌, true};
ghost use Rattle.draft_growth.specs.Growing.{MayHaveMore};

use draft_bitmaps::{Bitmap, Extents};

/// The file table of a volume as a plan has it: where its records lie, and the bitmap of its
/// numbers, which is a stream of record 0 as the records are (Linux-NTFS documentation, "$MFT").
#[derive(Debug, Drop)]
pub struct Table {
    pub extents: Extents,
    pub bitmap: Bitmap,
}

// A table has at most 2^20 records, with the 256 that come.
const MOST_BEFORE: u64 = 1_048_320;

/// Whether a table has whole records, and not too many for 256 more, of at most 1,048,576 (Linux-NTFS
/// documentation, "$MFT"): what is asked of a table of a volume that [`grow_table`](crate::grow_table)
/// is to let grow to another state, beside what that call asks. In constant time.
pub fn may_have_more(table: &Table) -> bool
    ensures { (result ≡ true) ↔ MayHaveMore table.now }
{
    if table.extents.real % 1024 != 0 {
        return false;
    }
    table.extents.real / 1024 <= MOST_BEFORE
}
