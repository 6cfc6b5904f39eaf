//! The bytes before the entries of a record page.
ghost use Rattle.std.specs.Prelude.{◌≡◌, ◌++◌, drop, length};
ghost use Rattle.log_page.specs.PageSpellings.{page_front};

use crate::restart::clear;
use disk_model::{put_bytes, put_u16, put_u32, put_u64};

// Writes the fields over zeros.
#[tactic(auto, unfolding(crate::specs::PageSpellings::page_front))]
fn put_front(out: &mut [u8], last: u64, free: u16)
    requires whole { length out.old ≡ 0x40 }
    ensures value { out.new ≡ page_front last free }
{
    clear(out);
    put_bytes(out, 0x00, b"RCRD");
    put_u16(out, 0x04, 0x28);
    put_u16(out, 0x06, 9);
    put_u64(out, 0x08, last);
    put_u64(out, 0x20, last);
    put_u32(out, 0x10, 1);
    put_u16(out, 0x14, 1);
    put_u16(out, 0x16, 1);
    put_u16(out, 0x18, free);
}

/// Writes what stands before the entries of a record page (Linux-NTFS documentation, "Record
/// page"), before its update sequence is made (`fixup_record::protect`): the array at 0x28, the
/// LSN of the page's last entry, at 0x08 and 0x20, and the offset of its first free byte. The
/// entries, from 0x40 on, stay, and so do the bytes behind them, which are zeros in a page that is
/// written. It takes constant time.
pub fn seal_page(page: &mut [u8], last: u64, free: u16)
    requires whole { length page.old ≡ 4096 }
    ensures sealed { page.new ≡ page_front last free ++ drop 0x40 page.old }
{
    put_front(page.split_at_mut(0x40).0, last, free);
}
