//! Record pages of a log in the bytes of a page.
ghost use Rattle.std.specs.Prelude.{◌≡◌, length};

use disk_model::{put_bytes, put_u16, put_u64};
use fixup_record::{has_shape, protect};

/// Makes it the record page with these entries, whose last LSN is this, by the check word 4.
pub fn fill(page: &mut [u8], entries: &[u8], last: u64)
    requires { length page.old ≡ 4096 }
{
    put_bytes(page, 0x00, b"RCRD");
    put_u16(page, 0x04, 0x28);
    put_u16(page, 0x06, 9);
    put_u64(page, 0x08, last);
    put_u16(page, 0x10, 1);
    put_u64(page, 0x20, last);
    if entries.len() <= 4032 {
        put_u16(page, 0x18, 0x40 + entries.len() as u16);
        put_bytes(page, 0x40, entries);
    }
    if has_shape(page) {
        protect(page, 4);
    }
}
