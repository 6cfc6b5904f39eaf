ghost use Rattle.std.specs.Prelude.{◌≡◌, ◌+◌, ◌*◌, ◌<◌, ◌≤◌, ◌^◌, length};
ghost use Rattle.disk_model.specs.Numbers.{field};
ghost use Rattle.log_page.specs.Restarts.{is_blank};
ghost use Rattle.log_page.specs.RecordPages.{first_lsn, last_lsn, is_record_page};
ghost use Rattle.log_page.specs.LiveLogs.{said_lsn};

use crate::places::lap_of;
use disk_model::u64_at;

/// Whether all bytes of a page are 0xFF.
#[tactic(auto, unfolding(crate::specs::Restarts::is_blank))]
pub fn is_blank(page: &[u8]) -> bool
    ensures value { result ≡ is_blank page.now }
{
    page.iter().all(|byte| *byte == 0xff)
}

/// The LSN that a page of the ring says at 0x08, whether or not the page is whole; none
/// where it doesn't begin `RCRD`.
pub fn said_lsn(page: &[u8]) -> Option<u64>
    requires { length page.now ≡ 4096 }
    ensures value { result ≡ said_lsn page.now }
{
    if page.starts_with(b"RCRD") {
        Some(u64_at(page, 0x08))
    } else {
        None
    }
}

// Whether a page whose update sequence was undone is a record page of the ring whose first entry
// has this LSN.
pub fn is_record_page(page: &[u8], pages: u64, lsn: u64) -> bool
    requires size { length page.now ≡ 4096 }
    requires small { pages < 2 ^ 52 }
    ensures value { result ≡ is_record_page pages page.now lsn }
{
    page.starts_with(b"RCRD")
        && u64_at(page, 0x40) == lsn
        && lap_of(pages, u64_at(page, 0x08)) == lap_of(pages, lsn)
}
