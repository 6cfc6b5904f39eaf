ghost use Rattle.std.specs.Prelude.{◌≡◌, ◌+◌, ◌*◌, ◌^◌, ◌<◌, ◌≤◌, MatchOption, IfSome};
ghost use Rattle.log_page.specs.Places.{digits, place_bits, sequence_bits, lsn_at, lap_of, offset_of, page_lsn, is_in_ring};

use std::marker::Model;

/// Sectors of the volume, one after the other.
#[derive(Clone, Copy, Debug, PartialEq, Eq)]
pub struct Extent {
    /// The first one.
    pub first: u64,
    /// How many.
    pub sectors: u64,
}

/// Runs of sectors one after the other, which contracts see as a list.
#[derive(Debug, Drop)]
pub struct LogRuns {
    items: Vec<Extent>,
}

impl Model for LogRuns {
    ghost use Rattle.std.specs.Prelude.{List};
    ghost use Rattle.log_page.specs.declared.places.Extent.{Extent};

    ghost Value = { List Extent };

    ghost view = { λ e. e.items.items };
}

impl From<Vec<Extent>> for LogRuns {
    ghost from_gives = { λ items extents. extents ≡ items.items };

    fn from(items: Vec<Extent>) -> Self {
        LogRuns { items }
    }
}

impl LogRuns {
    /// The runs as a slice.
    pub fn as_slice(&self) -> &[Extent]
        ensures { result.now ≡ self.now }
    {
        &self.items
    }
}

/// Where the log lies.
#[derive(Debug, Drop)]
pub struct LogPlace {
    /// The sectors of its pages, in the order of the log.
    pub runs: LogRuns,
    /// How many bytes at its front are initialised; those after them are zeros.
    pub initialised: u64,
    /// Its pages of 4,096 bytes.
    pub pages: u64,
    /// The clusters of the volume.
    pub clusters: u64,
    /// The sectors of the device; those of the log that aren't among them are zeros.
    pub device: u64,
}

/// How many binary digits a number has.
#[tactic(auto, unfolding(crate::specs::Places::digits))]
pub fn digits(n: u64) -> u32
    ensures value { result ≡ digits n }
    ensures small { result ≤ 64 }
{
    64 - n.leading_zeros()
}

// How many low bits of an LSN say a place in a log of so many pages.
#[tactic(auto, unfolding(crate::specs::Places::place_bits))]
fn place_bits(pages: u64) -> u32
    requires { pages < 2 ^ 52 }
    ensures value { result ≡ place_bits pages }
    ensures small { result ≤ 61 }
{
    digits(4096 * pages).saturating_sub(3)
}

/// How many high bits of an LSN say the lap in a log of so many pages: 64 less the binary digits of
/// the log's bytes, and 3 more, since an LSN counts eights of bytes.
pub fn sequence_bits(pages: u64) -> u32
    requires { pages < 2 ^ 52 }
    ensures value { result ≡ sequence_bits pages }
{
    64 - place_bits(pages)
}

/// The LSN of the byte at this offset of a log of so many pages, a multiple of 8, in this lap.
pub fn lsn_at(pages: u64, lap: u64, offset: u64) -> u64
    requires size { pages < 2 ^ 52 }
    requires fits { lsn_at pages lap offset < 2 ^ 64 }
    ensures value { result ≡ lsn_at pages lap offset }
{
    lap * (1u64 << place_bits(pages)) + offset / 8
}

/// The lap of an LSN in a log of so many pages.
pub fn lap_of(pages: u64, lsn: u64) -> u64
    requires { pages < 2 ^ 52 }
    ensures value { result ≡ lap_of pages lsn }
    ensures small { 0 < pages → result < 2 ^ 63 }
{
    lsn / (1u64 << place_bits(pages))
}

/// The offset in the log, in bytes, of an LSN in a log of so many pages.
pub fn offset_of(pages: u64, lsn: u64) -> u64
    requires { pages < 2 ^ 52 }
    ensures value { result ≡ offset_of pages lsn }
{
    8 * (lsn % (1u64 << place_bits(pages)))
}

/// The LSN of the first entry of this page of the ring in this lap; none where it has more than 64
/// bits.
pub fn page_lsn(pages: u64, lap: u64, page: u64) -> Option<u64>
    requires small { pages < 2 ^ 52 }
    requires inside { page < pages }
    ensures value { MatchOption result (2 ^ 64 ≤ page_lsn pages lap page) (λ lsn. lsn ≡ page_lsn pages lap page) }
    ensures room { IfSome result (λ lsn. lsn + 504 < 2 ^ 64) }
{
    let begin = lap.checked_mul(1u64 << place_bits(pages))?;
    begin.checked_add(512 * page + 8)
}

/// Whether an LSN says a place in a page of the ring.
pub fn is_in_ring(pages: u64, lsn: u64) -> bool
    requires { pages < 2 ^ 52 }
    ensures value { result ≡ is_in_ring pages lsn }
{
    let page = offset_of(pages, lsn) / 4096;
    4 <= page && page < pages
}
