ghost use Rattle.std.specs.Prelude.{◌≡◌, ◌<◌, ◌≤◌, ◌^◌, true, length, take};
ghost use Rattle.disk_model.specs.Numbers.{field};
ghost use Rattle.disk_model.specs.Bytes.{up8, all_zeros};
ghost use Rattle.journal_model.specs.UsnRecords.{page_size, page_rest, is_whole, is_length};

use disk_model::u32_at;

// The bytes of a page of the journal.
const PAGE: u64 = 4096;

/// The bytes of a record before its name.
pub const HEAD: usize = 0x3c;

/// The version that is read and written.
pub const KNOWN_VERSION: u16 = 2;

// The bytes of a page: the first 4,096 of these.
#[tactic(auto, using(std::proofs::lemmas::List::take_min))]
fn page_bytes(bytes: &[u8]) -> &[u8]
    ensures { result.now ≡ take page_size bytes.now }
{
    bytes.split_at((PAGE as usize).min(bytes.len())).0
}

/// The bytes of a page from this offset of the journal on; those that are given behind the page's
/// 4,096 are left out.
#[tactic(auto, using(std::proofs::lemmas::List::drop_min))]
pub fn from_offset(page: &[u8], at: u64) -> &[u8]
    ensures { result.now ≡ page_rest page.now at }
{
    let page = page_bytes(page);
    let place = (at % PAGE) as usize;
    page.split_at(place.min(page.len())).1
}

/// Whether the bytes have a length, and as many bytes as it says.
#[tactic(auto, unfolding(journal_model::specs::UsnRecords::is_whole))]
pub fn is_whole(bytes: &[u8]) -> bool
    ensures { result ≡ is_whole bytes.now }
{
    bytes.len() >= 4 && u32_at(bytes, 0) as usize <= bytes.len()
}

/// The length that stands in bytes that reach as far as it says.
#[tactic(auto, using(crate::proofs::Ending::whole_head, crate::proofs::Ending::whole_reach))]
pub fn own_length(bytes: &[u8]) -> usize
    requires { is_whole bytes.now ≡ true }
    ensures value { result ≡ field 0x00 4 bytes.now }
    ensures inside { result ≤ length bytes.now }
{
    u32_at(bytes, 0) as usize
}

/// Whether a record can have this length.
#[tactic(auto, unfolding(journal_model::specs::UsnRecords::is_length))]
pub fn is_length(length: u32) -> bool
    ensures { result ≡ is_length length }
{
    length >= 8 && length % 8 == 0
}

/// The least multiple of 8 that isn't below n.
pub fn up8(n: usize) -> usize
    requires { n < 2 ^ 32 }
    ensures { result ≡ up8 n }
{
    8 * ((n + 7) / 8)
}
