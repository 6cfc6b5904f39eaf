ghost use Rattle.std.specs.Prelude.{◌≡◌, ◌+◌, ◌-◌, ◌*◌, ◌/◌, ◌<◌, ◌≤◌, ◌^◌, ◌++◌, ◌∷◌, [], All, length, IfOk, IfErr, IfSome, OnOk, OnErr};
ghost use Rattle.std.specs.Bool.{OnTrue};
ghost use Rattle.disk_model.specs.host_base.Answers.{Gives};
ghost use Rattle.disk_model.specs.Fixups.{restored};
ghost use Rattle.log_record.specs.log_model.Entries.{entry_size, FitsEntry};
ghost use Rattle.log_page.specs.declared.fault.PageFault.TheVariants.{Memory as no_memory};
ghost use Rattle.log_page.specs.Places.{page_lsn};
ghost use Rattle.log_page.specs.RecordPages.{page_cause, is_whole_page, lsn_of, bytes_from, entry_in, goes_on, entries_from, page_reading, page_entries, AppendsReading, AppendsPage};

use crate::fault::PageFault;
use crate::places::page_lsn;
use crate::record::is_record_page;
use disk_model::u16_at;
use fixup_record::unprotect;
use log_record::{Entry, EntryFault, read};
use std::alloc::{AllocError, Global};

// Where the entries of a page begin.
const ENTRIES: usize = 0x40;

const PAGE: usize = 4096;

// The LSN of an offset of the page whose first entry has this LSN.
fn lsn_of(first: u64, at: usize) -> u64
    requires place { 0x40 ≤ at }
    requires near { at ≤ 4096 }
    requires fits { first + 504 < 2 ^ 64 }
    ensures value { result ≡ lsn_of first at }
{
    first + (at as u64 - 0x40) / 8
}

// The bytes of a page from an offset on, up to the first free one.
#[tactic(auto, using(std::proofs::lemmas::List::drop_min, std::proofs::lemmas::List::take_min))]
fn bytes_from(page: &[u8], at: usize) -> &[u8]
    requires size { length page.now ≡ 4096 }
    ensures value { result.now ≡ bytes_from page.now at }
{
    let free = u16_at(page, 0x18) as usize;
    let used = page.split_at(free.min(page.len())).0;
    used.split_at(at.min(used.len())).1
}

// The entry with the LSN of its place that stands at an offset of the page whose first entry has
// the LSN `first`.
#[tactic(auto, unfolding(crate::specs::RecordPages::entry_in))]
fn own_entry(alloc: Global, page: &[u8], first: u64, at: usize) -> Result<Option<Entry>, PageFault>
    requires size { length page.now ≡ 4096 }
    requires place { 0x40 ≤ at }
    requires near { at ≤ 4096 }
    requires fits { first + 504 < 2 ^ 64 }
    ensures value { IfOk result (λ found. found ≡ entry_in page.now first at) }
    ensures spelled { IfOk result (λ found. IfSome found FitsEntry) }
    ensures inside { IfOk result (λ found. IfSome found (λ e. at + entry_size e ≤ 4096)) }
    ensures memory { IfErr result (λ e. e ≡ no_memory) }
{
    match read(alloc, bytes_from(page, at)) {
        Ok(entry) => {
            if entry.lsn == lsn_of(first, at) {
                Ok(Some(entry))
            } else {
                Ok(None)
            }
        }
        Err(EntryFault::Shape { .. }) => Ok(None),
        Err(EntryFault::Memory) => Err(PageFault::Memory),
    }
}

// Whether an entry is to be read at an offset of a page.
fn goes_on(page: &[u8], at: usize) -> bool
    requires size { length page.now ≡ 4096 }
    ensures value { result ≡ goes_on page.now at }
{
    at == ENTRIES || at < u16_at(page, 0x18) as usize
}

// Adds an entry.
fn keep(entries: &mut Vec<Entry>, entry: Entry) -> Result<(), AllocError>
    ensures ok { OnOk result (entries.new.items ≡ entries.old.items ++ entry ∷ []) }
    ensures err { OnErr result (entries.new.items ≡ entries.old.items) }
{
    entries.push(entry)?;
    Ok(())
}

// Appends the entries of a page whose update sequence was undone from an offset on.
#[tactic(auto, using(crate::proofs::Readings::left_early))]
fn append_from(
    alloc: Global,
    entries: &mut Vec<Entry>,
    page: &[u8],
    first: u64,
    from: usize,
) -> Result<(), PageFault>
    requires size { length page.now ≡ 4096 }
    requires place { 0x40 ≤ from }
    requires near { from ≤ 4096 }
    requires fits { first + 504 < 2 ^ 64 }
    ensures value { AppendsReading (entries_from (length page.now) page.now first from) entries.old.items entries.new.items result }
    ensures fits { All FitsEntry entries.old.items → All FitsEntry entries.new.items }
{
    let mut at = from;
    'places: while goes_on(page, at) {
        match own_entry(alloc, page, first, at)? {
            Some(entry) => {
                at += entry.size();
                keep(entries, entry)?;
            }
            None => {
                let lsn = lsn_of(first, at);
                return Err(PageFault::Foreign { lsn });
            }
        }
    }
    Ok(())
}

// Undoes the update sequence of a page in room for it, and tells whether it is whole at its place.
#[tactic(auto, unfolding(crate::specs::RecordPages::is_whole_page))]
fn open_page(raw: &[u8], room: &mut [u8], pages: u64, lsn: u64) -> bool
    requires size { length raw.now ≡ 4096 }
    requires room { length room.old ≡ 4096 }
    requires small { pages < 2 ^ 52 }
    ensures value { result ≡ is_whole_page pages raw.now lsn }
    ensures page { OnTrue result (room.new ≡ restored raw.now) }
{
    room.copy_from_slice(raw);
    if unprotect(room).is_err() {
        return false;
    }
    is_record_page(room, pages, lsn)
}

// Appends the entries of a page in room for it.
#[tactic(auto, unfolding(crate::specs::RecordPages::page_reading))]
fn append_in(
    alloc: Global,
    entries: &mut Vec<Entry>,
    raw: &[u8],
    room: &mut [u8],
    pages: u64,
    lsn: u64,
    from: usize,
) -> Result<(), PageFault>
    requires size { length raw.now ≡ 4096 }
    requires room { length room.old ≡ 4096 }
    requires small { pages < 2 ^ 52 }
    requires fits { lsn + 504 < 2 ^ 64 }
    requires place { 0x40 ≤ from }
    requires near { from ≤ 4096 }
    ensures value { AppendsPage (is_whole_page pages raw.now lsn) (page_reading raw.now lsn from) entries.old.items entries.new.items result }
    ensures fits { All FitsEntry entries.old.items → All FitsEntry entries.new.items }
{
    if !open_page(raw, room, pages, lsn) {
        return Err(PageFault::NotWhole);
    }
    append_from(alloc, entries, room, lsn, from)
}

/// Appends to a log's entries those of the page of the ring (Linux-NTFS documentation, "$LogFile",
/// "Record page") whose first entry has this LSN, in a log of so many pages, as it stands on the
/// disk: the entries from the offset `from` in the page on, 0x40 for all.
///
/// - [`PageFault::NotWhole`]: the bytes don't begin `RCRD`, their update sequence doesn't hold, the
///   first entry has another LSN, or the last one is of another lap. No entry is appended.
/// - [`PageFault::Foreign`]: an entry isn't one of this host, by the LSN of its place. Those before
///   it are appended.
/// - [`PageFault::Memory`]: want of memory. A front of the entries may be appended.
///
/// Each entry that is appended has a spelling. It takes time and memory linear in the page.
pub fn append_page(
    alloc: Global,
    entries: &mut Vec<Entry>,
    page: &[u8],
    pages: u64,
    lsn: u64,
    from: usize,
) -> Result<(), PageFault>
    requires size { length page.now ≡ 4096 }
    requires small { pages < 2 ^ 52 }
    requires fits { lsn + 504 < 2 ^ 64 }
    requires place { 0x40 ≤ from }
    requires near { from ≤ 4096 }
    ensures value { AppendsPage (is_whole_page pages page.now lsn) (page_reading page.now lsn from) entries.old.items entries.new.items result }
    ensures fits { All FitsEntry entries.old.items → All FitsEntry entries.new.items }
{
    append_in(alloc, entries, page, &mut [0; PAGE], pages, lsn, from)
}

/// Appends to a log's entries those of this page of the ring, read in this lap, as [`append_page`]
/// does with its errors. A page whose first LSN has more than 64 bits isn't whole.
pub fn append_at(
    alloc: Global,
    entries: &mut Vec<Entry>,
    raw: &[u8],
    pages: u64,
    lap: u64,
    page: u64,
    from: usize,
) -> Result<(), PageFault>
    requires size { length raw.now ≡ 4096 }
    requires small { pages < 2 ^ 52 }
    requires inside { page < pages }
    requires place { 0x40 ≤ from }
    requires near { from ≤ 4096 }
    ensures value { AppendsPage (is_whole_page pages raw.now (page_lsn pages lap page)) (page_reading raw.now (page_lsn pages lap page) from) entries.old.items entries.new.items result }
    ensures fits { All FitsEntry entries.old.items → All FitsEntry entries.new.items }
{
    match page_lsn(pages, lap, page) {
        Some(lsn) => append_page(alloc, entries, raw, pages, lsn, from),
        None => Err(PageFault::NotWhole),
    }
}

/// The entries of the page of the ring whose first entry has this LSN, in a log of so many pages,
/// as it stands on the disk; there is at least one.
///
/// The errors are those of [`append_page`]; [`PageFault::Foreign`] names the first entry that isn't
/// one of this host. It takes time and memory linear in the page.
#[tactic(auto, unfolding(crate::specs::RecordPages::page_entries))]
pub fn read_page(alloc: Global, page: &[u8], pages: u64, lsn: u64) -> Result<Vec<Entry>, PageFault>
    requires size { length page.now ≡ 4096 }
    requires small { pages < 2 ^ 52 }
    requires fits { lsn + 504 < 2 ^ 64 }
    ensures value { Gives (λ v. v.items) page_cause result (page_entries pages page.now lsn) }
{
    let mut entries = Vec::new(alloc);
    append_page(alloc, &mut entries, page, pages, lsn, ENTRIES)?;
    Ok(entries)
}
