//! The ring in memory.
ghost use Rattle.std.specs.Prelude.{◌≡◌, ◌+◌, ◌-◌, ◌%◌, ◌^◌, ◌<◌, ◌≤◌, ◌↔◌, true, IfOk, OnOk, IfErr, OnErr, IsErr, length};
ghost use Rattle.log_reading.specs.log_page.Places.{sequence_bits};
ghost use Rattle.log_reading.specs.log_model.Entries.{entry_size, FitsEntry};
ghost use Rattle.log_reading.specs.Rings.{IsRingPlace};
ghost use Rattle.log_area.specs.Areas.{ring_size, lap_at, place_at, number_lsn, is_filling, fits, next_number, next_at, next_lsn, free_pages, needs_page, new_area, appended, sealed_area};

use crate::fault::NoRoom;
use crate::page::{ENTRIES, PAGE, RingPage};
use crate::places::{empty_pages, page_firsts};
use crate::restart::SentRestart;
use crate::room::zeroed;
use disk_model::Memory;
use log_reading::{Entry, LogPlace, digits, sequence_bits};
use std::alloc::Global;
use std::marker::Model;

/// The ring of a log, of which a session fills one page after the other.
#[derive(Debug, Drop)]
pub struct LogArea {
    pub(crate) pages: u64,
    pub(crate) sectors: u64,
    pub(crate) firsts: Vec<u64>,
    pub(crate) lap: u64,
    pub(crate) ring: Vec<RingPage>,
    pub(crate) free: usize,
    pub(crate) sealed: u64,
    pub(crate) done: u64,
    pub(crate) check: Option<u16>,
    pub(crate) reached: u64,
    pub(crate) synced: u64,
    pub(crate) durable: u64,
    pub(crate) oldest: u64,
    pub(crate) restart: u32,
    pub(crate) opens: u32,
    pub(crate) sent: Option<SentRestart>,
    pub(crate) named: Option<u64>,
    pub(crate) out: Vec<u8>,
}

impl Model for LogArea {
    ghost use Rattle.std.specs.Prelude.{◌≡◌, length};
    ghost use Rattle.log_area.specs.Areas.{LogAreaOf, IsLogArea, area_of};

    ghost Value = { LogAreaOf };

    ghost view = { λ a. area_of a.pages a.sectors a.firsts.items a.lap a.ring.items a.free a.sealed a.done a.check a.reached a.synced a.durable a.oldest a.restart a.opens a.sent a.named };

    ghost invariant = { λ a. IsLogArea (area_of a.pages a.sectors a.firsts.items a.lap a.ring.items a.free a.sealed a.done a.check a.reached a.synced a.durable a.oldest a.restart a.opens a.sent a.named) × (length a.out.items ≡ 4096) };
}

impl LogArea {
    /// An empty ring in a log, whose first page of the ring is filled first, in this lap, and whose
    /// next restart page goes to the place `restart`, 0 or 1, with this open count. Its buffers are
    /// taken here, 4,096 bytes for each page of the ring; no other call takes memory.
    ///
    /// The error is want of memory. Time is linear in the log's bytes, and for each page in the
    /// runs before it.
    pub fn start(
        alloc: Global,
        place: &LogPlace,
        lap: u64,
        restart: u32,
        opens: u32,
    ) -> Result<LogArea, Memory>
        requires ring { IsRingPlace place.now }
        requires begun { 1 ≤ lap }
        requires lap { lap < 2 ^ sequence_bits place.now.pages }
        requires restart { restart ≤ 1 }
        requires opens { opens ≤ 2 ^ 31 }
        ensures { IfOk result (λ area. area ≡ new_area place.now lap restart opens) }
    {
        Ok(LogArea {
            pages: place.pages,
            sectors: place.device,
            firsts: page_firsts(alloc, place)?,
            lap,
            ring: empty_pages(alloc, place.pages - 4)?,
            free: ENTRIES,
            sealed: 0,
            done: 0,
            check: None,
            reached: 0,
            synced: 0,
            durable: 0,
            oldest: 0,
            restart,
            opens,
            sent: None,
            named: None,
            out: zeroed(alloc, PAGE)?,
        })
    }

    /// How many sectors the device has at least.
    pub fn sectors(&self) -> u64
        ensures value { result ≡ self.now.sectors }
    {
        self.sectors
    }

    /// The pages of the ring.
    pub fn size(&self) -> u64
        ensures value { result ≡ ring_size self.now }
        ensures some { 0 < result }
        ensures small { result < 2 ^ 52 }
    {
        self.pages - 4
    }

    /// The place in the ring of the page with this number. Pages are numbered from 0 on in the order
    /// in which a session fills them.
    pub fn slot(&self, number: u64) -> usize
        ensures value { result ≡ place_at self.now number }
        ensures inside { result < length self.now.ring }
        ensures below { result < ring_size self.now }
    {
        (number % (self.pages - 4)) as usize
    }

    /// Whether the page that is filled has an entry.
    pub fn filling(&self) -> bool
        ensures value { result ≡ is_filling self.now }
    {
        self.free > ENTRIES
    }

    /// How many sealed pages weren't written yet.
    pub fn sealed(&self) -> u64
        ensures value { result ≡ self.now.sealed - self.now.done }
    {
        self.sealed - self.done
    }

    /// The offset of the first free byte of the page that is filled, 0x40 where it has no entry.
    pub fn free_at(&self) -> usize
        ensures value { result ≡ self.now.free }
        ensures small { result ≤ 4096 }
    {
        self.free
    }

    /// The number of the page that is filled: so many pages were sealed.
    pub fn filled_page(&self) -> u64
        ensures value { result ≡ self.now.sealed }
        ensures small { result + 1 < 2 ^ 64 }
    {
        self.sealed
    }

    /// How many pages were written, and the write answered Ok.
    pub fn written_pages(&self) -> u64
        ensures value { result ≡ self.now.done }
    {
        self.done
    }

    /// How many pages a sync made durable.
    pub fn durable_pages(&self) -> u64
        ensures value { result ≡ self.now.synced }
    {
        self.synced
    }

    /// One more than the LSN of the last entry that a sync made durable, 0 before there is one.
    pub fn durable(&self) -> u64
        ensures value { result ≡ self.now.durable }
    {
        self.durable
    }

    /// How many pages of the ring are neither filled nor sealed since the oldest place.
    pub fn room(&self) -> u64
        ensures value { result ≡ free_pages self.now }
    {
        self.size() - (self.sealed - self.oldest) - u64::from(self.filling())
    }

    // Whether an entry of so many bytes fits into the page that is filled.
    fn fits(&self, bytes: u64) -> bool
        requires { bytes ≤ 4032 }
        ensures value { result ≡ fits self.now bytes }
    {
        self.free as u64 + bytes <= 4096
    }

    // The page of an entry of so many bytes that is appended next.
    fn next_number(&self, bytes: u64) -> u64
        requires { bytes ≤ 4032 }
        ensures value { result ≡ next_number self.now bytes }
    {
        if self.fits(bytes) {
            self.sealed
        } else {
            self.sealed + 1
        }
    }

    // Its offset there.
    fn next_at(&self, bytes: u64) -> usize
        requires { bytes ≤ 4032 }
        ensures value { result ≡ next_at self.now bytes }
        ensures above { 0x40 ≤ result }
        ensures below { result + bytes ≤ 4096 }
    {
        if self.fits(bytes) { self.free } else { ENTRIES }
    }

    // The LSN of an offset of a page, modulo 2^64.
    pub(crate) fn lsn_at(&self, number: u64, at: u64) -> u64
        requires near { number ≤ self.now.sealed + 1 }
        requires inside { at ≤ 4096 }
        ensures value { result ≡ number_lsn self.now number at % 2 ^ 64 }
    {
        let lap = self.lap + number / self.size();
        let page = 4 + number % self.size();
        let bits = digits(4096 * self.pages).saturating_sub(3);
        lap.wrapping_mul(1u64 << bits)
            .wrapping_add(512 * page + at / 8)
    }

    /// The LSN of the place that an entry of so many bytes would get next, modulo 2^64.
    pub fn next(&self, bytes: u64) -> u64
        requires { bytes ≤ 4032 }
        ensures value { result ≡ next_lsn self.now bytes % 2 ^ 64 }
        ensures exact { lap_at self.now (next_number self.now bytes) < 2 ^ sequence_bits self.now.pages → result ≡ next_lsn self.now bytes }
    {
        let _ = &self.pages;
        self.lsn_at(self.next_number(bytes), self.next_at(bytes) as u64)
    }

    /// Whether the place that an entry of so many bytes would get next is of a lap whose LSNs have 64
    /// bits; what is appended has such a place.
    pub fn has_lap(&self, bytes: u64) -> bool
        requires { bytes ≤ 4032 }
        ensures value { (result ≡ true) ↔ (lap_at self.now (next_number self.now bytes) < 2 ^ sequence_bits self.now.pages) }
    {
        let number = self.next_number(bytes);
        self.lap + number / self.size() < 1u64 << sequence_bits(self.pages)
    }

    /// Appends an entry whose LSN is that of its place. It is put where it will stand on the disk:
    /// behind the entries of the page that is filled, or where it doesn't fit at the front of the
    /// next page, and the page before is sealed.
    ///
    /// [`NoRoom`]: it needs a page and the ring has none free; then nothing changes. The time is
    /// linear in the entry, and in the page where it begins one.
    pub fn append(&mut self, entry: &Entry) -> Result<(), NoRoom>
        requires fits { FitsEntry entry.now }
        requires place { entry.now.lsn ≡ next_lsn self.old (entry_size entry.now) }
        requires lap { lap_at self.old (next_number self.old (entry_size entry.now)) < 2 ^ sequence_bits self.old.pages }
        ensures ok { OnOk result (self.new ≡ appended entry.now self.old) }
        ensures room { IsErr result ↔ ((needs_page self.old (entry_size entry.now) ≡ true) × (free_pages self.old ≡ 0)) }
        ensures fault { IfErr result (λ fault. fault ≡ record { pages = 1; room = 0 }) }
        ensures err { OnErr result (self.new ≡ self.old) }
    {
        let bytes = entry.size();
        let number = self.next_number(bytes as u64);
        let at = self.next_at(bytes as u64);
        if number - self.oldest >= self.size() {
            return Err(NoRoom { pages: 1, room: 0 });
        }
        let slot = self.slot(number);
        self.ring[slot].put(entry, at);
        self.free = at + bytes;
        self.sealed = number;
        Ok(())
    }

    /// Seals the page that is filled, if it has an entry: no entry goes into it any more.
    pub fn seal(&mut self)
        ensures sealed { self.new ≡ sealed_area self.old }
    {
        if self.filling() {
            self.free = ENTRIES;
            self.sealed += 1;
        }
    }

    /// Begins a checkpoint: seals the page that is filled, if it has an entry, and answers the LSN
    /// of the place behind it, modulo 2^64.
    pub fn begin_checkpoint(&mut self) -> u64
        ensures sealed { self.new ≡ sealed_area self.old }
        ensures place { result ≡ number_lsn self.new self.new.sealed 0x40 % 2 ^ 64 }
        ensures exact { lap_at self.new self.new.sealed < 2 ^ sequence_bits self.new.pages → result ≡ number_lsn self.new self.new.sealed 0x40 }
    {
        self.seal();
        self.lsn_at(self.sealed, 0x40)
    }
}
