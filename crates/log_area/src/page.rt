//! A page of the ring in memory.
ghost use Rattle.std.specs.Prelude.{◌≡◌, ◌+◌, ◌^◌, ◌<◌, ◌≤◌, length, IfOk};
ghost use Rattle.log_reading.specs.fixup_record.Protecting.{protected_bytes};
ghost use Rattle.log_reading.specs.log_model.Entries.{entry_size, FitsEntry};
ghost use Rattle.log_area.specs.Areas.{no_page, page_with, made_page};

use crate::room::{clear, zeroed};
use log_reading::{Entry, protect, put, seal_page};
use std::alloc::{AllocError, Global};
use std::marker::Model;

/// The bytes of a page of the log.
pub const PAGE: usize = 4096;

/// Where the entries of a record page begin.
pub const ENTRIES: usize = 0x40;

/// A page of the ring in memory: room of 4,096 bytes in which entries stand from 0x40 on, the LSN
/// of the last one, and the offset of the first free byte.
#[derive(Debug, Drop)]
pub struct RingPage {
    bytes: Vec<u8>,
    last: u64,
    free: u16,
}

impl Model for RingPage {
    ghost use Rattle.std.specs.Prelude.{◌+◌, ◌^◌, ◌<◌};
    ghost use Rattle.log_area.specs.Areas.{RingPageOf, IsRingPage};

    ghost Value = { RingPageOf };

    ghost view = { λ p. record { bytes = p.bytes.items; last = p.last; free = p.free } };

    ghost invariant = { λ p. IsRingPage (record { bytes = p.bytes.items; last = p.last; free = p.free }) };
}

impl RingPage {
    /// A page without entries. The error is want of memory.
    pub fn new(alloc: Global) -> Result<RingPage, AllocError>
        ensures { IfOk result (λ page. page ≡ no_page) }
    {
        Ok(RingPage {
            bytes: zeroed(alloc, PAGE)?,
            last: 0,
            free: 0x40,
        })
    }

    /// Puts an entry at an offset of the page, behind those that stand before it; at 0x40 it is the
    /// first one of a new page. Linear in the entry, and there in the page.
    pub fn put(&mut self, entry: &Entry, at: usize)
        requires fits { FitsEntry entry.now }
        requires place { 0x40 ≤ at }
        requires inside { at + entry_size entry.now ≤ 4096 }
        requires small { entry.now.lsn + 1 < 2 ^ 64 }
        ensures { self.new ≡ page_with entry.now at self.old }
    {
        if at == ENTRIES {
            clear(&mut self.bytes);
        }
        put(entry, &mut self.bytes, at);
        self.last = entry.lsn;
        self.free = (at + entry.size()) as u16;
    }

    /// One more than the LSN of the last entry.
    pub fn end(&self) -> u64
        ensures { result ≡ self.now.last + 1 }
    {
        self.last + 1
    }

    /// Writes the page as it stands on the disk, protected by this check word. Linear in the page.
    pub fn write(&self, check: u16, out: &mut [u8])
        requires { length out.old ≡ 4096 }
        ensures value { out.new ≡ protected_bytes (made_page self.now) check }
        ensures size { length out.new ≡ 4096 }
    {
        out.copy_from_slice(&self.bytes);
        seal_page(out, self.last, self.free);
        protect(out, check);
    }
}
