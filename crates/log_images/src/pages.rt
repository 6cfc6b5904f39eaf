//! Pages of a log of 513 pages, as they stand on a disk.
ghost use Rattle.std.specs.Prelude.{◌≡◌, ◌%◌, ◌≤◌, IfOk, IsTrue, length};
ghost use Rattle.log_model.specs.Entries.{most_bytes, FitsAct};
ghost use Rattle.log_page.specs.Restarts.{FitsRestart};

use disk_model::{put_bytes, put_u16, put_u64};
use fixup_record::{has_shape, protect, to_body};
use host_base::{Bytes, Memory};
use log_page::{Entry, Restart};
use log_record::{Act, write};
use std::alloc::{AllocError, Global};

/// The LSN of the first entry of page 4 in lap 1 of a log of 513 pages.
pub const FIRST: u64 = 526_344;

// The bytes of a page, and where the entries of a record page begin.
const PAGE: usize = 4096;

const ENTRIES: usize = 0x40;

// The words at the front of each record page.
const RECORD_WORDS: [(usize, u16); 5] = [(0x04, 0x28), (0x06, 9), (0x10, 1), (0x14, 1), (0x16, 1)];

/// The restart page of an own log of 513 pages that is in use, from its first entry on.
pub fn own() -> Restart
    ensures major { result.major ≡ 1 }
    ensures minor { result.minor ≡ 1 }
    ensures own { IsTrue result.own }
{
    Restart {
        major: 1,
        minor: 1,
        current: FIRST,
        oldest: FIRST,
        opens: 3,
        bytes: 2_101_248,
        used: true,
        clean: false,
        own: true,
    }
}

// Protects a page whose array is in shape by the check word 1.
fn protect_page(page: &mut [u8])
    requires { length page.old ≡ 4096 }
    ensures { length page.new ≡ 4096 }
{
    if has_shape(page) {
        protect(page, 1);
    }
}

// Puts words at these offsets; one that would end after the page is left out.
fn put_words(page: &mut [u8], words: &[(usize, u16)])
    ensures { length page.new ≡ length page.old }
{
    for (at, word) in words {
        if at.saturating_add(2) <= page.len() {
            put_u16(page, *at, *word);
        }
    }
}

/// A restart page (Linux-NTFS documentation, "$LogFile") with these fields, and then with other
/// words at some offsets. The error is want of memory.
pub fn restart_page(
    alloc: Global,
    restart: &Restart,
    words: &[(usize, u16)],
) -> Result<Vec<u8>, AllocError>
    requires { FitsRestart restart.now }
    ensures { IfOk result (λ page. length page.items ≡ 4096) }
{
    let mut page = vec![in alloc; 0u8; PAGE]?;
    restart.write(&mut page);
    put_words(&mut page, words);
    protect_page(&mut page);
    Ok(page)
}

/// The body of a file record that stands as these bytes on a disk, and the body with another byte
/// at this offset. A record that is torn has no body: then the bytes stay. The error is want of
/// memory.
pub fn changed_body(
    alloc: Global,
    raw: &[u8],
    at: usize,
    byte: u8,
) -> Result<(Vec<u8>, Vec<u8>), AllocError>
    requires { length raw.now ≡ 1024 }
    ensures old { IfOk result (λ bodies. length bodies.0.items ≡ 1024) }
    ensures new { IfOk result (λ bodies. length bodies.1.items ≡ 1024) }
{
    let mut old = raw.to_vec(alloc)?;
    let _check = to_body(&mut old);
    let mut new = old.clone()?;
    if let Some(cell) = new.get_mut(at) {
        *cell = byte;
    }
    Ok((old, new))
}

/// An update of the file record in this sector, which is even: `redo` for `undo` from the byte `at`
/// on. The error is want of memory.
pub fn record_update(
    alloc: Global,
    first: u64,
    at: u16,
    redo: &[u8],
    undo: &[u8],
) -> Result<Act, AllocError>
    requires even { first % 2 ≡ 0 }
    requires some { 1 ≤ length redo.now }
    requires few { length redo.now ≤ most_bytes }
    requires same { length undo.now ≡ length redo.now }
    ensures { IfOk result FitsAct }
{
    Ok(Act::Update {
        first,
        kind: 1,
        at,
        redo: Bytes::copy_of(alloc, redo)?,
        undo: Bytes::copy_of(alloc, undo)?,
    })
}

/// A record page of the ring, as entries are appended to it.
#[derive(Drop)]
pub struct EntryPage {
    first: u64,
    last: u64,
    entries: Vec<u8>,
}

impl EntryPage {
    /// The page without entries whose first entry will have this LSN.
    pub fn new(alloc: Global, first: u64) -> EntryPage {
        EntryPage {
            first,
            last: first,
            entries: Vec::new(alloc),
        }
    }

    /// Appends an entry of this transaction, and answers its LSN. The error is want of memory.
    pub fn append(&mut self, tx: u32, act: Act) -> Result<u64, Memory>
        requires some { 1 ≤ tx }
        requires act { FitsAct act }
    {
        let lsn = self.first.saturating_add(self.entries.len() as u64 / 8);
        let previous = 0;
        let entry = Entry {
            lsn,
            previous,
            tx,
            act,
        };
        write(&entry, &mut self.entries)?;
        self.last = lsn;
        Ok(lsn)
    }

    /// The bytes of the page; a page of zeros where its entries have no room in it. The error is
    /// want of memory.
    pub fn bytes(&self, alloc: Global) -> Result<Vec<u8>, AllocError>
        ensures { IfOk result (λ page. length page.items ≡ 4096) }
    {
        let mut page = vec![in alloc; 0u8; PAGE]?;
        let size = self.entries.len();
        if size > PAGE - ENTRIES {
            return Ok(page);
        }
        put_bytes(&mut page, 0x00, b"RCRD");
        put_words(&mut page, &RECORD_WORDS);
        put_u64(&mut page, 0x08, self.last);
        put_u16(&mut page, 0x18, (ENTRIES + size) as u16);
        put_u64(&mut page, 0x20, self.last);
        put_bytes(&mut page, ENTRIES, &self.entries);
        protect_page(&mut page);
        Ok(page)
    }
}
