//! Record pages as they are written: entries put over bytes that are there, what stands before
//! them, and what is read of the page.
ghost use Rattle.std.specs.Prelude.{◌≡◌, ◌<◌, ◌≤◌, IfOk, length};
ghost use Rattle.log_model.specs.Entries.{most_bytes, FitsEntry};

use fixup_record::{has_shape, protect};
use host_base::Bytes;
use log_images::FIRST;
use log_page::{Entry, PageFault, page_read_again, pick_check, read_page, said_lsn, seal_page};
use log_record::{Act, put, write};
use std::alloc::{AllocError, Global};
use std::test::Fail;

// The LSNs that a lap has in a log of 513 pages, and those that an update of a sector takes.
const LAP: u64 = 1 << 19;

const STEP: u64 = 139;

// An update of so many bytes of a sector.
fn update(alloc: Global, lsn: u64, size: usize) -> Result<Entry, AllocError>
    requires some { 1 ≤ size }
    requires few { size ≤ most_bytes }
    ensures { IfOk result FitsEntry }
{
    Ok(Entry {
        lsn,
        previous: 0,
        tx: 7,
        act: Act::Update {
            first: 100,
            kind: 0,
            at: 0,
            redo: Bytes::from(vec![in alloc; 0x22u8; size]?),
            undo: Bytes::from(vec![in alloc; 0x11u8; size]?),
        },
    })
}

// Three updates of a sector, as they follow each other on the first page.
fn three(alloc: Global) -> Result<[Entry; 3], AllocError> {
    Ok([
        update(alloc, FIRST, 512)?,
        update(alloc, FIRST + STEP, 512)?,
        update(alloc, FIRST + 2 * STEP, 512)?,
    ])
}

// Puts the entry there, where it has room.
fn put_in(entry: &Entry, page: &mut [u8], at: usize)
    requires { FitsEntry entry.now }
{
    if at <= page.len() && entry.size() <= page.len() - at {
        put(entry, page, at);
    }
}

// Puts an update of a sector there.
fn put_update(alloc: Global, page: &mut [u8], lsn: u64, at: usize) -> Result<(), AllocError> {
    put_in(&update(alloc, lsn, 512)?, page, at);
    Ok(())
}

// Makes it the page of these updates, by this check word.
fn fill_page(alloc: Global, page: &mut [u8], check: u16) -> Result<(), AllocError>
    requires { length page.old ≡ 4096 }
{
    page.fill(0);
    put_update(alloc, page, FIRST, 0x40)?;
    put_update(alloc, page, FIRST + STEP, 0x498)?;
    put_update(alloc, page, FIRST + 2 * STEP, 0x8f0)?;
    seal_page(page, FIRST + 2 * STEP, 0xd48);
    if has_shape(page) {
        protect(page, check);
    }
    Ok(())
}

#[test]
fn a_sealed_page_is_read_again(rt: HostRuntime) -> Result<(), Fail> {
    page_read_again();
    let alloc = rt.alloc();
    for check in [1, 0xfffe] {
        let mut page = [0xff; 4096];
        fill_page(alloc, &mut page, check)?;
        let read = read_page(alloc, &page, 513, FIRST)?;
        assert!(rt; read.as_slice() == three(alloc)?.as_slice(), "{check}");
        let later = read_page(alloc, &page, 513, FIRST + LAP).err();
        let says = (later, said_lsn(&page));
        let wanted = (Some(PageFault::NotWhole), Some(FIRST + 2 * STEP));
        assert_eq!(rt; says, wanted, "{check}");
    }
    Ok(())
}

// The sector of the old page over that of the new one.
fn keep_sector(old: &[u8], new: &mut [u8], sector: usize)
    requires old { length old.now ≡ 4096 }
    requires new { length new.old ≡ 4096 }
    requires few { sector < 8 }
{
    let (from, to) = (512 * sector, 512 * sector + 512);
    new[from..to].copy_from_slice(&old[from..to]);
}

// Whether no page is whole that has a sector of this old one.
fn old_sectors_show(alloc: Global, old: &[u8]) -> Result<bool, AllocError>
    requires { length old.now ≡ 4096 }
{
    let mut shows = true;
    for sector in 0..8 {
        let mut page = [0; 4096];
        fill_page(alloc, &mut page, pick_check(old))?;
        keep_sector(old, &mut page, sector);
        let fault = read_page(alloc, &page, 513, FIRST).err();
        shows = shows && fault == Some(PageFault::NotWhole);
    }
    Ok(shows)
}

// Over a page that was never written, and over one with the same entries.
#[test]
fn a_page_with_an_old_sector_is_not_whole(rt: HostRuntime) -> Result<(), Fail> {
    let alloc = rt.alloc();
    let mut same = [0; 4096];
    fill_page(alloc, &mut same, 1)?;
    assert!(rt; old_sectors_show(alloc, &same)?);
    assert!(rt; old_sectors_show(alloc, &[0xff; 4096])?);
    Ok(())
}

fn commit() -> Entry
    ensures { FitsEntry result }
{
    Entry {
        lsn: FIRST,
        previous: FIRST - 11,
        tx: 7,
        act: Act::Commit,
    }
}

// A commit, where the size is 0, else an update of so many bytes.
fn entry(alloc: Global, size: usize) -> Result<Entry, AllocError>
    requires { size ≤ most_bytes }
    ensures { IfOk result FitsEntry }
{
    if size == 0 {
        return Ok(commit());
    }
    update(alloc, FIRST, size)
}

// Of each size one entry, and where it is put.
#[test]
fn an_entry_is_put_as_it_is_appended(rt: HostRuntime) -> Result<(), Fail> {
    let alloc = rt.alloc();
    for (size, at) in [(0, 0x40), (1, 0), (8, 3), (511, 0x800), (1900, 0x98)] {
        let mut wanted = vec![in alloc; 0xeeu8; at]?;
        let one = entry(alloc, size.min(1900))?;
        write(&one, &mut wanted)?;
        wanted.resize(4096, 0xee)?;
        let mut page = [0xee; 4096];
        put_in(&one, &mut page, at);
        assert!(rt; page.as_slice() == wanted.as_slice(), "{size} at {at}");
    }
    Ok(())
}
