//! What is read of a log on a view: what its restart pages say, its pages, and its live log.
ghost use Rattle.std.specs.Prelude.{◌≡◌, ◌≤◌, IfOk, length};
ghost use Rattle.log_model.specs.Entries.{FitsEntry};
ghost use Rattle.log_reading.specs.LogPages.{IsLogPlace};

use crate::filling::fill;
use block_view::{Block, BlockKind, Body, Held, MemoryView};
use disk_model::put_u16;
use fixup_record::{has_shape, protect};
use host_base::Bytes;
use log_model::{Act, Entry};
use log_page::{Extent, Restart};
use log_reading::{
    LogPlace, LogRefusal, RecoveryFault, RestartFront, front_of, live_log, read_page,
};
use log_record::write;
use std::alloc::{AllocError, Global};
use std::test::Fail;

// The first entries of the pages 4 and 5 in lap 1 of a log of 8 pages, and of page 4 in lap 2.
const FIRST: u64 = 10_248;

const SECOND: u64 = 10_760;

const NEXT_LAP: u64 = 18_440;

// The bytes of that log, and the sectors of the device.
const BYTES: u64 = 512 * 64;

const DEVICE: u64 = 4096;

// Makes it a restart page.
fn fill_restart(page: &mut [u8], current: u64, opens: u32)
    requires { length page.old ≡ 4096 }
{
    let restart = Restart {
        major: 1,
        minor: 1,
        current,
        oldest: current,
        opens,
        bytes: 32_768,
        used: true,
        clean: false,
        own: true,
    };
    restart.write(page);
    if has_shape(page) {
        protect(page, 4);
    }
}

#[test]
fn the_newer_restart_page_says_the_place(rt: HostRuntime) {
    let cases = [
        ((5, 1), (6, 0), (0, 1)),
        ((6, 0), (5, 1), (1, 1)),
        ((5, 1), (5, 2), (0, 3)),
        ((5, 1), (5, 1), (1, 2)),
        ((5, 0x8000_0000), (5, 1), (1, 0)),
    ];
    for (one, other, wanted) in cases {
        let (mut first, mut second) = ([0; 4096], [0; 4096]);
        fill_restart(&mut first, one.0, one.1);
        fill_restart(&mut second, other.0, other.1);
        let front = front_of(&first, &second).map(|front| (front.restart, front.opens));
        assert_eq!(rt; front, Ok(wanted), "{one:?} and {other:?}");
    }
}

// What an emptied log says, whose next restart page is this one.
fn none(restart: u32) -> Result<RestartFront, LogRefusal> {
    Ok(RestartFront {
        chosen: None,
        restart,
        opens: 0,
    })
}

#[test]
fn an_emptied_log_has_no_restart_page(rt: HostRuntime) {
    let mut torn = [0; 4096];
    fill_restart(&mut torn, 5, 1);
    torn[510] = 9;
    let (blank, zeros) = ([0xff; 4096], [0; 4096]);
    for (first, second, wanted) in [
        (&blank, &torn, none(1)),
        (&torn, &blank, none(0)),
        (&blank, &blank, none(0)),
        (&zeros, &zeros, Err(LogRefusal::NoRestart)),
        (&torn, &zeros, Err(LogRefusal::NoRestart)),
    ] {
        let bytes = (first[0], second[0]);
        assert_eq!(rt; front_of(first, second), wanted, "{bytes:?}");
    }
}

#[test]
fn a_log_of_version_2_is_refused(rt: HostRuntime) {
    let (mut first, second) = ([0; 4096], [0; 4096]);
    fill_restart(&mut first, 5, 1);
    put_u16(&mut first, 0x1c, 2);
    put_u16(&mut first, 0x1a, 0);
    let (major, minor) = (2, 0);
    assert_eq!(rt;
        front_of(&first, &second),
        Err(LogRefusal::LogVersion { major, minor })
    );
}

// A log of 8 pages, whose sixth lies in two runs, with so many initialised bytes on a device of so
// many sectors.
fn place(alloc: Global, initialised: u64, device: u64) -> Result<LogPlace, AllocError>
    ensures { IfOk result IsLogPlace }
{
    let run = |first, sectors| Extent { first, sectors };
    let runs = Vec::from_slice(alloc, &[run(1000, 32), run(2000, 12), run(3000, 20)])?;
    Ok(LogPlace {
        runs: runs.into(),
        initialised,
        pages: 8,
        clusters: 4096,
        device,
    })
}

fn commit(lsn: u64) -> Entry
    ensures { FitsEntry result }
{
    Entry {
        lsn,
        previous: 0,
        tx: 1,
        act: Act::Commit,
    }
}

// Two ends of transactions, from this LSN on.
fn commits(alloc: Global, lsn: u64) -> Result<Vec<u8>, Fail> {
    let mut out = Vec::new(alloc);
    write(&commit(lsn), &mut out)?;
    write(&commit(lsn.saturating_add(11)), &mut out)?;
    Ok(out)
}

// Holds the sectors of a page from one of them on and before another one, from this sector of the
// disk on.
fn hold(
    alloc: Global,
    held: &mut Vec<Held>,
    page: &[u8],
    sectors: (u8, u8),
    first: u64,
) -> Result<(), AllocError> {
    let kind = BlockKind::Plain;
    for sector in sectors.0..sectors.1 {
        let at = 512 * usize::from(sector);
        let first = first.saturating_add(u64::from(sector - sectors.0));
        if let Some(bytes) = page.get(at..at + 512) {
            held.push(Held {
                block: Block { first, kind },
                bytes: Bytes::copy_of(alloc, bytes)?,
                torn: false,
            })?;
        }
    }
    Ok(())
}

// A disk with the pages 4 and 5 of the log, with two entries each.
fn disk(alloc: Global, failing: &[u64]) -> Result<MemoryView, Fail> {
    let mut held = Vec::new(alloc);
    for (lsn, sectors, first) in [
        (FIRST, (0, 8), 2000),
        (SECOND, (0, 4), 2008),
        (SECOND, (4, 8), 3000),
    ] {
        let mut page = [0; 4096];
        fill(&mut page, &commits(alloc, lsn)?, lsn);
        hold(alloc, &mut held, &page, sectors, first)?;
    }
    Ok(MemoryView::new(held, Vec::from_slice(alloc, failing)?))
}

// Page 5 of the log with so many initialised bytes on a device of so many sectors.
fn page_5(
    alloc: Global,
    view: &mut MemoryView,
    initialised: u64,
    device: u64,
) -> Result<Vec<u8>, RecoveryFault> {
    let place = place(alloc, initialised, device)?;
    let mut body = Body::empty(alloc)?;
    let mut page = Vec::new(alloc);
    read_page(view, &place, 5, &mut body, &mut page)?;
    Ok(page)
}

// Whether a page has these bytes at these offsets.
fn has_bytes(page: &[u8], bytes: &[(usize, u8)]) -> bool {
    for (at, byte) in bytes {
        if page.get(*at).copied() != Some(*byte) {
            return false;
        }
    }
    true
}

// The first call of the view fails. Then the page is read by so many initialised bytes on a device
// of so many sectors.
#[test]
fn a_page_is_read_from_its_sectors(rt: HostRuntime) -> Result<(), Fail> {
    let alloc = rt.alloc();
    let mut view = disk(alloc, &[1])?;
    let fault = page_5(alloc, &mut view, BYTES, DEVICE).err();
    assert_eq!(rt; fault, Some(RecoveryFault::Fault));
    let all: &[(usize, u8)] = &[(0, b'R'), (510, 4), (2046, 4), (4094, 4)];
    for (initialised, device, bytes) in [
        (BYTES, DEVICE, all),
        (
            512 * 44,
            DEVICE,
            &[(510, 4), (2046, 4), (2558, 0), (4094, 0)],
        ),
        (512 * 44 + 511, DEVICE, &[(2558, 4), (2559, 0), (3070, 0)]),
        (512 * 44 + 510, DEVICE, &[(510, 4), (2558, 0)]),
        (512 * 44 + 510, 2009, &[(510, 4), (1022, 0), (4094, 0)]),
    ] {
        let page = page_5(alloc, &mut view, initialised, device)?;
        assert!(rt; has_bytes(&page, bytes), "{initialised} {device}");
    }
    Ok(())
}

// The live log from this LSN on: how many entries it has, the last one's LSN, and the LSN of one
// that is foreign.
fn live(
    alloc: Global,
    view: &mut MemoryView,
    initialised: u64,
    oldest: u64,
) -> Result<(usize, Option<u64>, Option<u64>), RecoveryFault> {
    let place = place(alloc, initialised, DEVICE)?;
    let live = live_log(alloc, view, &place, oldest)?;
    let last = live.entries.last().map(|entry| entry.lsn);
    Ok((live.entries.len(), last, live.foreign))
}

#[test]
fn a_live_log_of_two_pages_is_read(rt: HostRuntime) -> Result<(), Fail> {
    let alloc = rt.alloc();
    let mut view = disk(alloc, &[])?;
    let last = Some(SECOND + 11);
    for (oldest, wanted) in [
        (FIRST, (4, last, None)),
        (FIRST + 11, (3, last, None)),
        (SECOND, (2, last, None)),
        (NEXT_LAP, (0, None, None)),
        (8, (0, None, None)),
        (FIRST + 10, (0, None, Some(FIRST + 10))),
    ] {
        let found = live(alloc, &mut view, BYTES, oldest)?;
        assert_eq!(rt; found, wanted, "from {oldest}");
    }
    Ok(())
}

// The ninth call of the view fails. Then a sector is torn by what isn't initialised: the check word
// is below 256, so that the last byte of a page is zero whether initialised or not.
#[test]
fn a_torn_page_ends_the_live_log(rt: HostRuntime) -> Result<(), Fail> {
    let alloc = rt.alloc();
    let mut view = disk(alloc, &[9])?;
    let fault = live(alloc, &mut view, BYTES, FIRST).err();
    assert_eq!(rt; fault, Some(RecoveryFault::Fault));
    for (initialised, wanted) in [(512 * 48 - 1, 4), (512 * 48 - 2, 2), (512 * 40 - 2, 0)] {
        let found = live(alloc, &mut view, initialised, FIRST)?;
        assert_eq!(rt; found.0, wanted, "{initialised} bytes");
    }
    Ok(())
}
