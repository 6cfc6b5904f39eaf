//! The greatest LSN of a log.
ghost use Rattle.std.specs.Prelude.{IfOk};
ghost use Rattle.log_reading.specs.LogPages.{IsSmall, IsLogPlace};

use block_view::{Block, BlockKind, Body, Held, MemoryView};
use disk_model::{put_bytes, put_u64};
use host_base::Bytes;
use log_page::{Extent, LogRuns, Restart};
use log_reading::{LogPlace, RecoveryFault, greatest_lsn};
use std::alloc::{AllocError, Global};
use std::process::Abort;
use std::test::Fail;

// The sectors of the device; what begins there is past its end.
const DEVICE: u32 = 1000;

// A log of two runs, by the first sectors and the sizes of these, and how many of its bytes are
// initialised.
#[derive(Clone, Copy)]
struct Log {
    front: (u32, u64),
    rest: (u32, u64),
    pages: u32,
    initialised: u64,
}

// So many sectors from this one on, where they are fewer than 2^40.
fn run(place: (u32, u64)) -> Extent
    ensures { IsSmall result }
{
    let (first, sectors) = place;
    Extent {
        first: u64::from(first),
        sectors: sectors % (1 << 40),
    }
}

fn place(alloc: Global, log: Log) -> Result<LogPlace, AllocError>
    ensures { IfOk result IsLogPlace }
{
    let runs = Vec::from_slice(alloc, &[run(log.front), run(log.rest)])?;
    Ok(LogPlace {
        runs: LogRuns::from(runs),
        initialised: log.initialised,
        pages: u64::from(log.pages),
        clusters: 1000,
        device: u64::from(DEVICE),
    })
}

/// A sector that begins as a record page does, and says this LSN.
fn saying(alloc: Global, first: u64, lsn: u64) -> Result<Held, AllocError> {
    let mut bytes = vec![in alloc; 0u8; 512]?;
    put_bytes(&mut bytes, 0, b"RCRD");
    put_u64(&mut bytes, 8, lsn);
    let kind = BlockKind::Plain;
    Ok(Held {
        block: Block { first, kind },
        bytes: Bytes::from(bytes),
        torn: false,
    })
}

/// A disk where these sectors say these LSNs; the calls with these numbers fail.
fn disk(alloc: Global, sectors: &[(u64, u64)], failing: &[u64]) -> Result<MemoryView, AllocError> {
    let mut held = Vec::new(alloc);
    for (first, lsn) in sectors {
        held.push(saying(alloc, *first, *lsn)?)?;
    }
    Ok(MemoryView::new(held, Vec::from_slice(alloc, failing)?))
}

/// A restart page with this current LSN.
fn restart(current: u64) -> Restart {
    Restart {
        major: 1,
        minor: 1,
        current,
        oldest: 0,
        opens: 0,
        bytes: 0,
        used: false,
        clean: true,
        own: true,
    }
}

// The sectors that say LSNs, the current LSN of the restart page that was chosen, and the greatest
// LSN.
type Row<'a> = (&'a [(u64, u64)], Option<u64>, Option<u64>);

// Asserts that the greatest LSN of this log is as each row says.
fn says<R: Abort + AllocGlobal>(rt: &R, log: Log, rows: &[Row]) -> Result<(), Fail> {
    let alloc = rt.alloc();
    let place = place(alloc, log)?;
    let mut body = Body::empty(alloc)?;
    for (sectors, current, wanted) in rows {
        let mut view = disk(alloc, sectors, &[])?;
        let chosen = current.map(restart);
        let found = greatest_lsn(&mut view, &place, chosen, &mut body)?;
        assert_eq!(rt; found, *wanted, "{sectors:?} {current:?}");
    }
    Ok(())
}

// Pages 4 and 5 begin in the first run, page 6 in the second one's fifth sector, then 7 and 8.
#[test]
fn the_greatest_of_all_pages(rt: HostRuntime) -> Result<(), Fail> {
    let log = Log {
        front: (100, 44),
        rest: (300, 28),
        pages: 9,
        initialised: 4096 * 9,
    };
    let all: &[(u64, u64)] = &[
        (132, 50),
        (140, 80),
        (300, 99),
        (304, 70),
        (312, 60),
        (320, 40),
        (328, 98),
    ];
    let rows = [
        (all, None, Some(80)),
        (all, Some(79), Some(80)),
        (all, Some(81), Some(81)),
        (&[(304, 70)], None, Some(70)),
        (&[(320, 40)], None, Some(40)),
        (&[(100, 40)], None, None),
        (&[(100, 40)], Some(7), Some(7)),
    ];
    says(&rt, log, &rows)
}

#[test]
fn only_initialised_bytes_are_read(rt: HostRuntime) -> Result<(), Fail> {
    for (initialised, lsn) in [
        (4096 * 9, 0x200),
        (4096 * 6 + 16, 0x130),
        (4096 * 6 + 9, 0x30),
        (4096 * 6 + 3, 0x20),
    ] {
        let log = Log {
            front: (100, 0),
            rest: (300, 72),
            pages: 9,
            initialised,
        };
        let sectors = [(340, 0x20), (348, 0x130), (356, 0x200)];
        says(&rt, log, &[(&sectors, None, Some(lsn))])?;
    }
    Ok(())
}

// Of the first run pages 4 and 5 begin on the device, and then those of the second one.
#[test]
fn pages_past_the_device_say_nothing(rt: HostRuntime) -> Result<(), Fail> {
    let log = Log {
        front: (952, 72),
        rest: (400, 8),
        pages: 10,
        initialised: 4096 * 10,
    };
    let sectors = [(984, 20), (992, 30), (1000, 99), (1008, 99)];
    let rows = [
        (sectors.as_slice(), None, Some(30)),
        (&[(400, 10)], None, Some(10)),
    ];
    says(&rt, log, &rows)
}

#[test]
fn sparse_pages_take_no_step(rt: HostRuntime) -> Result<(), Fail> {
    let sparse = (DEVICE, 8 << 31);
    for (front, rest, pages, sector, wanted) in [
        (sparse, (400, 8), (1 << 31) + 1, 400, Some(10)),
        (sparse, (400, 8), (1 << 31) + 1, 1032, None),
        ((400, 40), sparse, 1 << 31, 432, Some(10)),
    ] {
        let log = Log {
            front,
            rest,
            pages,
            initialised: 4096 * u64::from(pages),
        };
        says(&rt, log, &[(&[(sector, 10)], None, wanted)])?;
    }
    Ok(())
}

// One of the first five calls fails, or the sixth one, which isn't made.
#[test]
fn a_view_that_fails_is_told(rt: HostRuntime) -> Result<(), Fail> {
    let alloc = rt.alloc();
    let log = Log {
        front: (100, 40),
        rest: (300, 32),
        pages: 9,
        initialised: 4096 * 9,
    };
    let place = place(alloc, log)?;
    let mut body = Body::empty(alloc)?;
    for failing in 1..7 {
        let mut view = disk(alloc, &[(132, 20)], &[failing])?;
        let result = greatest_lsn(&mut view, &place, None, &mut body);
        let wanted = if failing < 6 {
            Err(RecoveryFault::Fault)
        } else {
            Ok(Some(20))
        };
        assert_eq!(rt; result, wanted, "at {failing}");
    }
    Ok(())
}
