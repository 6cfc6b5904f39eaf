//! Laps and open counts of the sessions that mounts open, and the calls that they make.
ghost use Rattle.std.specs.Prelude.{◌≡◌, IsTrue};

use crate::logs::{FIRST, LAP, base, image_with, lay, page_of, restart};
use crate::mounting::{Outcome, Session, device_of, mount_and_close, mount_image};
use log_page::Restart;
use std::alloc::{AllocError, Global};
use std::test::Fail;
use store_images::{LOG, times_written};

/// The session of a mount, and how often each of its two restart pages was written; none where it
/// isn't mounted.
type Opened = Option<(Session, [u64; 2])>;

fn opened(outcome: Option<Outcome>) -> Opened {
    match outcome {
        Some(
            Outcome {
                result: Ok(session),
                device,
            },
        ) => {
            let times = [times_written(&device, LOG), times_written(&device, LOG + 8)];
            Some((session, times))
        }
        _ => None,
    }
}

fn opened_on(alloc: Global, image: Vec<u8>) -> Result<Opened, AllocError> {
    Ok(opened(mount_image(alloc, image, &[], 0)?))
}

/// A session of this lap behind this many restart pages, whose log shadowed nothing.
fn session(lap: u64, opens: u32) -> Session {
    Session {
        lap,
        opens,
        shadows: 0,
    }
}

/// An image of the harness's device whose log has one byte everywhere in its first page, and another
/// one in the others.
fn emptied(alloc: Global, first: u8, others: u8) -> Result<Vec<u8>, AllocError> {
    let mut image = base(alloc)?;
    lay(&mut image, LOG, &vec![in alloc; others; 65_536]?);
    lay(&mut image, LOG, &[first; 4096]);
    Ok(image)
}

/// Bytes of the first page and of the others, and the place at which the first restart page is
/// written.
static EMPTIED: [(u8, u8, [u64; 2]); 3] = [
    (0xFF, 0xFF, [1, 0]),
    (0xFF, 0, [0, 1]),
    (0, 0xFF, [1, 0]),
];

#[test]
fn an_emptied_log_begins_at_lap_one(rt: HostRuntime) -> Result<(), Fail> {
    for (first, others, times) in &EMPTIED {
        let found = opened_on(rt.alloc(), emptied(rt.alloc(), *first, *others)?)?;
        let wanted = Some((session(1, 1), *times));
        assert_eq!(rt; found, wanted, "{first} {others}");
    }
    Ok(())
}

/// The words that make the page's client one with the name `NTFS`: how many bytes its name has.
const FOREIGN: [(usize, u16); 1] = [(0x8C, 8)];

/// A restart page of a log that was closed, behind so many of them.
fn closed_page(opens: u32) -> Restart
    ensures major { result.major ≡ 1 }
    ensures minor { result.minor ≡ 1 }
    ensures own { IsTrue result.own }
{
    let mut page = restart();
    page.clean = true;
    page.opens = opens;
    page
}

/// Whether the client of a closed log is another host, how many restart pages it had, the lap that a
/// page of its ring says, if any; and the lap and the open count of the session then.
static CLOSED: [(bool, u32, Option<u64>, u64, u32); 6] = [
    (false, 3, None, 2, 5),
    (false, 3, Some(7), 8, 5),
    (true, 3, None, 2, 5),
    (true, 3, Some(7), 8, 5),
    (false, (1 << 31) - 1, None, 2, (1 << 31) + 1),
    (false, 1 << 31, None, 2, 1),
];

#[test]
fn a_closed_log_is_passed(rt: HostRuntime) -> Result<(), Fail> {
    for (number, row) in CLOSED.iter().enumerate() {
        let (foreign, opens, said, lap, next) = *row;
        let words: &[(usize, u16)] = if foreign { &FOREIGN } else { &[] };
        let mut image = image_with(rt.alloc(), &closed_page(opens), words)?;
        if let Some(said) = said {
            let first = FIRST + (said - 1) * LAP;
            lay(&mut image, LOG + 40, &page_of(&rt, first, &[])?);
        }
        let found = opened_on(rt.alloc(), image)?;
        assert_eq!(rt; found, Some((session(lap, next), [0, 1])), "row {number}");
    }
    Ok(())
}

/// The reads, writes and syncs of a mount of a closed log; none where it isn't mounted.
fn calls(alloc: Global, image: Vec<u8>) -> Result<Option<(u64, u64, u64)>, AllocError> {
    let Some(
        Outcome {
            result: Ok(_),
            device,
        },
    ) = mount_image(alloc, image, &[], 0)?
    else {
        return Ok(None);
    };
    let (writes, syncs) = (device.writes, device.syncs);
    let reads = device.calls.saturating_sub(writes).saturating_sub(syncs);
    Ok(Some((reads, writes, syncs)))
}

/// The first sector of the log of 64 KiB is read alone and the others in two pieces, and the place of
/// the restart page before it is written.
#[test]
fn a_mount_of_a_closed_log_makes_so_many_calls(rt: HostRuntime) -> Result<(), Fail> {
    let image = image_with(rt.alloc(), &closed_page(3), &[])?;
    assert_eq!(rt; calls(rt.alloc(), image)?, Some((4, 1, 2)));
    Ok(())
}

/// The laps of so many sessions, each of which is opened on what the one before left and closed;
/// fewer where one isn't.
fn laps(alloc: Global, count: usize) -> Result<Vec<(u64, u32)>, AllocError> {
    let mut laps = Vec::new(alloc);
    let Some(mut device) = device_of(alloc, emptied(alloc, 0xFF, 0xFF)?, &[], 0)? else {
        return Ok(laps);
    };
    for _ in 0..count {
        let Some(ended) = mount_and_close(alloc, device)? else {
            return Ok(laps);
        };
        if ended.result.is_err() {
            return Ok(laps);
        }
        laps.push((ended.session.lap, ended.session.opens))?;
        device = ended.device;
    }
    Ok(laps)
}

#[test]
fn each_session_has_a_lap_of_its_own(rt: HostRuntime) -> Result<(), Fail> {
    let found = laps(rt.alloc(), 4)?;
    let wanted = [(1, 1), (2, 3), (3, 5), (4, 7)];
    assert_eq!(rt; found.as_slice(), wanted.as_slice());
    Ok(())
}
