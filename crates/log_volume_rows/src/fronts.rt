//! What the first two pages of a log say, and the laps of its ring.
ghost use Rattle.std.specs.Prelude.{◌≡◌, IsTrue};

use crate::steps::Change::Fill;
use crate::steps::page_of;
use crate::volume::*;
use log_images::{FIRST, own, restart_page};
use log_page::{Restart, page_lsn};
use log_recovery::{LogRefusal, RecoveryFault};
use sector_device::MemoryDevice;
use std::process::Abort;
use std::test::Fail;

// Pages that are a restart page of version 2.0, zeros, torn or FF; what refuses the log, or the
// place of the next restart page.
#[test]
fn the_first_two_pages_decide(rt: HostRuntime) -> Result<(), Fail> {
    let alloc = rt.alloc();
    let mut device = volume(&rt, &[])?;
    let later = restart_page(alloc, &own(), &[(0x1a, 0), (0x1c, 2)])?;
    let zeros = vec![in alloc; 0u8; 4096]?;
    let blank = vec![in alloc; 0xffu8; 4096]?;
    let mut torn = restart_page(alloc, &own(), &[])?;
    if let Some(cell) = torn.get_mut(510) {
        *cell = 9;
    }
    let version = RecoveryFault::Refused(LogRefusal::LogVersion { major: 2, minor: 0 });
    for (first, second, want) in [
        (&later, &zeros, Err(version)),
        (&zeros, &later, Err(version)),
        (&later, &blank, Err(version)),
        (
            &zeros,
            &zeros,
            Err(RecoveryFault::Refused(LogRefusal::NoRestart)),
        ),
        (
            &torn,
            &torn,
            Err(RecoveryFault::Refused(LogRefusal::NoRestart)),
        ),
        (&torn, &blank, Ok(0)),
        (&blank, &torn, Ok(1)),
        (&blank, &blank, Ok(0)),
    ] {
        put_page(&rt, &mut device, 0, first);
        put_page(&rt, &mut device, 1, second);
        let found = recovered(alloc, &mut device);
        assert_eq!(rt; found.map(|found| found.restart), want);
    }
    Ok(())
}

// The log from its first entry on has two blocks, and from its second one, 139 units after it, on
// has one.
#[test]
fn the_newer_restart_page_is_taken(rt: HostRuntime) -> Result<(), Fail> {
    let second = FIRST + 139;
    let steps = [(1, Fill(FREE, 0x22, 0x11)), (1, Fill(FREE + 1, 0x22, 0x11))];
    let pages = [(4, page_of(&rt, FIRST, &steps)?)];
    let mut device = volume_with(&rt, &pages, 0)?;
    for (one, other, wanted) in [
        ((FIRST, 9), (second, 3), (1, 0, 4)),
        ((second, 3), (FIRST, 9), (2, 1, 4)),
        ((FIRST, 3), (FIRST, 4), (1, 0, 5)),
        ((FIRST, 4), (FIRST, 3), (2, 1, 5)),
        ((FIRST, 3), (FIRST, 3), (2, 1, 4)),
    ] {
        let front = restart_at(one.0, FIRST, one.1);
        let after = restart_at(other.0, second, other.1);
        put_restart(&rt, &mut device, 0, &front, &[])?;
        put_restart(&rt, &mut device, 1, &after, &[])?;
        let found = recovered(rt.alloc(), &mut device)?;
        let found = (count_of(&found), found.restart, found.opens);
        assert_eq!(rt; found, wanted, "{one:?} and {other:?}");
    }
    Ok(())
}

fn restart_at(current: u64, oldest: u64, opens: u32) -> Restart
    ensures major { result.major ≡ 1 }
    ensures minor { result.minor ≡ 1 }
    ensures own { IsTrue result.own }
{
    let mut restart = own();
    restart.current = current;
    restart.oldest = oldest;
    restart.opens = opens;
    restart
}

// The first lap above which fewer than 2^16 are left, less one.
const LAST: u64 = (1 << 45) - (1 << 16) - 1;

// Page 9 says a lap, whole and then torn; the log's own lap is this one.
fn page_says<R: Abort + AllocGlobal>(
    rt: &R,
    device: &mut MemoryDevice,
    own_lap: u64,
    lap: u64,
) -> Result<(), Fail> {
    let lsn = page_lsn(513, lap, 9).unwrap_or(0);
    let mut want = Ok(lap.max(own_lap).saturating_add(1));
    if lap == LAST {
        want = Err(RecoveryFault::Refused(LogRefusal::ForeignLog { lsn }));
    }
    let mut bytes = page_of(rt, lsn, &[(1, Fill(FREE, 0x22, 0x11))])?;
    for byte in [1, 9] {
        if let Some(cell) = bytes.get_mut(1022) {
            *cell = byte;
        }
        put_page(rt, device, 9, &bytes);
        let found = recovered(rt.alloc(), device).map(|found| found.next_lap);
        assert_eq!(rt; found, want, "lap {lap}");
    }
    Ok(())
}

// An emptied log, and one in lap 1.
#[test]
fn laps_end(rt: HostRuntime) -> Result<(), Fail> {
    let mut device = volume(&rt, &[])?;
    let found = recovered(rt.alloc(), &mut device).map(|found| found.next_lap);
    assert_eq!(rt; found, Ok(1));
    for own_lap in 0..2 {
        if own_lap == 1 {
            put_restart(&rt, &mut device, 0, &own(), &[])?;
        }
        for lap in [0, 6, LAST - 1, LAST] {
            page_says(&rt, &mut device, own_lap, lap)?;
        }
    }
    Ok(())
}
