//! Scans of a volume by its log.
ghost use Rattle.std.specs.Prelude.{◌≡◌, length, IfOk};

use crate::steps::Change::{Commit, Fill, Record};
use crate::steps::{Step, page_of};
use crate::volume::*;
use log_images::{FIRST, changed_body, own};
use log_recovery::{LogRefusal, RecoveryFault};
use sector_device::{Device, MemoryDevice};
use std::alloc::{AllocError, Global};
use std::process::Abort;
use std::test::Fail;
use utf16_name::Name;
use volume_mount::{MountFault, Refusal, scan_image};

// The first sector of record 10, and where the fourth unit of its name `$UpCase` stands in it.
const RECORD: u64 = 52;

const LETTER: usize = 0xf8;

// Asserts that a scan shows 12 files, of which the one with the number 10 has this name.
fn shows<R: Abort + AllocGlobal>(
    rt: &R,
    device: &mut MemoryDevice,
    name: &str,
) -> Result<(), Fail> {
    let name = Name::from_text(rt.alloc(), name)?;
    let links = scan_image(rt.alloc(), device)?;
    assert_eq!(rt; links.len(), 12);
    let is_shown = match links.get(10) {
        Some(link) => link.name == name,
        None => false,
    };
    assert!(rt; is_shown);
    Ok(())
}

/// The body of record 10, and behind it the one with the name `$UpKase`.
pub fn bodies<R: Abort + AllocGlobal>(rt: &R, device: &mut MemoryDevice) -> Result<Vec<u8>, Fail>
    ensures { IfOk result (λ bytes. length bytes.items ≡ 2048) }
{
    let raw = sectors_at(rt, device, RECORD, 2)?;
    assert_eq!(rt; raw.len(), 1024);
    let (mut both, new) = changed_body(rt.alloc(), &raw, LETTER, b'K')?;
    both.extend_from_slice(&new).map_err(AllocError::from)?;
    assert_eq!(rt; both.len(), 2048);
    Ok(both)
}

// A volume whose log renames record 10 by an ended transaction, or by one that hasn't ended.
fn renamed<R: Abort + AllocGlobal>(
    rt: &R,
    ended: bool,
    failing: &[u64],
) -> Result<MemoryDevice, Fail> {
    let mut device = volume(rt, failing)?;
    let both = bodies(rt, &mut device)?;
    let (old, new) = both.split_at(1024);
    let update = (1, Record(RECORD, 0, new, old));
    let page = if ended {
        page_of(rt, FIRST, &[update, (1, Commit)])?
    } else {
        page_of(rt, FIRST, &[update])?
    };
    put_log(rt, &mut device, &[(4, page)])?;
    Ok(device)
}

// A scan shows the recovered name, and leaves the device.
#[test]
fn a_scan_shows_what_is_recovered(rt: HostRuntime) -> Result<(), Fail> {
    for (ended, name) in [(true, "$UpKase"), (false, "$UpCase")] {
        let mut device = renamed(&rt, ended, &[])?;
        let before = sectors_at(&rt, &mut device, 0, 16384)?;
        shows(&rt, &mut device, name)?;
        let after = sectors_at(&rt, &mut device, 0, 16384)?;
        assert!(rt; before == after);
    }
    Ok(())
}

// An entry of a sector after the volume; and one of the volume's last sector.
#[test]
fn an_entry_past_the_volume_is_foreign(rt: HostRuntime) -> Result<(), Fail> {
    let lsn = FIRST;
    let refusal = MountFault::Refused(Refusal::ForeignLog { lsn });
    for (first, wanted, refused) in [
        (
            VOLUME,
            Err(RecoveryFault::Refused(LogRefusal::ForeignLog { lsn })),
            Some(refusal),
        ),
        (VOLUME - 1, Ok(Some(0x11)), None),
    ] {
        let page = page_of(&rt, FIRST, &[(1, Fill(first, 0x22, 0x11))])?;
        let mut device = volume_with(&rt, &[(4, page)], 0)?;
        let found = recovered(rt.alloc(), &mut device).map(|found| byte_of(&found, 0));
        assert_eq!(rt; found, wanted);
        assert_eq!(rt; scan_image(rt.alloc(), &mut device).err(), refused);
    }
    Ok(())
}

// How many blocks are recovered by a log with these entries.
fn count_by<R: Abort + AllocGlobal>(
    rt: &R,
    device: &mut MemoryDevice,
    steps: &[Step],
) -> Result<Result<usize, RecoveryFault>, Fail> {
    put_log(rt, device, &[(4, page_of(rt, FIRST, steps)?)])?;
    Ok(recovered(rt.alloc(), device).map(|found| count_of(&found)))
}

// Whether the blocks that are recovered are these: none, as the entry is foreign, where half of the
// record is covered and becomes another body; none where it becomes that of the disk; and one where
// two updates cover all of it.
fn are_found_in_part<R: Abort + AllocGlobal>(
    rt: &R,
    device: &mut MemoryDevice,
    both: &[u8],
) -> Result<bool, Fail>
    requires { length both.now ≡ 2048 }
{
    let (old, new) = both.split_at(1024);
    let (old_front, old_rest) = old.split_at(512);
    let (new_front, _) = new.split_at(512);
    let other = (1, Record(RECORD, 0, new_front, old_front));
    let same = (1, Record(RECORD, 0, old_front, old_front));
    let rest = (1, Record(RECORD, 512, old_rest, old_rest));
    let foreign = count_by(rt, device, &[other, (1, Commit)])?;
    let none = count_by(rt, device, &[same, (1, Commit)])?;
    let one = count_by(rt, device, &[other, rest, (1, Commit)])?;
    Ok(
        foreign == Err(RecoveryFault::Refused(LogRefusal::ForeignLog { lsn: FIRST }))
            && none == Ok(0)
            && one == Ok(1),
    )
}

#[test]
fn a_record_covered_in_part_is_foreign(rt: HostRuntime) -> Result<(), Fail> {
    let mut device = volume(&rt, &[])?;
    let both = bodies(&rt, &mut device)?;
    assert!(rt; are_found_in_part(&rt, &mut device, &both)?);
    shows(&rt, &mut device, "$UpKase")
}

// The words of a restart page by which its client is named `NTFS`.
const OTHER: [(usize, u16); 5] = [(0x8c, 8), (0x98, 0), (0x9a, 0), (0x9c, 0), (0x9e, 0)];

// Writes the restart page of a log of another host, closed or in use.
fn put_other<R: Abort + AllocGlobal>(
    rt: &R,
    device: &mut MemoryDevice,
    clean: bool,
) -> Result<(), Fail> {
    let mut restart = own();
    restart.current = 1_048_576;
    restart.clean = clean;
    put_restart(rt, device, 0, &restart, &OTHER)
}

// A log of another host, closed and in use.
#[test]
fn a_log_of_another_host_is_left_alone(rt: HostRuntime) -> Result<(), Fail> {
    let alloc = rt.alloc();
    let mut device = volume(&rt, &[])?;
    let new = scan_image(alloc, &mut device)?;
    put_other(&rt, &mut device, true)?;
    assert!(rt; scan_image(alloc, &mut device)? == new);
    let found = recovered(alloc, &mut device).map(|found| next_of(&found));
    assert_eq!(rt; found, Ok((3, 1, 4)));
    Ok(())
}

#[test]
fn a_log_of_another_host_in_use_is_foreign(rt: HostRuntime) -> Result<(), Fail> {
    let mut device = volume(&rt, &[])?;
    put_other(&rt, &mut device, false)?;
    let refusal = MountFault::Refused(Refusal::ForeignLog { lsn: 1_048_576 });
    assert_eq!(rt; scan_image(rt.alloc(), &mut device).err(), Some(refusal));
    Ok(())
}

// How many calls are made until the device is ready for a scan, and then by a scan.
fn calls_of_a_scan<R: Abort + AllocGlobal>(rt: &R) -> Result<(u64, u64), Fail> {
    let mut device = renamed(rt, true, &[])?;
    let made = device.moment() / 2;
    scan_image(rt.alloc(), &mut device)?;
    let calls = (device.moment() / 2).saturating_sub(made);
    assert!(rt; 8 < calls && calls < 1000);
    Ok((made, calls))
}

// The calls 1, 3, 6, 10 and so on after those that were made.
fn failing(alloc: Global, made: u64, calls: u64) -> Result<Vec<u64>, AllocError> {
    let mut failing = Vec::new(alloc);
    let mut last = made;
    for call in 1..=calls {
        last = last.saturating_add(call);
        failing.push(last)?;
    }
    Ok(failing)
}

// Each call of a scan fails in its turn: the first one of the first scan, the second one of the
// second scan, and so on.
#[test]
fn a_device_that_fails_ends_a_scan(rt: HostRuntime) -> Result<(), Fail> {
    let alloc = rt.alloc();
    let (made, calls) = calls_of_a_scan(&rt)?;
    let mut device = renamed(&rt, true, &failing(alloc, made, calls)?)?;
    for call in 1..=calls {
        let fault = scan_image(alloc, &mut device).err();
        let found = (fault, device.faults());
        assert_eq!(rt; found, (Some(MountFault::Device), call));
    }
    assert_eq!(rt; scan_image(alloc, &mut device)?.len(), 12);
    Ok(())
}
