//! A new volume opened for a mount that writes.
use crate::steps::Change::Fill;
use crate::steps::page_of;
use crate::volume::*;
use device_view::{DeviceView, piece_room};
use log_images::FIRST;
use sector_device::{Device, MemoryDevice};
use std::alloc::Global;
use std::process::Abort;
use std::test::Fail;
use volume_mount::{MountFault, OpeningToWrite, Refusal, open_to_write};

// The first sector of record 2.
const RECORD_2: u64 = 36;

// What a mount that writes finds of the volume on a device.
fn opened(alloc: Global, device: &mut MemoryDevice) -> Result<OpeningToWrite, MountFault> {
    let sectors = device.sectors();
    let mut room = piece_room(alloc)?;
    let mut view = DeviceView::new(&mut room, device);
    open_to_write(alloc, &mut view, sectors)
}

// How many blocks recovery makes, and how many of them the mount writes out.
fn counts_of(opening: &OpeningToWrite) -> (usize, usize) {
    let found = &opening.found;
    (found.recovered.blocks.bodies.len(), found.written.len())
}

// A new volume, whose log has no entry.
#[test]
fn a_new_volume_is_opened(rt: HostRuntime) -> Result<(), Fail> {
    let mut device = volume(&rt, &[])?;
    let opening = opened(rt.alloc(), &mut device)?;
    let geometry = opening.geometry;
    assert_eq!(rt; (geometry.per_cluster.sectors(), geometry.mft), (8, 4));
    assert_eq!(rt; (opening.total, opening.place.pages), (2047, 513));
    assert_eq!(rt; counts_of(&opening), (0, 0));
    Ok(())
}

// The boot sector's byte at a place is put, one after the other; and what refuses the volume then.
// The mark is asked for before the sectors of a cluster, and the sectors of a cluster before the
// others.
static BOOTS: [(usize, u8, Refusal); 3] = [
    (
        0x44,
        9,
        Refusal::Geometry {
            field: 68,
            value: 9,
        },
    ),
    (
        0x0D,
        1,
        Refusal::Geometry {
            field: 13,
            value: 1,
        },
    ),
    (0x1FE, 0, Refusal::NotNtfs { rule: 2 }),
];

#[test]
fn a_boot_sector_is_refused(rt: HostRuntime) -> Result<(), Fail> {
    let mut device = volume(&rt, &[])?;
    let mut boot = sectors_at(&rt, &mut device, 0, 1)?;
    for (place, byte, refusal) in &BOOTS {
        if let Some(cell) = boot.get_mut(*place) {
            *cell = *byte;
        }
        put(&rt, &mut device, 0, &boot);
        let fault = opened(rt.alloc(), &mut device).err();
        assert_eq!(rt; fault, Some(MountFault::Refused(*refusal)), "at {place}");
    }
    Ok(())
}

// A sector that an update which hasn't ended filled, and whether the mount may write it out: not
// where it is the boot sector, one of record 2, or one of the log.
static FILLED: [(u64, bool); 8] = [
    (FREE, true),
    (0, false),
    (1, true),
    (RECORD_2 - 1, true),
    (RECORD_2, false),
    (RECORD_2 + 1, false),
    (LOG + 800, false),
    (VOLUME - 1, true),
];

#[test]
fn what_the_log_is_found_by_stays(rt: HostRuntime) -> Result<(), Fail> {
    let refusal = MountFault::Refused(Refusal::ForeignLog { lsn: FIRST });
    for (first, may) in &FILLED {
        let page = page_of(&rt, FIRST, &[(1, Fill(*first, 0x22, 0x11))])?;
        let mut device = volume_with(&rt, &[(4, page)], 0)?;
        let found = opened(rt.alloc(), &mut device).map(|opening| counts_of(&opening));
        let wanted = if *may { Ok((1, 1)) } else { Err(refusal) };
        assert_eq!(rt; found, wanted, "sector {first}");
    }
    Ok(())
}
