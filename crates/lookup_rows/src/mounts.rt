//! What refuses a mount.
use crate::volume::{Patch, fail_behind, patch, volume};
use sector_device::{Device, MemoryDevice};
use std::alloc::Global;
use std::test::Fail;
use volume_mount::{MountFault, Refusal, mount};

// Whether a new volume has a journal's file, bytes of it, and what then refuses a mount of it, if
// anything does.
struct Row(bool, &'static [Patch], Option<Refusal>);

// The log's file is record 2, whose sizes stand at 0x138 and 0x140 of the sector 36; a new log has
// 513 pages, and its bytes are FF. The file with `$AttrDef` is record 4, the units of whose name
// stand behind the `$` at 0xf4 of the sector 40. The data of `$Boot`, record 7, has its type at 0x100
// of the sector 46, and its runs at 0x140: the clusters 0 and 1. In the last two rows they are 600 and
// 601, whose bits stand, as that of cluster 0, in the sector 4520.
static ROWS: [Row; 10] = [
    Row(false, &[], None),
    Row(
        false,
        &[(0, 13, 1)],
        Some(Refusal::Geometry {
            field: 13,
            value: 1,
        }),
    ),
    Row(
        false,
        &[(36, 0x141, 0)],
        Some(Refusal::LogSmall {
            pages: 512,
            needed: 513,
        }),
    ),
    Row(
        false,
        &[
            (36, 0x139, 0),
            (36, 0x13A, 0x10),
            (36, 0x141, 0),
            (36, 0x142, 0x10),
        ],
        Some(Refusal::LogSmall {
            pages: 256,
            needed: 513,
        }),
    ),
    Row(true, &[], Some(Refusal::Unbuilt { rule: 6 })),
    Row(true, &[(36, 0x141, 0)], Some(Refusal::Unbuilt { rule: 6 })),
    Row(
        false,
        &[(40, 0xF4, b'B')],
        Some(Refusal::BadVolume { rule: 3, number: 5 }),
    ),
    Row(
        false,
        &[(46, 0x100, 0x50)],
        Some(Refusal::BadVolume { rule: 5, number: 0 }),
    ),
    Row(
        false,
        &[
            (46, 0x140, 0x21),
            (46, 0x142, 0x58),
            (46, 0x143, 2),
            (4520, 75, 3),
            (4520, 0, 0xFE),
        ],
        Some(Refusal::BadVolume { rule: 6, number: 0 }),
    ),
    Row(
        false,
        &[
            (46, 0x140, 0x21),
            (46, 0x142, 0x58),
            (46, 0x143, 2),
            (4520, 75, 3),
        ],
        None,
    ),
];

// Makes the file with `$AttrDef` one with `$UsnJrnl` in the directory 11, whose sequence is 11.
static JOURNAL: [Patch; 9] = [
    (40, 0xB0, 11),
    (40, 0xB6, 11),
    (40, 0xF4, b'U'),
    (40, 0xF6, b's'),
    (40, 0xF8, b'n'),
    (40, 0xFA, b'J'),
    (40, 0xFC, b'r'),
    (40, 0xFE, b'n'),
    (40, 0x100, b'l'),
];

// What refuses a mount of the device; a fault that is no refusal is `BadFixup` of the record 999.
fn refusal_of(alloc: Global, device: &mut MemoryDevice) -> Option<Refusal> {
    match mount(alloc, device) {
        Ok(_) => None,
        Err(MountFault::Refused(refusal)) => Some(refusal),
        Err(_) => Some(Refusal::BadFixup { number: 999 }),
    }
}

fn is_refused_so(alloc: Global, row: &Row) -> Result<bool, Fail> {
    let mut device = volume(alloc, row.1)?;
    if row.0 {
        patch(&mut device, &JOURNAL);
    }
    Ok(refusal_of(alloc, &mut device) == row.2)
}

#[test]
fn refuses_in_order(rt: HostRuntime) -> Result<(), Fail> {
    for (number, row) in ROWS.iter().enumerate() {
        assert!(rt; is_refused_so(rt.alloc(), row)?, "row {number}");
    }
    Ok(())
}

#[test]
fn needs_sectors(rt: HostRuntime) -> Result<(), Fail> {
    let alloc = rt.alloc();
    let mut none = MemoryDevice::new(alloc, Vec::new(alloc), Vec::new(alloc));
    let wanted = Refusal::Short {
        sectors: 1,
        device: 0,
    };
    assert_eq!(rt; refusal_of(alloc, &mut none), Some(wanted));
    Ok(())
}

// Whether a mount whose call of this number fails is answered so, with the count of faults.
fn fails_at(alloc: Global, call: u64) -> Result<bool, Fail> {
    let mut device = volume(alloc, &[])?;
    fail_behind(&mut device, call)?;
    let failed = matches!(mount(alloc, &mut device), Err(MountFault::Device));
    Ok(failed && device.faults() == 1)
}

#[test]
fn fails_with_the_device(rt: HostRuntime) -> Result<(), Fail> {
    for call in [0, 1, 2, 5, 20] {
        assert!(rt; fails_at(rt.alloc(), call)?, "call {call}");
    }
    Ok(())
}
