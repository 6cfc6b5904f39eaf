//! Scans, checks and readings of images that are refused, and of a device that fails.
use crate::devices::device;
use disk_model::{put_bytes, put_u16, put_u64};
use image_read::{MountFault, Refusal, check_image, read_journal, scan_image};
use sector_device::MemoryDevice;
use std::alloc::{AllocError, Global};
use std::test::Fail;

// A device that begins with a boot sector of 64 clusters of a sector each: the place and value of a
// byte of it that is put, how many sectors there are, the call that fails, and the error.
struct Row(usize, u8, usize, u64, MountFault);

static ROWS: [Row; 6] = [
    Row(
        0x1FE,
        0x55,
        0,
        0,
        MountFault::Refused(Refusal::Short {
            sectors: 1,
            device: 0,
        }),
    ),
    Row(
        0x1FE,
        0x55,
        63,
        0,
        MountFault::Refused(Refusal::Short {
            sectors: 64,
            device: 63,
        }),
    ),
    Row(
        0x1FE,
        0,
        64,
        0,
        MountFault::Refused(Refusal::NotNtfs { rule: 2 }),
    ),
    Row(
        0x0D,
        16,
        64,
        0,
        MountFault::Refused(Refusal::Geometry {
            field: 13,
            value: 16,
        }),
    ),
    Row(0x1FE, 0x55, 64, 0, MountFault::Refused(Refusal::NoRestart)),
    Row(0x1FE, 0x55, 64, 1, MountFault::Device),
];

fn boot_sector() -> [u8; 512] {
    let mut bytes = [0; 512];
    put_bytes(&mut bytes, 0x03, b"NTFS    ");
    put_u16(&mut bytes, 0x0B, 512);
    put_bytes(&mut bytes, 0x0D, &[1]);
    put_u64(&mut bytes, 0x28, 64);
    put_u64(&mut bytes, 0x30, 8);
    put_u64(&mut bytes, 0x38, 56);
    put_bytes(&mut bytes, 0x40, &[2]);
    put_bytes(&mut bytes, 0x44, &[8]);
    put_bytes(&mut bytes, 0x1FE, &[0x55, 0xAA]);
    bytes
}

fn device_of(alloc: Global, row: &Row) -> Result<MemoryDevice, AllocError> {
    let mut boot = boot_sector();
    if row.0 < 512 {
        boot[row.0] = row.1;
    }
    let mut bytes = Vec::from_slice(alloc, &boot)?;
    bytes.resize(512 * row.2.min(64), 0)?;
    device(alloc, bytes, row.3)
}

#[test]
fn scans_are_refused(rt: HostRuntime) -> Result<(), Fail> {
    for (number, row) in ROWS.iter().enumerate() {
        let mut device = device_of(rt.alloc(), row)?;
        let found = scan_image(rt.alloc(), &mut device);
        assert_eq!(rt; found.err(), Some(row.4), "row {number}");
    }
    Ok(())
}

#[test]
fn checks_are_refused(rt: HostRuntime) -> Result<(), Fail> {
    for (number, row) in ROWS.iter().enumerate() {
        let mut device = device_of(rt.alloc(), row)?;
        let found = check_image(rt.alloc(), &mut device);
        assert_eq!(rt; found.err(), Some(row.4), "row {number}");
    }
    Ok(())
}

#[test]
fn readings_are_refused(rt: HostRuntime) -> Result<(), Fail> {
    for (number, row) in ROWS.iter().enumerate() {
        let mut device = device_of(rt.alloc(), row)?;
        let found = read_journal(rt.alloc(), &mut device);
        assert_eq!(rt; found.err(), Some(row.4), "row {number}");
    }
    Ok(())
}
