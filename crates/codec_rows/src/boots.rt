//! Boot sectors that are read, refused and written.
use crate::parts::{Edit, put, put_byte};
use boot_sector::{Boot, BootFault};

// A volume of 64 clusters of a sector each.
static SMALL: [Edit; 9] = [
    Edit(0x03, b"NTFS    "),
    Edit(0x0b, &[0, 2]),
    Edit(0x0d, &[1]),
    Edit(0x28, &[64]),
    Edit(0x30, &[8]),
    Edit(0x38, &[56]),
    Edit(0x40, &[2]),
    Edit(0x44, &[8]),
    Edit(0x1fe, &[0x55, 0xaa]),
];

// What is answered for the small volume with this byte at this place.
fn read_with(at: usize, byte: u8) -> Result<Boot, BootFault> {
    let mut bytes = [0; 512];
    put(&mut bytes, &SMALL);
    put_byte(&mut bytes, at, byte);
    Boot::read(&bytes)
}

#[test]
fn reads_a_small_volume(rt: HostRuntime) {
    let boot = Boot {
        per_cluster: 1,
        sectors: 64,
        mft: 8,
        mirror: 56,
        serial: 0,
    };
    assert_eq!(rt; read_with(0x0d, 1), Ok(boot));
}

#[test]
fn refuses_no_boot_sector(rt: HostRuntime) {
    assert_eq!(rt; Boot::read(&[0; 512]), Err(BootFault::NotNtfs { rule: 1 }));
}

#[test]
fn refuses_the_first_field_at_fault(rt: HostRuntime) {
    let large = BootFault::VolumeLarge {
        clusters: 0x0100_0040,
    };
    let changes = [
        (0x03, 0, BootFault::NotNtfs { rule: 1 }),
        (0x1ff, 0, BootFault::NotNtfs { rule: 2 }),
        (0x0c, 0x10, geometry(11, 4096)),
        (0x0d, 16, geometry(13, 16)),
        (0x28, 0, geometry(40, 0)),
        (0x30, 64, geometry(48, 64)),
        (0x0d, 2, geometry(56, 56)),
        (0x40, 0xf5, geometry(64, 0xf5)),
        (0x44, 7, geometry(68, 7)),
        (0x2b, 1, large),
    ];
    for (at, byte, fault) in changes {
        assert_eq!(rt; read_with(at, byte), Err(fault), "{at}");
    }
}

fn geometry(field: u32, value: u64) -> BootFault {
    BootFault::Geometry { field, value }
}

#[test]
fn writes_what_it_reads(rt: HostRuntime) {
    let boot = Boot {
        per_cluster: 8,
        sectors: 16_383,
        mft: 4,
        mirror: 2,
        serial: 1,
    };
    let mut bytes = [0xff; 512];
    boot.write(&mut bytes);
    let found = [
        boot.clusters(),
        u64::from(bytes[0x40]),
        u64::from(bytes[0x44]),
    ];
    assert_eq!(rt; found, [2047, 0xf6, 1]);
    assert_eq!(rt; Boot::read(&bytes), Ok(boot));
}
