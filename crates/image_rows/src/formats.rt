//! New volumes: their image, and devices that are too short or that fail.
use crate::devices::device;
use sector_device::{Device, MemoryDevice};
use std::alloc::{AllocError, Global};
use std::test::Fail;
use volume_format::{FormatFault, FormatRefusal, Formatted, format};

// A device of so many sectors, the call of it that fails, the answer of a format, the count of
// faults, and the moment of the device, where it is told.
struct Row(u16, u64, Result<Formatted, FormatFault>, u64, Option<u64>);

static ROWS: [Row; 7] = [
    Row(
        0,
        0,
        Err(FormatFault::Refused(FormatRefusal::Short {
            sectors: 1,
            device: 0,
        })),
        0,
        Some(0),
    ),
    Row(
        4536,
        0,
        Err(FormatFault::Refused(FormatRefusal::Short {
            sectors: 4537,
            device: 4536,
        })),
        0,
        Some(0),
    ),
    Row(
        4537,
        0,
        Ok(Formatted {
            clusters: 567,
            room: 0,
        }),
        0,
        None,
    ),
    // a device of 4,617 sectors is called 42 times, the last time for a sync
    Row(4617, 1, Err(FormatFault::Fault), 1, None),
    Row(4617, 20, Err(FormatFault::Fault), 1, None),
    Row(4617, 42, Err(FormatFault::Fault), 1, None),
    Row(
        4617,
        43,
        Ok(Formatted {
            clusters: 577,
            room: 10,
        }),
        0,
        Some(84),
    ),
];

// A device of so many sectors of zeros, whose call with this number fails.
fn blank(alloc: Global, sectors: u16, failing: u64) -> Result<MemoryDevice, AllocError> {
    let bytes = vec![in alloc; 0u8; 512 * usize::from(sectors)]?;
    device(alloc, bytes, failing)
}

// A number for the bytes of the first sectors.
fn sum_of(device: &mut MemoryDevice, sectors: u64) -> u64 {
    let mut sum: u64 = 0;
    let mut sector = [0u8; 512];
    for number in 0..sectors {
        if number < device.sectors() && device.read(number, &mut sector).is_ok() {
            for byte in &sector {
                sum = sum.wrapping_mul(31).wrapping_add(u64::from(*byte) + 1);
            }
        }
    }
    sum
}

// The number is that of an image which another program made from the description of the format.
#[test]
fn makes_the_image(rt: HostRuntime) -> Result<(), Fail> {
    let mut device = blank(rt.alloc(), 4617, 0)?;
    let made = format(rt.alloc(), &mut device, 7, 1000);
    let want = Formatted {
        clusters: 577,
        room: 10,
    };
    assert_eq!(rt; made, Ok(want));
    assert_eq!(rt; sum_of(&mut device, 4617), 12_390_547_081_150_404_713);
    Ok(())
}

fn is_as_wanted(alloc: Global, row: &Row) -> Result<bool, AllocError> {
    let mut device = blank(alloc, row.0, row.1)?;
    let made = format(alloc, &mut device, 0, 0);
    let has_moment = match row.4 {
        Some(moment) => device.moment() == moment,
        None => true,
    };
    Ok(made == row.2 && device.faults() == row.3 && has_moment)
}

#[test]
fn answers_by_the_device(rt: HostRuntime) -> Result<(), Fail> {
    for (number, row) in ROWS.iter().enumerate() {
        assert!(rt; is_as_wanted(rt.alloc(), row)?, "row {number}");
    }
    Ok(())
}
