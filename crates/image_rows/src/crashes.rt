//! What a crash leaves of a new volume, and that a call which only reads leaves it as it was.
use crate::devices::device;
use image_read::{check_image, read_journal, scan_image};
use sector_device::{Device, MemoryDevice};
use std::alloc::{AllocError, Global};
use std::test::Fail;
use volume_format::{Formatted, format};

// The byte that stands everywhere before.
const OLD: u8 = 0xa5;

// The first sector of a free cluster on a device of 16,384 sectors.
const FREE: usize = 4_536;

// A device of 16,384 sectors of that byte.
fn old_device(alloc: Global) -> Result<MemoryDevice, AllocError> {
    let bytes = vec![in alloc; OLD; 512 * 16_384]?;
    device(alloc, bytes, 0)
}

// Whether each byte from the first free cluster on is that of before.
fn keeps_the_rest(image: &[u8]) -> bool {
    if image.len() != 512 * 16_384 {
        return false;
    }
    image[512 * FREE..].iter().all(|byte| *byte == OLD)
}

// Whether the image that a crash leaves after so many calls keeps the free clusters, by these
// flags.
fn left_keeps(
    alloc: Global,
    device: &MemoryDevice,
    calls: usize,
    take: &[bool],
) -> Result<bool, AllocError> {
    let image = device.left_by(alloc, calls, take)?;
    Ok(keeps_the_rest(&image))
}

// Flags for more sectors than a format writes: all set, and each second one.
#[derive(Drop)]
struct Flags {
    all: Vec<bool>,
    second: Vec<bool>,
}

fn make_flags(alloc: Global) -> Result<Flags, AllocError> {
    let mut second = vec![in alloc; false; 8192]?;
    for (place, flag) in second.iter_mut().enumerate() {
        *flag = place % 2 == 1;
    }
    Ok(Flags {
        all: vec![in alloc; true; 8192]?,
        second,
    })
}

// The number of the first call after which a crash could leave a free cluster changed.
fn first_changed(alloc: Global, device: &MemoryDevice) -> Result<Option<usize>, AllocError> {
    let flags = make_flags(alloc)?;
    for calls in 0..device.done.len() {
        let none = left_keeps(alloc, device, calls, &[])?;
        let all = left_keeps(alloc, device, calls, &flags.all)?;
        let second = left_keeps(alloc, device, calls, &flags.second)?;
        if !(none && all && second) {
            return Ok(Some(calls));
        }
    }
    Ok(None)
}

#[test]
fn a_format_leaves_free_clusters(rt: HostRuntime) -> Result<(), Fail> {
    let mut device = old_device(rt.alloc())?;
    let made = format(rt.alloc(), &mut device, 7, 1000);
    let want = Formatted {
        clusters: 2047,
        room: 1480,
    };
    assert_eq!(rt; made, Ok(want));
    assert_eq!(rt; first_changed(rt.alloc(), &device)?, None);
    Ok(())
}

// What reads give, all of it.
fn read_whole(alloc: Global, device: &mut MemoryDevice) -> Result<Option<Vec<u8>>, AllocError> {
    let mut bytes = vec![in alloc; 0u8; 512 * 16_384]?;
    if device.sectors() == 16_384 && device.read(0, &mut bytes).is_ok() {
        return Ok(Some(bytes));
    }
    Ok(None)
}

// Whether a crash leaves what reads give, and nothing else.
fn is_settled(alloc: Global, device: &mut MemoryDevice) -> Result<bool, AllocError> {
    let calls = device.done.len();
    let flags = make_flags(alloc)?;
    let none = device.left_by(alloc, calls, &[])?;
    let all = device.left_by(alloc, calls, &flags.all)?;
    let seen = read_whole(alloc, device)?;
    Ok(none == all && seen == Some(none))
}

#[test]
fn a_format_that_is_done_leaves_one_image(rt: HostRuntime) -> Result<(), Fail> {
    let mut device = old_device(rt.alloc())?;
    let made = format(rt.alloc(), &mut device, 7, 1000);
    assert!(rt; made.is_ok());
    assert!(rt; is_settled(rt.alloc(), &mut device)?);
    Ok(())
}

// The calls that only read.
#[derive(Clone, Copy, Debug)]
enum Reading {
    Scan,
    Check,
    Journal,
}

// Whether the call is answered as a volume without a journal is.
fn is_answered(alloc: Global, reading: Reading, device: &mut MemoryDevice) -> bool {
    match reading {
        Reading::Scan => scan_image(alloc, device).is_ok(),
        Reading::Check => check_image(alloc, device).is_ok(),
        Reading::Journal => read_journal(alloc, device).is_err(),
    }
}

// Whether a crash leaves the same after a call that reads as before it, of a device with a write
// that isn't synced.
fn leaves_all(alloc: Global, reading: Reading) -> Result<bool, AllocError> {
    let mut device = old_device(alloc)?;
    let made = format(alloc, &mut device, 7, 1000).is_ok();
    let sectors = device.sectors();
    if sectors < 6000 || device.write(5000, &[0x11; 512]).is_err() {
        return Ok(false);
    }
    let before = device.done.len();
    let old = device.left_by(alloc, before, &[])?;
    let new = device.left_by(alloc, before, &[true])?;
    let answered = is_answered(alloc, reading, &mut device);
    let after = device.done.len();
    let same = device.left_by(alloc, after, &[])? == old
        && device.left_by(alloc, after, &[true])? == new;
    Ok(made && answered && same && old != new && before < after)
}

#[test]
fn a_call_that_reads_leaves_what_a_crash_may_leave(rt: HostRuntime) -> Result<(), Fail> {
    for reading in [Reading::Scan, Reading::Check, Reading::Journal] {
        assert!(rt; leaves_all(rt.alloc(), reading)?, "{reading:?}");
    }
    Ok(())
}
