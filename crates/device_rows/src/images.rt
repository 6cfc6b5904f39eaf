//! Images that a crash leaves of a device of three sectors, after so many of its calls.
use crate::calls::{Call, done_of, shows, zeros};
use sector_device::MemoryDevice;
use std::alloc::{AllocError, Global};
use std::test::Fail;

/// The first three flags of a choice by its number.
fn flags_of(choice: usize) -> [bool; 3] {
    [choice % 2 == 1, choice / 2 % 2 == 1, choice / 4 % 2 == 1]
}

/// The image by these flags after so many calls, as one value a sector; none where a sector has
/// two.
fn values_of(
    alloc: Global,
    device: &MemoryDevice,
    calls: usize,
    take: &[bool],
) -> Result<Option<[u8; 3]>, AllocError> {
    let image = device.left_by(alloc, calls, take)?;
    let values = match (image.get(0), image.get(512), image.get(1024)) {
        (Some(a), Some(b), Some(c)) => [*a, *b, *c],
        _ => return Ok(None),
    };
    if shows(&image, values) {
        return Ok(Some(values));
    }
    Ok(None)
}

/// A 1 to the first two sectors, a sync, a 2 to the second one, and a sync.
const CALLS: [Call; 4] = [
    Call::Write(0, 1, 2),
    Call::Sync,
    Call::Write(1, 2, 1),
    Call::Sync,
];

/// The calls that fail, how many are made, how many of them are taken, and the image by each choice
/// of three flags.
struct Row(&'static [u64], usize, usize, [[u8; 3]; 8]);

/// The first sync fails: six images.
const SIX: [[u8; 3]; 8] = [
    [0, 0, 0],
    [0, 2, 0],
    [1, 0, 0],
    [1, 2, 0],
    [0, 1, 0],
    [0, 2, 0],
    [1, 1, 0],
    [1, 2, 0],
];

/// The first write alone: four.
const FOUR: [[u8; 3]; 8] = [
    [0, 0, 0],
    [1, 0, 0],
    [0, 1, 0],
    [1, 1, 0],
    [0, 0, 0],
    [1, 0, 0],
    [0, 1, 0],
    [1, 1, 0],
];

/// The first sync succeeds: two.
const TWO: [[u8; 3]; 8] = [
    [1, 1, 0],
    [1, 2, 0],
    [1, 1, 0],
    [1, 2, 0],
    [1, 1, 0],
    [1, 2, 0],
    [1, 1, 0],
    [1, 2, 0],
];

static ROWS: [Row; 14] = [
    Row(&[2], 3, 0, [[0, 0, 0]; 8]),
    Row(&[2], 3, 1, FOUR),
    Row(&[2], 3, 2, FOUR),
    Row(&[2], 3, 3, SIX),
    Row(&[2], 3, 9, SIX),
    Row(&[2], 4, 0, [[0, 0, 0]; 8]),
    Row(&[2], 4, 1, FOUR),
    Row(&[2], 4, 3, SIX),
    Row(&[2], 4, 4, [[1, 2, 0]; 8]),
    Row(&[2], 4, 9, [[1, 2, 0]; 8]),
    Row(&[], 4, 1, FOUR),
    Row(&[], 4, 2, [[1, 1, 0]; 8]),
    Row(&[], 4, 3, TWO),
    Row(&[], 4, 4, [[1, 2, 0]; 8]),
];

/// The number of the first choice whose image isn't the one that is wanted.
fn first_wrong(alloc: Global, row: &Row) -> Result<Option<usize>, AllocError> {
    let mut device = zeros(alloc, row.0, 0)?;
    let calls = CALLS.split_at(row.1.min(4)).0;
    let _ = done_of(&mut device, calls);
    for choice in 0..8 {
        let values = values_of(alloc, &device, row.2, &flags_of(choice))?;
        if values != row.3.get(choice).copied() {
            return Ok(Some(choice));
        }
    }
    Ok(None)
}

#[test]
fn a_crash_leaves_these(rt: HostRuntime) -> Result<(), Fail> {
    for (number, row) in ROWS.iter().enumerate() {
        assert_eq!(rt; first_wrong(rt.alloc(), row)?, None, "row {number}");
    }
    Ok(())
}

/// A write of two sectors that fails and puts the first so many, and the images by each choice of
/// two flags.
struct Torn(usize, [[u8; 3]; 4]);

static TORN: [Torn; 3] = [
    Torn(0, [[0, 0, 0], [0, 0, 0], [0, 0, 0], [0, 0, 0]]),
    Torn(1, [[0, 0, 0], [7, 0, 0], [0, 0, 0], [7, 0, 0]]),
    Torn(2, [[0, 0, 0], [7, 0, 0], [0, 7, 0], [7, 7, 0]]),
];

/// The number of the first choice whose image isn't the one that is wanted.
fn first_torn(alloc: Global, row: &Torn) -> Result<Option<usize>, AllocError> {
    let mut device = zeros(alloc, &[1], row.0)?;
    let _ = done_of(&mut device, &[Call::Write(0, 7, 2)]);
    for choice in 0..4 {
        let values = values_of(alloc, &device, 1, &flags_of(choice))?;
        if values != row.1.get(choice).copied() {
            return Ok(Some(choice));
        }
    }
    Ok(None)
}

#[test]
fn a_torn_write_leaves_these(rt: HostRuntime) -> Result<(), Fail> {
    for (number, row) in TORN.iter().enumerate() {
        assert_eq!(rt; first_torn(rt.alloc(), row)?, None, "row {number}");
    }
    Ok(())
}

/// Flags, fewer than there are sectors written, and the image by them after all of three calls of
/// which the sync failed.
struct Few(&'static [bool], [u8; 3]);

static FEW: [Few; 6] = [
    Few(&[], [0, 0, 0]),
    Few(&[false], [0, 0, 0]),
    Few(&[true], [0, 2, 0]),
    Few(&[false, true], [1, 0, 0]),
    Few(&[true, true], [1, 2, 0]),
    Few(&[false, false, true, true, true], [0, 1, 0]),
];

#[test]
fn flags_may_be_fewer_or_more(rt: HostRuntime) -> Result<(), Fail> {
    let mut device = zeros(rt.alloc(), &[2], 0)?;
    let done = done_of(&mut device, CALLS.split_at(3).0);
    assert_eq!(rt; done, 2);
    for (number, row) in FEW.iter().enumerate() {
        let values = values_of(rt.alloc(), &device, 3, row.0)?;
        assert_eq!(rt; values, Some(row.1), "row {number}");
    }
    Ok(())
}

#[test]
fn a_read_changes_no_image(rt: HostRuntime) -> Result<(), Fail> {
    let mut device = zeros(rt.alloc(), &[], 0)?;
    let done = done_of(&mut device, &[Call::Write(1, 8, 1), Call::Read]);
    assert_eq!(rt; (done, device.done.len()), (2, 2));
    for (calls, flag, want) in [(1, true, 8), (1, false, 0), (2, true, 8), (2, false, 0)] {
        let values = values_of(rt.alloc(), &device, calls, &[flag])?;
        assert_eq!(rt; values, Some([0, want, 0]), "{calls}");
    }
    Ok(())
}
