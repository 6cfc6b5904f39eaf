//! Blocks that are read alone.
use crate::blocks::{block, disk, is_inside};
use device_blocks::CheckWord::{Missing, Stands};
use device_blocks::{CheckWord, read_block};
use disk_model::{BlockKind, Body};
use host_base::Failed;
use sector_device::Device;
use std::alloc::{AllocError, Global};
use std::test::Fail;

/// A block, the word that is read, whether it is torn, and a byte by its place in it.
struct Row(u64, BlockKind, Result<CheckWord, Failed>, bool, (usize, u8));

static KINDS: [Row; 9] = [
    Row(4, BlockKind::Plain, Ok(Missing), false, (510, 7)),
    Row(4, BlockKind::FileRec, Ok(Stands(7)), false, (1022, 0x42)),
    Row(4, BlockKind::FileRec, Ok(Stands(7)), false, (0x30, 0)),
    Row(6, BlockKind::FileRec, Ok(Missing), true, (1022, 8)),
    Row(5, BlockKind::FileRec, Ok(Missing), false, (510, 7)),
    Row(
        2,
        BlockKind::FileRec,
        Ok(Stands(0xfffe)),
        false,
        (510, 0x41),
    ),
    Row(8, BlockKind::Index, Ok(Stands(7)), false, (4094, 0x48)),
    Row(4, BlockKind::Index, Ok(Missing), false, (510, 7)),
    Row(131, BlockKind::Plain, Ok(Missing), false, (0, 9)),
];

/// A read that fails, and goes well when it is tried again.
static FAULT: [Row; 2] = [
    Row(131, BlockKind::Plain, Err(Failed), false, (0, 0)),
    Row(131, BlockKind::Plain, Ok(Missing), false, (0, 9)),
];

/// The number of the first block of which something else is read; one past them where the moments
/// or the faults are others.
fn first_wrong(
    alloc: Global,
    failing: &[u64],
    rows: &[Row],
    counts: (u64, u64),
) -> Result<Option<usize>, AllocError> {
    let mut device = disk(alloc, failing, 0)?;
    let mut body = Body::empty(alloc)?;
    let mut wrong = None;
    for (number, row) in rows.iter().enumerate() {
        let block = block(row.0, row.1);
        let inside = is_inside(&device, block);
        let same = inside
            && read_block(&mut device, block, &mut body) == row.2
            && body.torn() == row.3
            && (row.2.is_err() || body.bytes().get(row.4.0).copied() == Some(row.4.1));
        if wrong.is_none() && !same {
            wrong = Some(number);
        }
    }
    if wrong.is_none() && (device.moment(), device.faults()) != counts {
        wrong = Some(rows.len());
    }
    Ok(wrong)
}

#[test]
fn each_kind_is_read(rt: HostRuntime) -> Result<(), Fail> {
    let lists: [(&[u64], &[Row], (u64, u64)); 2] = [(&[], &KINDS, (18, 0)), (&[1], &FAULT, (4, 1))];
    for (number, list) in lists.iter().enumerate() {
        let wrong = first_wrong(rt.alloc(), list.0, list.1, list.2)?;
        assert_eq!(rt; wrong, None, "list {number}");
    }
    Ok(())
}
