//! Blocks that are read ahead, beside writes.
use crate::blocks::{block, body, disk, is_written};
use device_blocks::CheckWord::{Missing, Stands, Unread};
use device_blocks::{AheadDevice, CheckWord};
use device_view::{PIECE_BYTES, piece_room};
use disk_model::{BlockKind, Body};
use host_base::Failed;
use sector_device::{Device, MemoryDevice};
use std::alloc::{AllocError, Global};
use std::test::Fail;

/// A step, and what it answers: the check word that is read, or whether a body was written.
enum Step {
    Read(u64, BlockKind, Result<CheckWord, Failed>),
    /// A plain body is written there.
    Write(u64, bool),
}

use Step::{Read, Write};

/// A step, the byte at place 510 of the block that was read last, and the moment behind it.
struct Row(Step, u8, u64);

static STEPS: [Row; 11] = [
    Row(Read(4, BlockKind::FileRec, Ok(Unread)), 0x41, 2),
    Row(Read(8, BlockKind::Index, Ok(Stands(7))), 0x41, 4),
    Row(Read(6, BlockKind::FileRec, Ok(Missing)), 7, 4),
    Row(Write(131, true), 7, 6),
    Row(Read(4, BlockKind::FileRec, Ok(Stands(7))), 0x41, 6),
    Row(Write(4, true), 0x41, 8),
    Row(Read(4, BlockKind::Plain, Ok(Missing)), 0x61, 10),
    Row(Read(5, BlockKind::Plain, Ok(Missing)), 7, 12),
    Row(Read(131, BlockKind::Plain, Ok(Missing)), 0x61, 14),
    Row(Read(124, BlockKind::Index, Ok(Unread)), 0, 16),
    Row(Read(200, BlockKind::Plain, Ok(Missing)), 0, 16),
];

/// A piece that can't be read isn't held, nor one whose write fails.
static FAULTS: [Row; 6] = [
    Row(Read(4, BlockKind::Plain, Ok(Missing)), 7, 2),
    Row(Read(5, BlockKind::Plain, Err(Failed)), 7, 4),
    Row(Read(5, BlockKind::Plain, Ok(Missing)), 7, 6),
    Row(Write(4, false), 7, 8),
    Row(Read(4, BlockKind::Plain, Ok(Missing)), 0x61, 10),
    Row(Read(5, BlockKind::Plain, Ok(Missing)), 7, 12),
];

fn is_done(
    alloc: Global,
    device: &mut AheadDevice<MemoryDevice>,
    step: &Step,
    out: &mut Body,
) -> Result<bool, AllocError> {
    match step {
        Read(first, kind, word) => Ok(device.body(block(*first, *kind), out) == *word),
        Write(first, written) => {
            let new = body(alloc, BlockKind::Plain, false)?;
            let place = block(*first, BlockKind::Plain);
            Ok(is_written(device, place, &mut CheckWord::Missing, &new) == *written)
        }
    }
}

/// The device with room for a piece; none where this isn't that room.
fn with_room(device: MemoryDevice, room: Vec<u8>) -> Option<AheadDevice<MemoryDevice>> {
    if room.len() == PIECE_BYTES {
        Some(AheadDevice::new(device, room))
    } else {
        None
    }
}

/// The number of the first step that answers something else.
fn first_wrong(alloc: Global, failing: &[u64], rows: &[Row]) -> Result<Option<usize>, AllocError> {
    let device = disk(alloc, failing, 1)?;
    let mut out = Body::empty(alloc)?;
    let Some(mut device) = with_room(device, piece_room(alloc)?) else {
        return Ok(Some(rows.len()));
    };
    for (number, row) in rows.iter().enumerate() {
        let done = is_done(alloc, &mut device, &row.0, &mut out)?;
        let byte = out.bytes().get(510).copied().unwrap_or(0);
        if !done || byte != row.1 || device.moment() != row.2 {
            return Ok(Some(number));
        }
    }
    Ok(None)
}

#[test]
fn blocks_are_read_in_pieces(rt: HostRuntime) -> Result<(), Fail> {
    let lists: [(&[u64], &[Row]); 2] = [(&[], &STEPS), (&[2, 4], &FAULTS)];
    for (number, list) in lists.iter().enumerate() {
        let wrong = first_wrong(rt.alloc(), list.0, list.1)?;
        assert_eq!(rt; wrong, None, "list {number}");
    }
    Ok(())
}

#[test]
fn a_whole_piece_costs_three_reads(rt: HostRuntime) -> Result<(), Fail> {
    let device = disk(rt.alloc(), &[], 0)?;
    let mut out = Body::empty(rt.alloc())?;
    let Some(mut device) = with_room(device, piece_room(rt.alloc())?) else {
        return Err("no room".into());
    };
    let mut count: u64 = 0;
    for number in 0..128 {
        if device
            .body(block(4 + number, BlockKind::Plain), &mut out)
            .is_ok()
        {
            count = count.saturating_add(1);
        }
    }
    assert_eq!(rt; (count, device.moment()), (128, 6));
    Ok(())
}
