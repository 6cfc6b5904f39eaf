//! Views of blocks over a device in memory.
ghost use Rattle.std.specs.Prelude.{◌≡◌, ◌+◌, ◌*◌, ◌≤◌, IfOk, length};

use block_view::{View, ViewFault};
use device_view::{DeviceView, ReadAhead, piece_room};
use disk_model::{Block, BlockKind, Body};
use sector_device::{Device, MemoryDevice};
use std::alloc::{AllocError, Global};
use std::test::Fail;

const fn block(first: u64, kind: BlockKind) -> Block {
    Block { first, kind }
}

/// Makes so many sectors a protected structure with the check word 7, whose true words are 0x41,
/// 0x42 and so on.
fn protect(bytes: &mut [u8], signature: &[u8], array: usize, sectors: usize)
    requires size { 512 * sectors ≤ length bytes.old }
    requires some { 1 ≤ sectors }
    requires few { sectors ≤ 8 }
    requires place { array ≤ 64 }
    requires signature { length signature.now ≡ 4 }
{
    bytes[..4].copy_from_slice(signature);
    bytes[4] = array as u8;
    bytes[6] = sectors as u8 + 1;
    bytes[array] = 7;
    for sector in 0..sectors {
        bytes[512 * sector + 510] = 7;
        bytes[array + 2 + 2 * sector] = 0x41 + sector as u8;
    }
}

/// A disk of 132 sectors: a file record in sector 4, a torn one in sector 6, an index block in
/// sector 8, and a 9 in the last sector; with the numbers of the calls that are to fail.
fn disk(alloc: Global, failing: &[u64]) -> Result<MemoryDevice, AllocError> {
    let mut bytes = vec![in alloc; 0u8; 67584]?;
    protect(&mut bytes[2048..], b"FILE", 0x30, 2);
    protect(&mut bytes[3072..], b"FILE", 0x30, 2);
    protect(&mut bytes[4096..], b"INDX", 0x28, 8);
    bytes[4094] = 8;
    bytes[67072] = 9;
    Ok(MemoryDevice::new(alloc, bytes, failing.to_vec(alloc)?))
}

/// Whether a body is torn, and its size.
type Told = (bool, usize);

/// A block, what is told of it, and bytes by their places in it.
struct Row(
    u64,
    BlockKind,
    Result<Told, ViewFault>,
    &'static [(usize, u8)],
);

/// Each kind has its body.
static KINDS: [Row; 8] = [
    Row(4, BlockKind::Plain, Ok((false, 512)), &[(510, 7)]),
    Row(4, BlockKind::FileRec, Ok((false, 1024)), &[(1022, 0x42)]),
    Row(4, BlockKind::FileRec, Ok((false, 1024)), &[(0x30, 0)]),
    Row(6, BlockKind::FileRec, Ok((true, 1024)), &[(510, 7)]),
    Row(6, BlockKind::FileRec, Ok((true, 1024)), &[(1022, 8)]),
    Row(5, BlockKind::FileRec, Ok((false, 1024)), &[(510, 7)]),
    Row(8, BlockKind::Index, Ok((false, 4096)), &[(4094, 0x48)]),
    Row(4, BlockKind::Index, Ok((false, 4096)), &[(510, 7)]),
];

/// Sectors past the end are zeros.
static PAST: [Row; 2] = [
    Row(132, BlockKind::Index, Ok((false, 4096)), &[(0, 0)]),
    Row(u64::MAX, BlockKind::FileRec, Ok((false, 1024)), &[(0, 0)]),
];

/// Blocks that go past a piece, and past the end.
static ACROSS: [Row; 4] = [
    Row(
        124,
        BlockKind::Index,
        Ok((false, 4096)),
        &[(3584, 9), (4095, 0)],
    ),
    Row(
        125,
        BlockKind::Index,
        Ok((false, 4096)),
        &[(3072, 9), (4095, 0)],
    ),
    Row(
        128,
        BlockKind::Index,
        Ok((false, 4096)),
        &[(1536, 9), (4095, 0)],
    ),
    Row(
        131,
        BlockKind::Index,
        Ok((false, 4096)),
        &[(0, 9), (4095, 0)],
    ),
];

/// A walk goes on into the next piece, which is read at once, past the end too.
static WALK: [Row; 3] = [
    Row(120, BlockKind::Index, Ok((false, 4096)), &[(4095, 0)]),
    Row(128, BlockKind::Index, Ok((false, 4096)), &[(1536, 9)]),
    Row(131, BlockKind::Plain, Ok((false, 512)), &[(0, 9)]),
];

/// A walk passes over 7 sectors, and ends where 8 are passed over.
static STEPS: [Row; 4] = [
    Row(4, BlockKind::FileRec, Ok((false, 1024)), &[(510, 0x41)]),
    Row(14, BlockKind::FileRec, Ok((false, 1024)), &[(510, 7)]),
    Row(23, BlockKind::Plain, Ok((false, 512)), &[(510, 0)]),
    Row(23, BlockKind::Plain, Ok((false, 512)), &[(510, 0)]),
];

/// A piece that can't be read isn't held, and the same block is read alone then.
static PIECE_FAULT: [Row; 3] = [
    Row(4, BlockKind::FileRec, Ok((false, 1024)), &[(510, 0x41)]),
    Row(6, BlockKind::FileRec, Err(ViewFault::Fault), &[]),
    Row(6, BlockKind::FileRec, Ok((true, 1024)), &[(1022, 8)]),
];

/// A view goes on after a fault.
static FAULT: [Row; 3] = [
    Row(4, BlockKind::FileRec, Ok((false, 1024)), &[(510, 0x41)]),
    Row(131, BlockKind::Plain, Err(ViewFault::Fault), &[]),
    Row(4, BlockKind::FileRec, Ok((false, 1024)), &[(510, 0x41)]),
];

fn has_bytes(body: &Body, want: &[(usize, u8)]) -> bool {
    for (at, byte) in want {
        if body.bytes().get(*at).copied() != Some(*byte) {
            return false;
        }
    }
    true
}

/// The number of the first block of which something else is told; one past them where the moments
/// or the faults are others.
fn first_wrong(
    alloc: Global,
    failing: &[u64],
    rows: &[Row],
    counts: (u64, u64),
) -> Result<Option<usize>, AllocError> {
    let mut device = disk(alloc, failing)?;
    let mut room = piece_room(alloc)?;
    let mut body = Body::empty(alloc)?;
    let mut wrong = None;
    let mut view = DeviceView::new(&mut room, &mut device);
    for (number, row) in rows.iter().enumerate() {
        let answer = view.body(block(row.0, row.1), &mut body);
        let what = answer.map(|_| (body.torn(), body.bytes().len()));
        let same = what == row.2 && has_bytes(&body, row.3);
        if wrong.is_none() && !same {
            wrong = Some(number);
        }
    }
    if wrong.is_none() && (device.moment(), device.faults()) != counts {
        wrong = Some(rows.len());
    }
    Ok(wrong)
}

#[test]
fn blocks_are_read_in_pieces(rt: HostRuntime) -> Result<(), Fail> {
    let lists: [(&[u64], &[Row], (u64, u64)); 7] = [
        (&[], &KINDS, (8, 0)),
        (&[], &PAST, (0, 0)),
        (&[], &ACROSS, (8, 0)),
        (&[], &WALK, (4, 0)),
        (&[], &STEPS, (6, 0)),
        (&[2], &PIECE_FAULT, (6, 1)),
        (&[2], &FAULT, (6, 1)),
    ];
    for (number, list) in lists.iter().enumerate() {
        let wrong = first_wrong(rt.alloc(), list.0, list.1, list.2)?;
        assert_eq!(rt; wrong, None, "list {number}");
    }
    Ok(())
}

#[test]
fn what_an_owner_writes_is_read(rt: HostRuntime) -> Result<(), Fail> {
    let mut device = disk(rt.alloc(), &[])?;
    let mut room = piece_room(rt.alloc())?;
    let mut body = Body::empty(rt.alloc())?;
    let mut ahead = ReadAhead::empty();
    let last = block(131, BlockKind::Plain);
    ahead.body(&mut room, &mut device, last, &mut body)?;
    let before = body.bytes().first().copied();
    if device.sectors() != 132 {
        return Err("another size".into());
    }
    ahead.write(&mut device, 131, &[7; 512])?;
    ahead.body(&mut room, &mut device, last, &mut body)?;
    assert_eq!(rt; (before, body.bytes().first().copied()), (Some(9), Some(7)));
    assert_eq!(rt; (device.moment(), device.faults()), (6, 0));
    Ok(())
}
