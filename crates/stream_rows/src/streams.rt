//! Streams of a record: where their blocks lie, and their bytes.
ghost use Rattle.std.specs.Prelude.{IfOk, IfSome};

use block_view::MemoryView;
use record_model::DATA;
use std::alloc::{AllocError, Global};
use std::test::Fail;
use stream_map::{
    Block, BlockKind, Body, Extents, Memory, Stream, ViewFault, block_at, fill, front,
    has_cut_block, real_size, stream_of,
};
use volume_images::{Kept, Part, per_cluster, record, run, sectors_view};

// The sectors of a cluster, a block by its kind and number, and its first sector.
static BLOCKS: [(u8, BlockKind, u32, Option<u64>); 3] = [
    (8, BlockKind::Plain, 9, Some(137)),
    // a sparse run, and a block in two runs
    (8, BlockKind::FileRec, 8, None),
    (1, BlockKind::Index, 0, None),
];

// The sectors of a cluster, a count of index blocks, and whether a run cuts one of them.
static CUTS: [(u8, u64, bool); 3] = [(1, 1, true), (1, 0, false), (8, 6, false)];

// The name of a stream, a place in it, and its four bytes from there on: zeros behind its end.
static FRONTS: [(&[u16], u64, [u8; 4]); 2] = [(&[97], 1, [2, 3, 0, 0]), (&[], 598, [8, 8, 0, 0])];

// The data with this name, of a record that has the later piece of the unnamed data first. The
// value of the data `a` is 1, 2, 3.
fn data(alloc: Global, name: &[u16]) -> Result<Option<Stream>, Memory> {
    let later = Kept::Pairs(4, (3072, 0, 900), b"\x11\x02\x20\0");
    let first = Kept::Pairs(0, (3072, 600, 900), b"\x11\x02\x10\x01\x02\0");
    let parts = [
        Part(DATA, 0, &[], later),
        Part(DATA, 0, &[97], Kept::Value(&[1, 2, 3])),
        Part(DATA, 0, &[], first),
    ];
    let file = record(alloc, (0, 0, 1), &parts)?;
    stream_of(alloc, DATA, name, file.attrs().as_slice())
}

// The clusters of the unnamed data.
fn clusters(alloc: Global) -> Result<Extents, Fail> {
    match data(alloc, &[])? {
        Some(Stream::Placed(extents)) => Ok(extents),
        _ => Err("no clusters".into()),
    }
}

// Sectors 16 and 17 of sevens and eights, and a view of them whose third call fails.
fn view(alloc: Global) -> Result<MemoryView, AllocError> {
    sectors_view(alloc, &[(16, 0, &[7; 512]), (17, 0, &[8; 512])], 3)
}

#[test]
fn pieces_are_joined_by_their_first_vcn(rt: HostRuntime) -> Result<(), Fail> {
    let extents = clusters(rt.alloc())?;
    let expected = [run(0, Some(16), 2), run(2, None, 2), run(4, Some(32), 2)];
    assert_eq!(rt; extents.runs.as_slice(), expected.as_slice());
    assert_eq!(rt; (extents.allocated, extents.initialised), (3072, 900));
    assert_eq!(rt; real_size(&Stream::Placed(extents)), 600);
    Ok(())
}

#[test]
fn a_block_lies_in_one_run(rt: HostRuntime) -> Result<(), Fail> {
    let extents = clusters(rt.alloc())?;
    for (row, (per, kind, number, want)) in BLOCKS.iter().enumerate() {
        let runs = extents.runs.as_slice();
        let found = block_at(per_cluster(*per), runs, *kind, u64::from(*number));
        let block = want.map(|first| Block { first, kind: *kind });
        assert_eq!(rt; found, block, "row {row}");
    }
    Ok(())
}

#[test]
fn a_run_cuts_a_block(rt: HostRuntime) -> Result<(), Fail> {
    let extents = clusters(rt.alloc())?;
    for (row, (per, count, want)) in CUTS.iter().enumerate() {
        let runs = extents.runs.as_slice();
        let found = has_cut_block(per_cluster(*per), BlockKind::Index, *count, runs);
        assert_eq!(rt; found, *want, "row {row}");
    }
    Ok(())
}

#[test]
fn bytes_are_read_up_to_the_initialised_size(rt: HostRuntime) -> Result<(), Fail> {
    let mut view = view(rt.alloc())?;
    let mut body = Body::empty(rt.alloc())?;
    let extents = clusters(rt.alloc())?;
    let mut out = [9; 600];
    let filled = fill(
        &mut view,
        per_cluster(1),
        &extents,
        500,
        &mut body,
        &mut out,
    );
    let some = [out[11], out[12], out[399], out[400], out[599]];
    assert_eq!(rt; (filled, some), (Ok(()), [7, 8, 8, 0, 0]));
    let failed = fill(&mut view, per_cluster(1), &extents, 0, &mut body, &mut out);
    assert_eq!(rt; failed, Err(ViewFault::Fault));
    Ok(())
}

// Four bytes of a stream from a place on.
fn bytes_at(alloc: Global, name: &[u16], at: u64) -> Result<[u8; 4], Fail> {
    let mut view = view(alloc)?;
    let mut body = Body::empty(alloc)?;
    let mut out = [9; 4];
    match data(alloc, name)? {
        Some(stream) => front(&mut view, per_cluster(1), &stream, at, &mut body, &mut out)?,
        None => return Err("no stream".into()),
    }
    Ok(out)
}

#[test]
fn zeros_stand_behind_the_end(rt: HostRuntime) -> Result<(), Fail> {
    for (row, (name, at, want)) in FRONTS.iter().enumerate() {
        assert_eq!(rt; bytes_at(rt.alloc(), name, *at)?, *want, "row {row}");
    }
    Ok(())
}
