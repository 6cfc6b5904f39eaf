//! Runs, clusters and bits at their bounds.
ghost use Rattle.std.specs.Prelude.{◌<◌, IfSome};
ghost use Rattle.record_model.specs.Pairs.{cluster_limit};

use host_base::Bytes;
use planned_streams::{Extents, Runs, Stream, has_bits, have_spelling, may_grow};
use record_model::Run;
use std::alloc::Global;
use std::test::Fail;

// The most clusters of a volume, of a stream that may grow, and the most runs of one; and the first
// size that is too large for it.
const CLUSTERS: u64 = 0x1_0000_0000;

const FEWER: u64 = CLUSTERS - 2048;

const RUNS: u32 = 63_488;

const SIZE: u64 = 0x8000_0000;

// The first VCN of a run, its first cluster, if it isn't sparse, and its clusters.
type Piece = (u64, Option<u32>, u64);

static SPELLED: [(&[Piece], bool); 14] = [
    (&[], true),
    (&[(0, Some(5), 1)], true),
    (&[(1, Some(5), 1)], false),
    (&[(0, Some(5), 0)], false),
    (&[(0, None, 1)], true),
    (&[(0, Some(0xFFFF_FFFF), 1)], true),
    (&[(0, Some(5), 2), (2, Some(9), 1)], true),
    (&[(0, Some(5), 2), (3, Some(9), 1)], false),
    (&[(0, Some(5), 2), (1, Some(9), 1)], false),
    (&[(0, Some(5), 2), (2, None, 0)], false),
    (&[(0, None, CLUSTERS)], true),
    (&[(0, None, CLUSTERS - 1), (CLUSTERS - 1, Some(0), 1)], true),
    (&[(0, None, CLUSTERS - 1), (CLUSTERS - 1, None, 2)], false),
    (&[(0, None, CLUSTERS), (CLUSTERS, Some(0), 1)], false),
];

// A volume's clusters, a stream's run, and its real and initialised size; and whether it may grow.
struct Grows(u64, Piece, u64, u64, bool);

// The last cluster of four from 5 on is 8.
static GROWING: [Grows; 11] = [
    Grows(9, (0, Some(5), 4), 16_384, 16_384, true),
    Grows(8, (0, Some(5), 4), 16_384, 16_384, false),
    Grows(0, (0, None, 4), 16_384, 16_384, true),
    Grows(9, (0, Some(5), 4), SIZE - 1, 0, true),
    Grows(9, (0, Some(5), 4), SIZE, 0, false),
    Grows(9, (0, Some(5), 4), 0, SIZE - 1, true),
    Grows(9, (0, Some(5), 4), 0, SIZE, false),
    Grows(9, (0, None, FEWER), 0, 0, true),
    Grows(9, (0, None, FEWER + 1), 0, 0, false),
    Grows(9, (1, Some(5), 4), 0, 0, false),
    Grows(9, (0, Some(5), 0), 0, 0, false),
];

// The real size of a bitmap in clusters, how many bits are asked for, and whether it has them.
static BITS: [(u64, u64, bool); 6] = [
    (0, 0, true),
    (0, 1, false),
    (3, 24, true),
    (3, 25, false),
    (u64::MAX / 8, u64::MAX - 7, true),
    (u64::MAX, u64::MAX, true),
];

fn first_cluster(piece: Piece) -> Option<u64>
    ensures { IfSome result (λ lcn. lcn < cluster_limit) }
{
    match piece.1 {
        Some(lcn) => Some(u64::from(lcn)),
        None => None,
    }
}

fn add(runs: &mut Runs, piece: Piece) -> Result<(), Fail> {
    runs.push(Run {
        vcn: piece.0,
        lcn: first_cluster(piece),
        len: piece.2.min(CLUSTERS),
    })?;
    Ok(())
}

fn runs_of(alloc: Global, pieces: &[Piece]) -> Result<Runs, Fail> {
    let mut runs = Runs::new(alloc);
    for piece in pieces {
        add(&mut runs, *piece)?;
    }
    Ok(runs)
}

// So many runs of a cluster each, all of them sparse.
fn single(alloc: Global, count: u32) -> Result<Runs, Fail> {
    let mut runs = Runs::new(alloc);
    for vcn in 0..count {
        add(&mut runs, (u64::from(vcn), None, 1))?;
    }
    Ok(runs)
}

fn extents(runs: Runs, real: u64, initialised: u64) -> Extents {
    Extents {
        runs,
        allocated: 0,
        real,
        initialised,
    }
}

fn grows_so(alloc: Global, row: &Grows) -> Result<bool, Fail> {
    let stream = extents(runs_of(alloc, &[row.1])?, row.2, row.3);
    Ok(may_grow(row.0, &stream) == row.4)
}

// Whether a stream in so many runs may grow.
fn may_grow_in(alloc: Global, count: u32) -> Result<bool, Fail> {
    let stream = extents(single(alloc, count)?, 0, 0);
    Ok(may_grow(0, &stream))
}

#[test]
fn runs_follow_one_another(rt: HostRuntime) -> Result<(), Fail> {
    for (i, (pieces, spelled)) in SPELLED.iter().enumerate() {
        let runs = runs_of(rt.alloc(), pieces)?;
        assert!(rt; have_spelling(&runs) == *spelled, "row {i}");
    }
    Ok(())
}

#[test]
fn a_stream_may_grow(rt: HostRuntime) -> Result<(), Fail> {
    for (i, row) in GROWING.iter().enumerate() {
        assert!(rt; grows_so(rt.alloc(), row)?, "row {i}");
    }
    assert!(rt; may_grow_in(rt.alloc(), RUNS)?);
    assert!(rt; !may_grow_in(rt.alloc(), RUNS + 1)?);
    Ok(())
}

#[test]
fn a_bitmap_has_bits(rt: HostRuntime) -> Result<(), Fail> {
    for (real, count, has) in &BITS {
        let placed = Stream::Placed(extents(Runs::new(rt.alloc()), *real, 0));
        assert!(rt;
            has_bits(&placed, *count) == *has,
            "{real} bytes, {count} bits"
        );
    }
    for (count, has) in [(0, true), (16, true), (17, false)] {
        let held = Stream::Held(Bytes::copy_of(rt.alloc(), &[0xFF, 0xFF])?);
        assert!(rt; has_bits(&held, count) == has, "{count} bits");
    }
    Ok(())
}
