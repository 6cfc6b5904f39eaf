//! Runs that share a cluster, and runs that the bitmap leaves out.
use record_model::DATA;
use std::alloc::{AllocError, Global};
use std::test::Fail;
use stream_rules::{BitSet, Run, first_shared, first_unmarked, volume_runs};
use volume_images::{Kept, Part, put_file, record, run};

// Runs as first cluster and length, how many clusters there are, and the least shared one.
struct SharedRow(&'static [(u64, u64)], u64, Option<u64>);

static SHARED: [SharedRow; 9] = [
    SharedRow(&[], 100, None),
    SharedRow(&[(12, 3), (10, 2)], 100, None),
    SharedRow(&[(12, 3), (10, 3)], 100, Some(12)),
    SharedRow(&[(10, 10), (30, 1), (12, 2)], 100, Some(12)),
    SharedRow(&[(40, 4), (5, 1), (41, 1), (5, 1)], 100, Some(5)),
    SharedRow(&[(30, 10), (32, 4)], 33, Some(32)),
    SharedRow(&[(30, 10), (32, 4)], 32, None),
    SharedRow(&[(10, 10), (12, 0)], 100, None),
    SharedRow(
        &[(u64::MAX - 1, u64::MAX), (3, u64::MAX)],
        u64::MAX,
        Some(u64::MAX - 1),
    ),
];

// Runs, and the least cluster of theirs whose bit is clear, where those of 1, 2 and 5 of 8 are set.
struct UnmarkedRow(&'static [(u64, u64)], Option<u64>);

static UNMARKED: [UnmarkedRow; 7] = [
    UnmarkedRow(&[], None),
    UnmarkedRow(&[(5, 1), (1, 2), (2, 1)], None),
    UnmarkedRow(&[(5, 1), (1, 3)], Some(3)),
    UnmarkedRow(&[(4, 2), (0, 1)], Some(0)),
    UnmarkedRow(&[(7, u64::MAX), (1, 2), (5, 2)], Some(6)),
    UnmarkedRow(&[(8, 5), (9, 0)], None),
    UnmarkedRow(&[(0, 0), (2, 9)], Some(3)),
];

fn runs_of(alloc: Global, places: &[(u64, u64)]) -> Result<Vec<Run>, AllocError> {
    let mut runs = Vec::new(alloc);
    runs.push(run(0, None, 9))?;
    for (first, len) in places {
        runs.push(run(0, Some(*first), *len))?;
    }
    Ok(runs)
}

#[test]
fn runs_that_share_a_cluster(rt: HostRuntime) -> Result<(), Fail> {
    for (number, SharedRow(places, clusters, want)) in SHARED.iter().enumerate() {
        let runs = runs_of(rt.alloc(), places)?;
        let found = first_shared(rt.alloc(), runs.as_slice(), *clusters)?;
        assert_eq!(rt; found, *want, "row {number}");
    }
    Ok(())
}

#[test]
fn runs_that_are_not_marked(rt: HostRuntime) -> Result<(), Fail> {
    let bits = BitSet::from_bytes(rt.alloc(), [0b0010_0110].as_slice(), 8)?;
    for (number, UnmarkedRow(places, want)) in UNMARKED.iter().enumerate() {
        let runs = runs_of(rt.alloc(), places)?;
        let found = first_unmarked(rt.alloc(), runs.as_slice(), &bits)?;
        assert_eq!(rt; found, *want, "row {number}");
    }
    Ok(())
}

fn long_runs(alloc: Global) -> Result<Vec<Run>, AllocError> {
    let mut runs = Vec::new(alloc);
    for first in 0..100_000 {
        runs.push(run(0, Some(first), u64::MAX))?;
    }
    Ok(runs)
}

// With a pass over the bits for each run this would take hours.
#[test]
fn many_long_runs_take_no_time(rt: HostRuntime) -> Result<(), Fail> {
    let none: [u8; 0] = [];
    let count = 1 << 26;
    let mut bits = BitSet::from_bytes(rt.alloc(), none.as_slice(), count)?;
    assert_eq!(rt; bits.bits(), count);
    bits.set_run(0, count);
    let runs = long_runs(rt.alloc())?;
    let unmarked = first_unmarked(rt.alloc(), runs.as_slice(), &bits)?;
    let shared = first_shared(rt.alloc(), runs.as_slice(), count)?;
    assert_eq!(rt; (unmarked, shared), (None, Some(1)));
    Ok(())
}

// A file of runs, a value and mapping pairs that are cut; and one of nothing.
#[test]
fn runs_of_all_files(rt: HostRuntime) -> Result<(), Fail> {
    let sizes = (0, 0, 0);
    let parts = [
        Part(DATA, 0, &[], Kept::Pairs(4, sizes, b"\x11\x02\x20\0")),
        Part(DATA, 0, &[], Kept::Value(b"abc")),
        Part(DATA, 0, &[], Kept::Pairs(0, sizes, b"\x11\x02")),
        Part(
            DATA,
            0,
            &[],
            Kept::Pairs(0, sizes, b"\x11\x02\x10\x01\x02\0"),
        ),
    ];
    let mut files = Vec::new(rt.alloc());
    put_file(&mut files, 1, record(rt.alloc(), (1, 0, 1), &parts)?)?;
    put_file(&mut files, 2, record(rt.alloc(), (2, 0, 1), &[])?)?;
    let runs = volume_runs(rt.alloc(), &files)?;
    let wanted = [run(4, Some(32), 2), run(0, Some(16), 2), run(2, None, 2)];
    assert_eq!(rt; runs.as_slice(), wanted.as_slice());
    Ok(())
}
