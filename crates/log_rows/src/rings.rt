//! Whether each page of a log may be written where it lies.
use log_page::{Extent, LogRuns};
use log_reading::{LogPlace, is_ring_place};
use std::alloc::{AllocError, Global};
use std::process::Abort;
use std::test::Fail;

// The bytes of five pages.
const FIVE: u64 = 5 * 4096;

// The pages of a log, how many of its bytes are initialised, the sectors of the device, and the
// clusters of the volume.
type Sizes = (u64, u64, u64, u64);

// A log's runs by their first sectors and their sizes, its sizes, and whether its pages may be
// written.
type Row<'a> = (&'a [(u64, u64)], Sizes, bool);

fn runs_of(alloc: Global, runs: &[(u64, u64)]) -> Result<Vec<Extent>, AllocError> {
    let mut extents = Vec::new(alloc);
    for (first, sectors) in runs {
        let first = *first;
        let sectors = *sectors;
        extents.push(Extent { first, sectors })?;
    }
    Ok(extents)
}

fn place(runs: Vec<Extent>, sizes: Sizes) -> LogPlace {
    let (pages, initialised, device, clusters) = sizes;
    LogPlace {
        runs: LogRuns::from(runs),
        initialised,
        pages,
        clusters,
        device,
    }
}

// Asserts that the pages of each log may be written, or may not, as its row says.
fn may_write<R: Abort + AllocGlobal>(rt: &R, rows: &[Row]) -> Result<(), Fail> {
    let alloc = rt.alloc();
    for (runs, sizes, wanted) in rows {
        let place = place(runs_of(alloc, runs)?, *sizes);
        assert_eq!(rt;
            is_ring_place(alloc, &place)?,
            *wanted,
            "{runs:?} {sizes:?}"
        );
    }
    Ok(())
}

#[test]
fn pages_in_rows(rt: HostRuntime) -> Result<(), Fail> {
    let rows: &[Row] = &[
        (&[(16, 40)], (5, FIVE, 56, 7), true),
        (&[(16, 8 * 513)], (513, 513 * 4096, 5000, 600), true),
        (&[(48, 24), (16, 16)], (5, FIVE, 72, 9), true),
        (&[(16, 24), (3, 0), (40, 16)], (5, FIVE, 56, 7), true),
        (&[(16, 20), (36, 20)], (5, FIVE, 56, 7), true),
        (&[(16, 40), (16, 40)], (5, FIVE, 56, 7), true),
        (&[(16, 40)], (5, u64::MAX, u64::MAX, u64::MAX), true),
    ];
    may_write(&rt, rows)
}

#[test]
fn pages_that_lie_otherwise(rt: HostRuntime) -> Result<(), Fail> {
    let rows: &[Row] = &[
        (&[(16, 32)], (4, 4 * 4096, 56, 7), false),
        (&[(16, 40)], (5, FIVE - 1, 56, 7), false),
        (&[(16, 40)], (5, FIVE, 55, 7), false),
        (&[(16, 40)], (5, FIVE, 56, 6), false),
        (&[(16, 39)], (5, FIVE, 56, 7), false),
        (&[(20, 40)], (5, FIVE, 60, 8), false),
        (&[(16, 20), (40, 20)], (5, FIVE, 60, 8), false),
        (&[(16, 24), (32, 16)], (5, FIVE, 60, 8), false),
        (&[(u64::MAX - 7, 40)], (5, FIVE, u64::MAX, u64::MAX), false),
        (
            &[(0, u64::MAX)],
            (1 << 52, u64::MAX, u64::MAX, u64::MAX),
            false,
        ),
    ];
    may_write(&rt, rows)
}

// A run of eight sectors for each of 513 pages, from the last one to the first.
fn runs_backwards(alloc: Global) -> Result<Vec<Extent>, AllocError> {
    let mut runs = Vec::new(alloc);
    for page in 0..513 {
        let first = 16 * (513 - page);
        runs.push(Extent { first, sectors: 8 })?;
    }
    Ok(runs)
}

#[test]
fn a_run_for_each_page(rt: HostRuntime) -> Result<(), Fail> {
    let alloc = rt.alloc();
    let place = place(runs_backwards(alloc)?, (513, 513 * 4096, 9000, 1125));
    assert!(rt; is_ring_place(alloc, &place)?);
    Ok(())
}
