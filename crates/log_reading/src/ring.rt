//! Whether each page of a log may be written where it lies.
ghost use Rattle.std.specs.Prelude.{◌≡◌, ◌+◌, ◌-◌, ◌*◌, ◌^◌, ◌<◌, ◌≤◌, ◌++◌, ◌↔◌, [], true, min, nat_lt, OnOk, IfOk};
ghost use Rattle.std.specs.List.Sorted.{IsPermutation, IsNonDecreasingBy};
ghost use Rattle.log_page.specs.declared.places.Extent.{Extent as OneRun};
ghost use Rattle.log_reading.specs.Rings.{IsRingPlace};
ghost use Rattle.log_reading.specs.Rows.{with_run, front_runs, lies_next, goes_on, are_whole, are_apart, has_ring};

use log_page::{Extent, LogPlace};
use std::alloc::{AllocError, Global};

// One run more, if it has sectors.
fn push_run(parts: &mut Vec<Extent>, first: u64, sectors: u64) -> Result<(), AllocError>
    ensures { OnOk result (parts.new.items ≡ parts.old.items ++ with_run first sectors []) }
{
    if sectors > 0 {
        parts.push(Extent { first, sectors })?;
    }
    Ok(())
}

// The sectors of the runs up to so many, without the empty runs.
fn front_runs(alloc: Global, runs: &[Extent], sectors: u64) -> Result<Vec<Extent>, AllocError>
    ensures { IfOk result (λ parts. parts.items ≡ front_runs runs.now sectors) }
{
    let mut parts = Vec::new(alloc);
    let mut left = sectors;
    for run in runs {
        let count = run.sectors.min(left);
        push_run(&mut parts, run.first, count)?;
        left -= count;
    }
    Ok(parts)
}

// Whether a run may begin in a sector where so many sectors of whole pages are left: where a page
// begins, in the first of a cluster, and else where the run before it ends.
fn lies_next(first: u64, left: u64, end: u64) -> bool
    ensures { result ≡ lies_next left end first }
{
    if left % 8 == 0 {
        first % 8 == 0
    } else {
        first == end
    }
}

// Whether a run may go on like this, and lies below a limit.
#[tactic(auto, unfolding(crate::specs::Rows::goes_on))]
fn goes_on(run: &Extent, left: u64, end: u64, limit: u64) -> bool
    ensures value { result ≡ goes_on limit left end run.now }
    ensures few { result ≡ true → run.now.sectors ≤ left }
    ensures inside { result ≡ true → run.now.first + run.now.sectors ≤ limit }
{
    run.sectors <= left
        && lies_next(run.first, left, end)
        && run.first <= limit
        && run.sectors <= limit - run.first
}

// Whether runs that have sectors are whole pages, so many sectors in all, below a limit.
fn are_whole(runs: &[Extent], sectors: u64, limit: u64) -> bool
    ensures { result ≡ are_whole limit sectors 0 runs.now }
{
    let mut left = sectors;
    let mut end = 0;
    for run in runs {
        if !goes_on(run, left, end, limit) {
            return false;
        }
        left -= run.sectors;
        end = run.first + run.sectors;
    }
    left == 0
}

// Whether a run begins before the end of one with these sectors, which doesn't begin after it.
fn is_before(run: &Extent, first: u64, sectors: u64) -> bool
    ensures { result ≡ nat_lt (run.now.first - first) sectors }
{
    run.first.saturating_sub(first) < sectors
}

// Whether no run begins before the end of the one before it.
fn are_apart(runs: &[Extent]) -> bool
    ensures { result ≡ are_apart 0 0 runs.now }
{
    let mut first = 0;
    let mut sectors = 0;
    for run in runs {
        if is_before(run, first, sectors) {
            return false;
        }
        first = run.first;
        sectors = run.sectors;
    }
    true
}

// The runs by rising first sector.
fn sort_runs(runs: &mut Vec<Extent>)
    ensures rising { IsNonDecreasingBy (λ (r : OneRun). r.first) runs.new.items }
    ensures same { IsPermutation runs.old.items runs.new.items }
{
    runs.sort_unstable_by_key(|run| run.first);
}

// Whether a log has pages of a ring, of a number and of bytes with 64 bits, and all of them are
// initialised.
fn has_ring(place: &LogPlace) -> bool
    ensures value { result ≡ has_ring place.now }
    ensures small { result ≡ true → place.now.pages < 2 ^ 52 }
{
    4 < place.pages && place.pages < 1 << 52 && 4096 * place.pages <= place.initialised
}

// The sectors of the device that are the volume's too.
fn sector_limit(place: &LogPlace) -> u64
    ensures { result ≡ min place.now.device (8 * place.now.clusters) }
{
    place.device.min(place.clusters.saturating_mul(8))
}

/// Whether each page of a log may be written where it lies, and is then read back. There are more
/// than four pages, and fewer than 2^52; all of them are initialised; the eight sectors of each lie
/// in a row on the device, in one cluster of the volume; and no two share a sector.
///
/// The error is want of memory. Time is near-linear in the runs, and memory linear in them.
pub fn is_ring_place(alloc: Global, place: &LogPlace) -> Result<bool, AllocError>
    ensures { IfOk result (λ is. (is ≡ true) ↔ IsRingPlace place.now) }
{
    if !has_ring(place) {
        return Ok(false);
    }
    let sectors = 8 * place.pages;
    let mut parts = front_runs(alloc, place.runs.as_slice(), sectors)?;
    if !are_whole(&parts, sectors, sector_limit(place)) {
        return Ok(false);
    }
    sort_runs(&mut parts);
    Ok(are_apart(&parts))
}
