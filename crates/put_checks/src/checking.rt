//! Changes, tried one after the other.
ghost use Rattle.std.specs.Prelude.{◌≡◌, ◌+◌, nat_lt};
ghost use Rattle.std.specs.List.{list_any, list_all};
ghost use Rattle.disk_model.specs.Sectors.{overlap};
ghost use Rattle.log_model.specs.Logs.{is_in_grid};
ghost use Rattle.put_checks.specs.Checks.{end_of, meets_run, lies_inside, lies_apart, fits_some, may_be_logged, are_in_row, may_put};

use disk_model::{Block, BlockKind, Change};
use log_page::{Extent, LogPlace};

// Whether the block begins where its kind may.
fn is_in_grid(block: Block) -> bool
    ensures { result ≡ is_in_grid block }
{
    match block.kind {
        BlockKind::Plain => true,
        BlockKind::FileRec => block.first % 2 == 0,
        BlockKind::Index => block.first % 8 == 0,
    }
}

// Whether so many sectors from the first one on have one of so many from the second one on.
fn begins_before(first: u64, count: u64, other: u64) -> bool
    ensures { result ≡ nat_lt other (first + count) }
{
    other < first || other - first < count
}

fn meets_run(block: Block, run: &Extent) -> bool
    ensures { result ≡ meets_run block run.now }
{
    let sectors = block.kind.sectors() as u64;
    run.sectors > 0
        && begins_before(run.first, run.sectors, block.first)
        && begins_before(block.first, sectors, run.first)
}

fn meets_log(block: Block, runs: &[Extent]) -> bool
    ensures { result ≡ list_any (meets_run block) runs.now }
{
    runs.iter().any(|run| meets_run(block, run))
}

fn overlap(block: Block, other: Block) -> bool
    ensures { result ≡ overlap block other }
{
    let sectors = block.kind.sectors() as u64;
    let others = other.kind.sectors() as u64;
    begins_before(other.first, others, block.first)
        && begins_before(block.first, sectors, other.first)
}

fn meets_found(block: Block, found: &[Block]) -> bool
    ensures { result ≡ list_any (overlap block) found.now }
{
    found.iter().any(|other| overlap(block, *other))
}

fn lies_inside(place: &LogPlace, block: Block) -> bool
    ensures { result ≡ lies_inside place.now block }
{
    let sectors = block.kind.sectors() as u64;
    is_in_grid(block)
        && block.first / 8 < place.clusters
        && sectors <= place.device
        && block.first <= place.device - sectors
}

fn lies_apart(place: &LogPlace, found: &[Block], block: Block) -> bool
    ensures { result ≡ lies_apart place.now found.now block }
{
    !meets_log(block, place.runs.as_slice()) && !meets_found(block, found)
}

fn fits_some(change: &Change) -> bool
    ensures { result ≡ fits_some change.now }
{
    let count = change.new.as_slice().len() as u64;
    let size = 512 * change.block.kind.sectors() as u64;
    0 < count
        && count == change.old.as_slice().len() as u64
        && count <= size
        && change.offset as u64 <= size - count
}

fn may_be_logged(place: &LogPlace, found: &[Block], change: &Change) -> bool
    ensures { result ≡ may_be_logged place.now found.now change.now }
{
    lies_inside(place, change.block) && lies_apart(place, found, change.block) && fits_some(change)
}

fn may_all_be_logged(place: &LogPlace, found: &[Block], changes: &[Change]) -> bool
    ensures { result ≡ list_all (may_be_logged place.now found.now) changes.now }
{
    changes
        .iter()
        .all(|change| may_be_logged(place, found, change))
}

// The sector behind the block, up to the last that has a number of 64 bits.
fn end_of(block: Block) -> u64
    ensures { result ≡ end_of block }
{
    block.first.saturating_add(block.kind.sectors() as u64)
}

// Whether no block begins before the one before it ends.
#[tactic(auto, unfolding(crate::specs::Checks::are_in_row))]
fn are_in_row(changes: &[Change]) -> bool
    ensures { result ≡ are_in_row 0 changes.now }
{
    let mut from = 0;
    for change in changes {
        if change.block.first < from {
            return false;
        }
        from = end_of(change.block);
    }
    true
}

/// Whether a store whose log lies so, and is found by these blocks, may be given the changes: each
/// brings some bytes inside the body of a block of the grid, which lies in the volume and on the
/// device and shares no sector with the log's runs or with these blocks; and no block begins before
/// the one before it ends. It takes no memory, and time linear in the changes, for each of them in
/// the runs of the log.
#[tactic(auto, unfolding(crate::specs::Checks::may_put))]
pub fn may_put(place: &LogPlace, found: &[Block], changes: &[Change]) -> bool
    ensures { result ≡ may_put place.now found.now changes.now }
{
    may_all_be_logged(place, found, changes) && are_in_row(changes)
}
