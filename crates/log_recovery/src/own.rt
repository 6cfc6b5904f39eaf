//! Whether a block has a sector of a log's pages, or of the blocks by which the log is found.
ghost use Rattle.std.specs.Prelude.{ℕ, ◌≡◌, ◌-◌, ◌^◌, ◌<◌, ◌≤◌, ◌++◌, Bool, false, true, nat_le, nat_lt, length, map, slice_index_or, OnOk, IfOk};
ghost use Rattle.std.specs.List.Sorted.{IsPermutation, IsNonDecreasingBy};
ghost use Rattle.log_reading.specs.disk_model.declared.block.Block.{Block as BlockOf};
ghost use Rattle.log_reading.specs.disk_model.Sectors.{sectors};
ghost use Rattle.log_recovery.specs.declared.own.Stretch.{Stretch as OneStretch};
ghost use Rattle.log_recovery.specs.Own.{is_own, stretch_of, stretches_in, stretch_at, counted, with_reach, AreSorted, StandFor};

use log_reading::{Block, Extent, LogPlace};
use std::alloc::{AllocError, Global};

/// Sectors one after the other.
#[derive(Clone, Copy, Debug, PartialEq, Eq)]
pub struct Stretch {
    /// The first one.
    pub first: u64,
    /// The last one; in a list that is searched, the last one of these and of all before them.
    pub reach: u64,
}

// So many sectors more, from this one on, that lie on a device, if there are any.
fn push_run(
    stretches: &mut Vec<Stretch>,
    device: u64,
    first: u64,
    count: u64,
) -> Result<(), AllocError>
    ensures { OnOk result (stretches.new.items ≡ stretches.old.items ++ stretch_of device first count) }
{
    let end = first.saturating_add(count).min(device);
    if first < end {
        stretches.push(Stretch {
            first,
            reach: end - 1,
        })?;
    }
    Ok(())
}

// The first sectors of these runs more, so many in all.
fn push_runs(
    stretches: &mut Vec<Stretch>,
    device: u64,
    sectors: u64,
    runs: &[Extent],
) -> Result<(), AllocError>
    ensures { OnOk result (stretches.new.items ≡ stretches.old.items ++ stretches_in device sectors runs.now) }
{
    let mut left = sectors;
    for run in runs {
        let count = run.sectors.min(left);
        push_run(stretches, device, run.first, count)?;
        left -= count;
    }
    Ok(())
}

// The sectors of these blocks more.
fn push_blocks(stretches: &mut Vec<Stretch>, blocks: &[Block]) -> Result<(), AllocError>
    ensures { OnOk result (stretches.new.items ≡ stretches.old.items ++ map stretch_at blocks.now) }
{
    for block in blocks {
        let more = block.kind.sectors() as u64 - 1;
        stretches.push(Stretch {
            first: block.first,
            reach: block.first.saturating_add(more),
        })?;
    }
    Ok(())
}

// How many sectors of a log's pages are initialised, each in part at least.
fn counted(place: &LogPlace) -> u64
    requires { place.now.pages < 2 ^ 52 }
    ensures { result ≡ counted place.now }
{
    (8 * place.pages).min(place.initialised.div_ceil(512))
}

// The stretches by rising first sector.
fn sort_stretches(stretches: &mut Vec<Stretch>)
    ensures rising { IsNonDecreasingBy (λ (s : OneStretch). s.first) stretches.new.items }
    ensures same { IsPermutation stretches.old.items stretches.new.items }
{
    stretches.sort_unstable_by_key(|stretch| stretch.first);
}

// The same, each reaching as far as any of those before it.
fn with_reach(alloc: Global, stretches: &[Stretch]) -> Result<Vec<Stretch>, AllocError>
    ensures { IfOk result (λ all. all.items ≡ with_reach 0 stretches.now) }
{
    let mut all = Vec::new(alloc);
    let mut most = 0;
    for stretch in stretches {
        most = stretch.reach.max(most);
        all.push(Stretch {
            first: stretch.first,
            reach: most,
        })?;
    }
    Ok(all)
}

/// The sectors of a log's pages and of the blocks by which it is found, to be searched. It takes
/// time near-linear in the runs and the blocks; the error is want of memory.
pub fn stretches_of(
    alloc: Global,
    place: &LogPlace,
    kept: &[Block],
) -> Result<Vec<Stretch>, AllocError>
    requires { place.now.pages < 2 ^ 52 }
    ensures sorted { IfOk result (λ all. AreSorted all.items) }
    ensures same { IfOk result (λ all. StandFor all.items (is_own place.now kept.now)) }
{
    let mut stretches = Vec::new(alloc);
    push_runs(
        &mut stretches,
        place.device,
        counted(place),
        place.runs.as_slice(),
    )?;
    push_blocks(&mut stretches, kept)?;
    sort_stretches(&mut stretches);
    with_reach(alloc, &stretches)
}

// How many stretches begin before the block ends.
fn count_before(stretches: &[Stretch], block: Block) -> usize
    requires { IsNonDecreasingBy (λ (s : OneStretch). s.first) stretches.now }
    ensures inside { result ≤ length stretches.now }
    ensures before { (k : ℕ) (d : OneStretch) → k < result → nat_lt ((slice_index_or stretches.now k d).first - block.first) (sectors block.kind) ≡ true }
    ensures behind { (k : ℕ) (d : OneStretch) → result ≤ k → k < length stretches.now → nat_lt ((slice_index_or stretches.now k d).first - block.first) (sectors block.kind) ≡ false }
{
    let first = block.first;
    let sectors = block.kind.sectors() as u64;
    stretches.partition_point(|stretch| stretch.first.saturating_sub(first) < sectors)
}

// Whether the last of so many stretches reaches to the block's first sector or further.
fn is_reached(stretches: &[Stretch], count: usize, block: Block) -> bool
    requires some { 0 < count }
    requires inside { count ≤ length stretches.now }
    ensures { (d : OneStretch) → result ≡ nat_le block.first (slice_index_or stretches.now (count - 1) d).reach }
{
    block.first <= stretches[count - 1].reach
}

/// Whether it is true of a block what the stretches stand for, in time logarithmic in their number.
pub fn is_met(stretches: &[Stretch], block: Block) -> bool
    requires { AreSorted stretches.now }
    ensures { (such : BlockOf → Bool) → StandFor stretches.now such → result ≡ such block }
{
    let count = count_before(stretches, block);
    if count == 0 {
        return false;
    }
    is_reached(stretches, count, block)
}
