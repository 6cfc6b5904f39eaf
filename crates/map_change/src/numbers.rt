//! The blocks of a stream that changes may be of, by their places.
ghost use Rattle.std.specs.Prelude.{◌≡◌, ◌++◌, ◌/◌, [], IfOk, OnOk};
ghost use Rattle.std.specs.List.{cons_option, filter_map, flat_map};
ghost use Rattle.volume_map.specs.volume_model.Owners.{covers};
ghost use Rattle.map_change.specs.Touching.{number_at, numbers_of, touched_numbers};

use disk_model::{Block, BlockKind, Change};
use std::alloc::{AllocError, Global};
use volume_map::{ClusterSize, Run};

// Whether the run has this cluster.
fn covers(cluster: u64, run: &Run) -> bool
    ensures { result ≡ covers cluster run.now }
{
    match run.lcn {
        Some(lcn) => lcn <= cluster && cluster - lcn < run.len,
        None => false,
    }
}

// The place, below so many of its size, at which a stream would have the block by this run.
#[tactic(auto, unfolding(crate::specs::Touching::number_at))]
fn number_at(per: ClusterSize, count: u64, block: Block, run: &Run) -> Option<u64>
    ensures { result ≡ number_at per count block run.now }
{
    let per = per.sectors();
    if !covers(block.first / per, run) {
        return None;
    }
    let lcn = run.lcn?;
    let place = u128::from(run.vcn) * u128::from(per) + u128::from(block.first);
    let sectors = place.saturating_sub(u128::from(lcn) * u128::from(per));
    let number = sectors / block.kind.sectors() as u128;
    if number < u128::from(count) {
        Some(number as u64)
    } else {
        None
    }
}

fn push_some(numbers: &mut Vec<u64>, number: Option<u64>) -> Result<(), AllocError>
    ensures { OnOk result (numbers.new.items ≡ numbers.old.items ++ cons_option number []) }
{
    if let Some(number) = number {
        numbers.push(number)?;
    }
    Ok(())
}

// Appends the places at which a stream with these runs may have the block.
fn push_block(
    per: ClusterSize,
    count: u64,
    runs: &[Run],
    block: Block,
    numbers: &mut Vec<u64>,
) -> Result<(), AllocError>
    ensures { OnOk result (numbers.new.items ≡ numbers.old.items ++ filter_map (number_at per count block) runs.now) }
{
    for run in runs {
        push_some(numbers, number_at(per, count, block, run))?;
    }
    Ok(())
}

// The same of a change's block, where that is of this kind.
#[tactic(auto, unfolding(crate::specs::Touching::numbers_of))]
fn push_change(
    kind: BlockKind,
    per: ClusterSize,
    count: u64,
    runs: &[Run],
    change: &Change,
    numbers: &mut Vec<u64>,
) -> Result<(), AllocError>
    ensures { OnOk result (numbers.new.items ≡ numbers.old.items ++ numbers_of kind per count runs.now change.now) }
{
    if change.block.kind == kind {
        push_block(per, count, runs, change.block, numbers)?;
    }
    Ok(())
}

/// The places below a count, in the size of a block of this kind, at which a stream with these runs
/// may have the blocks of changes, in the order of these. It takes time linear in the changes, for
/// each of them in the runs.
#[tactic(auto, unfolding(crate::specs::Touching::touched_numbers))]
pub fn touched_numbers(
    alloc: Global,
    kind: BlockKind,
    per: ClusterSize,
    count: u64,
    runs: &[Run],
    changes: &[Change],
) -> Result<Vec<u64>, AllocError>
    ensures { IfOk result (λ numbers. numbers.items ≡ touched_numbers kind per count runs.now changes.now) }
{
    let mut numbers = Vec::new(alloc);
    for change in changes {
        push_change(kind, per, count, runs, change, &mut numbers)?;
    }
    Ok(numbers)
}
