//! Blocks as keys: which were met, and where they stand in a list of recovered blocks.
ghost use Rattle.std.specs.Prelude.{◌≡◌, ◌||◌, not, if◌then◌else◌, Some, IfOk, OnOk};
ghost use Rattle.std.specs.Option.{option_copied};
ghost use Rattle.std.specs.BTreeMap.{get};
ghost use Rattle.std.specs.BTreeSet.{contains};
ghost use Rattle.log_reading.specs.disk_model.declared.block.Block.{Block as BlockOf};
ghost use Rattle.log_reading.specs.disk_model.Sectors.{same_block};
ghost use Rattle.log_recovery.specs.Recovering.{held_body};
ghost use Rattle.log_recovery.specs.Places.{kind_number, key_of, key_order, HasPlaces, body_at};

use crate::found::{RecoveredBlock, RecoveredBody};
use log_reading::{Block, BlockKind};
use std::alloc::{AllocError, Global};
use std::collections::{BTreeMap, BTreeSet};

/// The places of blocks in a list, by their first sectors and the numbers of their kinds.
pub type Places = BTreeMap<(u64, u8), usize>;

/// The blocks that were met, by the same keys.
pub type Met = BTreeSet<(u64, u8)>;

fn kind_number(kind: BlockKind) -> u8
    ensures { result ≡ kind_number kind }
{
    match kind {
        BlockKind::Plain => 0,
        BlockKind::FileRec => 1,
        BlockKind::Index => 2,
    }
}

fn key_of(block: Block) -> (u64, u8)
    ensures { result ≡ key_of block }
{
    (block.first, kind_number(block.kind))
}

/// Meets a block, in time logarithmic in their number: whether for the first time. The error is
/// want of memory.
pub fn meet(met: &mut Met, block: Block) -> Result<bool, AllocError>
    ensures first { IfOk result (λ first. first ≡ not (contains key_order met.old (key_of block))) }
    ensures met { OnOk result ((b : BlockOf) → contains key_order met.new (key_of b) ≡ (contains key_order met.old (key_of b) || same_block b block)) }
{
    Ok(met.insert(key_of(block))?)
}

/// Whether a block was met, in time logarithmic in their number.
pub fn was_met(met: &Met, block: Block) -> bool
    ensures { result ≡ contains key_order met.now (key_of block) }
{
    met.contains(&key_of(block))
}

// One block more, in place of an equal one.
fn put(places: &mut Places, block: Block, place: usize) -> Result<(), AllocError>
    ensures { OnOk result ((b : BlockOf) → get key_order places.new (key_of b) ≡ (if same_block b block then Some place else get key_order places.old (key_of b))) }
{
    places.insert(key_of(block), place)?;
    Ok(())
}

/// The places of the blocks in this list, of equal ones the first. It takes near-linear time; the
/// error is want of memory.
pub fn places_of(alloc: Global, bodies: &[RecoveredBlock]) -> Result<Places, AllocError>
    ensures { IfOk result (HasPlaces bodies.now) }
{
    let mut places = BTreeMap::new(alloc);
    let count = bodies.len();
    for done in 0..count {
        let last = count - 1 - done;
        put(&mut places, bodies[last].block, last)?;
    }
    Ok(places)
}

fn place_at(places: &Places, block: Block) -> Option<usize>
    ensures { result ≡ get key_order places.now (key_of block) }
{
    places.get(&key_of(block)).copied()
}

fn body_at(bodies: &[RecoveredBlock], place: Option<usize>) -> Option<&RecoveredBody>
    ensures { option_copied result ≡ body_at bodies.now place }
{
    match place {
        Some(i) => match bodies.get(i) {
            Some(recovered) => Some(&recovered.body),
            None => None,
        },
        None => None,
    }
}

/// The body that is held of a block, in time logarithmic in the number of blocks.
pub fn body_in<'a>(
    bodies: &'a [RecoveredBlock],
    places: &Places,
    block: Block,
) -> Option<&'a RecoveredBody>
    requires { HasPlaces bodies.now places.now }
    ensures { option_copied result ≡ held_body bodies.now block }
{
    body_at(bodies, place_at(places, block))
}
