//! The blocks that recovery makes and a mount may not write out.
ghost use Rattle.std.specs.Prelude.{◌≡◌, ◌||◌, ◌&&◌, Bool, All, OnOk, IfOk, IfErr, IfSome};
ghost use Rattle.std.specs.BTreeSet.{contains};
ghost use Rattle.log_reading.specs.disk_model.declared.block.Block.{Block as BlockOf};
ghost use Rattle.log_reading.specs.disk_model.Sectors.{same_block};
ghost use Rattle.log_reading.specs.block_view.Views.{AsksView};
ghost use Rattle.log_reading.specs.LogPages.{IsLogPlace};
ghost use Rattle.log_reading.specs.Views.{NeverForeign, recovery_cause};
ghost use Rattle.log_recovery.specs.Places.{key_of, key_order};
ghost use Rattle.log_recovery.specs.Recovering.{IsSized};
ghost use Rattle.log_recovery.specs.Own.{is_own, AreSorted, StandFor};
ghost use Rattle.log_recovery.specs.Writing.{bars, is_barred_among, HasBarred, updates_such, first_update};

use crate::found::RecoveredBlock;
use crate::own::{Stretch, is_met, stretches_of};
use crate::places::{Met, meet, was_met};
use crate::updates::block_of_kind;
use device_view::has_spelling;
use log_model::{Act, Entry};
use log_reading::{Block, Body, LogPlace, RecoveryFault, View};
use std::alloc::{AllocError, Global};
use std::collections::BTreeSet;

// Whether a body that was made may not be written out. The view is asked only where no bytes of a
// disk stand for the body; `room` is for what it answers.
fn is_barred<V: View>(
    view: &mut V,
    own: &[Stretch],
    made: &RecoveredBlock,
    room: &mut Body,
) -> Result<bool, RecoveryFault>
    requires sized { IsSized made.now }
    requires own { AreSorted own.now }
    ensures barred { (such : BlockOf → Bool) → StandFor own.now such → IfSome (V.content view.old) (λ c. IfOk result (λ is. is ≡ bars such c made.now.block made.now.body)) }
    ensures never { IfErr result NeverForeign }
    ensures kept { AsksView V.content V.kept V.faults recovery_cause view.old view.new result }
{
    let block = made.block;
    if has_spelling(block.kind, made.body.bytes()) {
        return Ok(is_met(own, block));
    }
    view.body(block, room)?;
    Ok(made.body.bytes() != room.bytes())
}

// One block more, where it is barred.
fn note(met: &mut Met, block: Block, barred: bool) -> Result<(), AllocError>
    ensures { OnOk result ((b : BlockOf) → contains key_order met.new (key_of b) ≡ (contains key_order met.old (key_of b) || (same_block b block && barred))) }
{
    if barred {
        meet(met, block)?;
    }
    Ok(())
}

// The blocks among these that may not be written out, where the log's own sectors are these.
fn barred_among<V: View>(
    alloc: Global,
    view: &mut V,
    own: &[Stretch],
    bodies: &[RecoveredBlock],
) -> Result<Met, RecoveryFault>
    requires sized { All IsSized bodies.now }
    requires own { AreSorted own.now }
    ensures barred { (such : BlockOf → Bool) → StandFor own.now such → IfSome (V.content view.old) (λ c. IfOk result (HasBarred (is_barred_among such c bodies.now))) }
    ensures never { IfErr result NeverForeign }
    ensures kept { AsksView V.content V.kept V.faults recovery_cause view.old view.new result }
{
    let mut room = Body::empty(alloc)?;
    let mut met = BTreeSet::new(alloc);
    for made in bodies {
        let barred = is_barred(view, own, made, &mut room)?;
        note(&mut met, made.block, barred)?;
    }
    Ok(met)
}

/// The blocks among these that a mount may not write out: those that have a sector of the log or of
/// the blocks by which it is found, and those whose bodies no bytes of a disk stand for, but for
/// bodies whose bytes are the disk's own.
///
/// - [`RecoveryFault::Fault`]: the view failed. The other error is want of memory.
///
/// It takes time near-linear in the log's runs and in the blocks, and linear in their bytes. The
/// view is asked for a block only where no bytes of a disk stand for its body.
pub fn barred_blocks<V: View>(
    alloc: Global,
    view: &mut V,
    place: &LogPlace,
    kept: &[Block],
    bodies: &[RecoveredBlock],
) -> Result<Met, RecoveryFault>
    requires place { IsLogPlace place.now }
    requires sized { All IsSized bodies.now }
    ensures barred { IfSome (V.content view.old) (λ c. IfOk result (HasBarred (is_barred_among (is_own place.now kept.now) c bodies.now))) }
    ensures never { IfErr result NeverForeign }
    ensures kept { AsksView V.content V.kept V.faults recovery_cause view.old view.new result }
{
    let own = stretches_of(alloc, place, kept)?;
    barred_among(alloc, view, &own, bodies)
}

// Whether it is an update of one of these blocks.
fn updates_met(met: &Met, act: &Act) -> bool
    ensures { result ≡ updates_such (λ b. contains key_order met.now (key_of b)) act.now }
{
    match act {
        Act::Update { first, kind, .. } => was_met(met, block_of_kind(*first, *kind)),
        Act::Commit => false,
    }
}

/// The LSN of the first update of one of these blocks. It takes near-linear time.
pub fn first_update(met: &Met, entries: &[Entry]) -> Option<u64>
    ensures { result ≡ first_update (λ b. contains key_order met.now (key_of b)) entries.now }
{
    for entry in entries {
        if updates_met(met, &entry.act) {
            return Some(entry.lsn);
        }
    }
    None
}
