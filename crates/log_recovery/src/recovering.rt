//! Recovery: the bodies block by block, in the order of their first updates, and the shadowed
//! blocks.
ghost use Rattle.std.specs.Prelude.{◌≡◌, ◌+◌, ◌<◌, ◌++◌, ◌∷◌, [], All, OnOk, IfOk, IfSome, IfErr, length, take};
ghost use Rattle.std.specs.Ordering.{nat_cmp};
ghost use Rattle.std.specs.BTreeSet.{contains};
ghost use Rattle.log_model.specs.Logs.{IsLevel, is_ended};
ghost use Rattle.log_reading.specs.block_view.Views.{AsksView};
ghost use Rattle.log_reading.specs.Views.{recovery_cause};
ghost use Rattle.log_recovery.specs.Blocks.{Lies};
ghost use Rattle.log_recovery.specs.Groups.{HasGroups};
ghost use Rattle.log_recovery.specs.Places.{HasMet};
ghost use Rattle.log_recovery.specs.Recovering.{Recovers, IsSized};
ghost use Rattle.log_recovery.specs.Finding.{Adds, Found, Refuses, IsFirstPartial, IsSizedFor, RecoversPlaced};

use crate::ended::{Ended, ended_of};
use crate::found::{Judged, RecoveredBlock, RecoveredBlocks};
use crate::groups::{Groups, group_at, groups_of};
use crate::judging::judge;
use crate::places::{Met, meet};
use crate::shadowing::shadows_of;
use crate::updates::update_block;
use crate::walks::misplaced;
use log_model::Entry;
use log_reading::{Block, Body, LogRefusal, RecoveryFault, View};
use std::alloc::{AllocError, Global};
use std::collections::BTreeSet;

/// A log, with the transactions that are ended in it and its groups.
#[derive(Drop)]
struct IndexedLog<'a> {
    entries: &'a [Entry],
    ended: Ended,
    groups: Groups<'a>,
}

fn push_body(bodies: &mut Vec<RecoveredBlock>, body: RecoveredBlock) -> Result<(), AllocError>
    ensures { OnOk result (bodies.new.items ≡ bodies.old.items ++ body ∷ []) }
{
    bodies.push(body)?;
    Ok(())
}

// One block more, whose first update has this LSN.
fn add(
    bodies: &mut Vec<RecoveredBlock>,
    block: Block,
    judged: Judged,
    lsn: u64,
) -> Result<(), RecoveryFault>
    requires sized { IsSizedFor block judged }
    requires bodies { All IsSized bodies.old.items }
    ensures ok { OnOk result (Adds judged block bodies.old.items bodies.new.items) }
    ensures err { IfErr result (Refuses judged lsn) }
    ensures bodies { OnOk result (All IsSized bodies.new.items) }
{
    match judged {
        Judged::Shadowed | Judged::Kept => {}
        Judged::Partial => return Err(RecoveryFault::Refused(LogRefusal::ForeignLog { lsn })),
        Judged::Made { body } => push_body(bodies, RecoveredBlock { block, body })?,
    }
    Ok(())
}

// The entry with this index: its block, where no entry before it is an update of it.
fn note<V: View>(
    alloc: Global,
    view: &mut V,
    log: &IndexedLog,
    index: usize,
    body: &mut Body,
    met: &mut Met,
    bodies: &mut Vec<RecoveredBlock>,
) -> Result<(), RecoveryFault>
    requires inside { index < length log.now.entries.now }
    requires level { All IsLevel log.now.entries.now }
    requires lies { All Lies log.now.entries.now }
    requires ended { contains nat_cmp log.now.ended ≡ is_ended log.now.entries.now }
    requires groups { HasGroups log.now.groups log.now.entries.now }
    requires met { HasMet met.old (take index log.now.entries.now) }
    requires bodies { All IsSized bodies.old.items }
    ensures found { IfSome (V.content view.old) (λ c. Found c log.now.entries.now index bodies.old.items → OnOk result (Found c log.now.entries.now (index + 1) bodies.new.items)) }
    ensures foreign { IfSome (V.content view.old) (λ c. Found c log.now.entries.now index bodies.old.items → IfErr result (IsFirstPartial c log.now.entries.now)) }
    ensures met { OnOk result (HasMet met.new (take (index + 1) log.now.entries.now)) }
    ensures bodies { OnOk result (All IsSized bodies.new.items) }
    ensures kept { AsksView V.content V.kept V.faults recovery_cause view.old view.new result }
{
    let entry = &log.entries[index];
    let Some(block) = update_block(&entry.act) else {
        return Ok(());
    };
    if !meet(met, block)? {
        return Ok(());
    }
    let group = group_at(&log.groups, block.first / 8, &[]);
    let judged = judge(alloc, view, &log.ended, group, block, body)?;
    add(bodies, block, judged, entry.lsn)
}

// The bodies of all blocks, in the order of their first updates, and then the shadowed blocks.
fn recover_placed<V: View>(
    alloc: Global,
    view: &mut V,
    entries: &[Entry],
) -> Result<RecoveredBlocks, RecoveryFault>
    requires level { All IsLevel entries.now }
    requires lies { All Lies entries.now }
    ensures answer { IfSome (V.content view.old) (λ c. RecoversPlaced c entries.now result) }
    ensures sized { IfOk result (λ found. All IsSized found.bodies.items) }
    ensures kept { AsksView V.content V.kept V.faults recovery_cause view.old view.new result }
{
    let log = IndexedLog {
        entries,
        ended: ended_of(alloc, entries)?,
        groups: groups_of(alloc, entries)?,
    };
    let mut body = Body::empty(alloc)?;
    let mut met = BTreeSet::new(alloc);
    let mut bodies = Vec::new(alloc);
    for index in 0..entries.len() {
        note(alloc, view, &log, index, &mut body, &mut met, &mut bodies)?;
    }
    let shadows = shadows_of(alloc, &log.ended, &log.groups)?;
    Ok(RecoveredBlocks { bodies, shadows })
}

/// What recovery finds on a view by the entries of its log, in order: the blocks that it writes out
/// with their bodies, and the shadowed blocks, among them those with no update of their own: of all
/// blocks that an entry may update, a file record in an even sector, an index block in the first of
/// eight, or any other sector. `clusters` is the number of the volume's clusters, of eight sectors
/// each. Nothing is written.
///
/// - [`LogRefusal::ForeignLog`]: the entry with this LSN is the first that reaches past the
///   volume or its block's body; or, where there is none, the first update of a file record or an
///   index block that isn't shadowed, isn't covered whole and isn't on the disk as it is recovered.
/// - [`RecoveryFault::Fault`]: the view failed. The other error is want of memory, or an update of
///   a block whose last sector has no number of 64 bits.
///
/// It takes time near-linear in the number of entries and in their bytes, and linear in the sizes
/// of the blocks with an update, whatever the log says: an entry is looked at a few times for each
/// of at most 72 blocks. Memory is linear in the number of entries and in the bytes of the bodies
/// that it answers. A file record or an index block among these is covered whole by the log's own
/// bytes; of a sector one byte may be, so a log that was made for it takes some ten times its own
/// bytes. The view is asked once for each block with an update that isn't shadowed.
pub fn recover_entries<V: View>(
    alloc: Global,
    view: &mut V,
    entries: &[Entry],
    clusters: u64,
) -> Result<RecoveredBlocks, RecoveryFault>
    requires { All IsLevel entries.now }
    ensures answer { IfSome (V.content view.old) (λ c. Recovers c entries.now clusters result) }
    ensures sized { IfOk result (λ found. All IsSized found.bodies.items) }
    ensures kept { AsksView V.content V.kept V.faults recovery_cause view.old view.new result }
{
    match misplaced(entries, clusters) {
        Some(lsn) => Err(RecoveryFault::Refused(LogRefusal::ForeignLog { lsn })),
        None => recover_placed(alloc, view, entries),
    }
}
