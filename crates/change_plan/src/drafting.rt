//! The plan of an operation that was found to change a file.
ghost use Rattle.std.specs.Prelude.{◌≡◌, ◌<◌, ◌^◌, true, [], IfOk, IfSome};
ghost use Rattle.block_view.specs.Views.{AsksView};
ghost use Rattle.found_files.specs.record_streams.Fitting.{FitsButRoom};
ghost use Rattle.tree_model.specs.Steps.{IsWithinBounds};
ghost use Rattle.found_files.specs.change_steps.Changes.{change_reply};
ghost use Rattle.change_plan.specs.Faults.{plan_cause};
ghost use Rattle.change_plan.specs.States.{is_data_change};
ghost use Rattle.change_plan.specs.Plans.{IsSound};
ghost use Rattle.change_plan.specs.Drafting.{IsFinished, IsAnswer, Ends, PlansAsked, PlansFound, KnowsAsked, KnowsFound};

use crate::checking::may_change;
use crate::fault::PlanFault;
use crate::laws::files_are_read;
use crate::plan::ChangePlan;
use block_view::View;
use disk_model::Body;
use file_tree::Node;
use found_files::{
    FileRec, VolumeMap, VolumeStreams, WriteFault, change_any_file, changes_are_steps, file,
    found_may_write,
};
use plan_draft::Draft;
use plan_space::{FreeBits, Taken};
use state_model::ClusterSize;
use std::alloc::{AllocError, Global};
use tree_model::{Op, Reply};

// The sectors of a cluster.
const PER_CLUSTER: u64 = 8;

// How many numbers a file may have.
const MOST_NUMBERS: u64 = 1 << 48;

/// What is replied to an operation that is done.
pub fn change_reply(op: &Op) -> Reply
    ensures { result ≡ change_reply op.now }
{
    match op {
        Op::Write { bytes, .. } => Reply::Wrote {
            count: bytes.len() as u64,
        },
        Op::Fill { count, .. } => Reply::Wrote { count: *count },
        Op::Truncate { size, .. } => Reply::Size { size: *size },
        _ => Reply::Fault,
    }
}

/// A plan without changes.
pub fn answer(alloc: Global, reply: Reply) -> ChangePlan
    ensures { IsAnswer reply result }
{
    ChangePlan {
        reply,
        changes: Vec::new(alloc),
    }
}

// The plan that a draft comes to.
fn finished<V: View>(draft: &Draft<'_, V>, alloc: Global, op: &Op) -> Result<ChangePlan, AllocError>
    ensures { IfOk result (IsFinished (V.content draft.now.view.now) op.now draft.now.touched.items) }
{
    Ok(ChangePlan {
        reply: change_reply(op),
        changes: draft.finish(alloc)?,
    })
}

// The plan where a draft has written the file or was refused.
fn ended<V: View>(
    draft: &Draft<'_, V>,
    alloc: Global,
    op: &Op,
    written: Result<(), WriteFault>,
) -> Result<ChangePlan, PlanFault>
    ensures { Ends (V.content draft.now.view.now) op.now draft.now.touched.items written result }
{
    match written {
        Ok(()) => Ok(finished(draft, alloc, op)?),
        Err(WriteFault::Full { used }) => Ok(answer(alloc, Reply::RecordFull { used })),
        Err(WriteFault::Short { .. }) => Err(PlanFault::Unknown),
        Err(WriteFault::Fault) => Err(PlanFault::Fault),
        Err(WriteFault::Memory) => Err(PlanFault::Memory),
    }
}

// The plan where the file's record is this one, of which the data is written or cut.
fn changed<V: View, B: FreeBits>(
    draft: &mut Draft<'_, V>,
    alloc: Global,
    per: ClusterSize,
    bits: &mut B,
    streams: &VolumeStreams,
    file: &FileRec,
    op: &Op,
    node: &Node,
    stamp: u64,
) -> Result<ChangePlan, PlanFault>
    requires per { per ≡ 8 }
    requires changes { is_data_change op.now ≡ true }
    requires bounds { IsWithinBounds op.now }
    requires fits { FitsButRoom file.now }
    requires none { draft.old.touched.items ≡ [] }
    ensures plans { IfSome (V.content draft.old.view.now) (PlansAsked streams.now op.now node.now stamp file.now (B.bits bits.old) result) }
    ensures known { IfSome (V.content draft.old.view.now) (KnowsAsked streams.now op.now node.now file.now (B.bits bits.old) result) }
    ensures sound { IfOk result (IsSound (V.content draft.old.view.now) op.now) }
    ensures asks { AsksView V.content V.kept V.faults plan_cause draft.old.view.now draft.new.view.now result }
    ensures reference { draft.new.view.ghost_name ≡ draft.old.view.ghost_name }
{
    changes_are_steps();
    found_may_write();
    if !may_change(alloc, bits.len(), node.number, streams, file, op, node)? {
        return Err(PlanFault::Unknown);
    }
    let written = change_any_file(draft, alloc, per, bits, streams, file, op, node, stamp);
    ended(draft, alloc, op, written)
}

// The plan, where the draft touched nothing.
fn drafted_plan<V: View, B: FreeBits>(
    draft: &mut Draft<'_, V>,
    alloc: Global,
    per: ClusterSize,
    bits: &mut B,
    streams: &VolumeStreams,
    op: &Op,
    node: &Node,
    stamp: u64,
) -> Result<ChangePlan, PlanFault>
    requires per { per ≡ 8 }
    requires number { node.now.number < 2 ^ 48 }
    requires changes { is_data_change op.now ≡ true }
    requires bounds { IsWithinBounds op.now }
    requires none { draft.old.touched.items ≡ [] }
    ensures plans { IfSome (V.content draft.old.view.now) (PlansFound streams.now op.now node.now stamp (B.bits bits.old) result) }
    ensures known { IfSome (V.content draft.old.view.now) (KnowsFound streams.now op.now node.now (B.bits bits.old) result) }
    ensures sound { IfOk result (IsSound (V.content draft.old.view.now) op.now) }
    ensures asks { AsksView V.content V.kept V.faults plan_cause draft.old.view.now draft.new.view.now result }
    ensures reference { draft.new.view.ghost_name ≡ draft.old.view.ghost_name }
{
    changes_are_steps();
    files_are_read();
    let found = file(draft, alloc, per, &streams.table, node.number)?;
    match found {
        None => Err(PlanFault::Unknown),
        Some(file) => changed(draft, alloc, per, bits, streams, &file, op, node, stamp),
    }
}

/// The plan of an operation that was found to change this file, over the view of a volume's content,
/// whose clusters have eight sectors and are free as these bits say. The bits stay.
pub fn file_plan<V: View>(
    alloc: Global,
    view: &mut V,
    map: &VolumeMap,
    streams: &VolumeStreams,
    op: &Op,
    node: &Node,
    stamp: u64,
) -> Result<ChangePlan, PlanFault>
    requires changes { is_data_change op.now ≡ true }
    requires bounds { IsWithinBounds op.now }
    ensures plans { IfSome (V.content view.old) (PlansFound streams.now op.now node.now stamp map.now.cluster_bits result) }
    ensures known { map.now.per_cluster ≡ 8 → node.now.number < 2 ^ 48 → IfSome (V.content view.old) (KnowsFound streams.now op.now node.now map.now.cluster_bits result) }
    ensures sound { IfOk result (IsSound (V.content view.old) op.now) }
    ensures asks { AsksView V.content V.kept V.faults plan_cause view.old view.new result }
{
    changes_are_steps();
    let per = map.per_cluster;
    if per.sectors() != PER_CLUSTER || node.number >= MOST_NUMBERS {
        return Err(PlanFault::Unknown);
    }
    let room = Body::empty(alloc)?;
    let mut draft = Draft::new(alloc, room, view);
    let mut bits = Taken::new(alloc, &map.cluster_bits);
    let plan = drafted_plan(&mut draft, alloc, per, &mut bits, streams, op, node, stamp);
    let _view = draft.into_view();
    plan
}
