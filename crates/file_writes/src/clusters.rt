//! Data that takes clusters, or gives some back.
ghost use Rattle.std.specs.Prelude.{◌≡◌, ◌<◌, ◌≤◌, ◌^◌, max, [], IfOk, IfSome, OnOk, length};
ghost use Rattle.block_view.specs.Views.{AsksView};
ghost use Rattle.record_model.specs.Constants.{data_type};
ghost use Rattle.record_model.specs.Pairs.{HasSpelling};
ghost use Rattle.plan_draft.specs.Faults.{fault_cause};
ghost use Rattle.file_puts.specs.draft_records.Records.{written_record};
ghost use Rattle.file_puts.specs.record_streams.Fitting.{FitsButRoom};
ghost use Rattle.file_puts.specs.resized_streams.Resizing.{IsSized};
ghost use Rattle.tree_model.specs.Needs.{size_after};
ghost use Rattle.tree_model.specs.Effects.{valid_after};
ghost use Rattle.tree_model.specs.Steps.{IsWithinBounds};
ghost use Rattle.file_puts.specs.data_plan.Changes.{IsReady};
ghost use Rattle.file_puts.specs.Puts.{PutsGrowing, PutsCut};
ghost use Rattle.file_writes.specs.Writing.{HasRoom, HasPlacedData};

use crate::puts::{put_runs, put_times_behind, written};
use crate::sizes::put_sizes;
use block_view::{View, ViewFault};
use file_puts::{FileRec, Resized, VolumeStreams, sized};
use file_tree::Node;
use plan_draft::Draft;
use record_model::DATA;
use state_model::{ClusterSize, Extents};
use std::alloc::{AllocError, Global};
use tree_model::{Op, size_after, valid_after};

// The record whose data has other sizes.
fn other_sizes(
    alloc: Global,
    per: ClusterSize,
    extents: &Extents,
    file: &FileRec,
    real: u64,
    initialised: u64,
) -> Result<Resized, AllocError>
    requires spelled { HasSpelling 0 extents.now.runs }
    requires few { length extents.now.runs ≤ 2 ^ 16 }
    requires fits { FitsButRoom file.now }
    ensures value { IfOk result (λ z. IsSized per data_type [] extents.now file.now real initialised z) }
    ensures fits { IfOk result (λ z. FitsButRoom z.file) }
{
    let Ok(new) = sized(alloc, per, DATA, &[], extents, file, real, initialised) else {
        return Err(AllocError);
    };
    Ok(new)
}

// The record as it is written, with the sizes after the operation.
fn with_sizes(
    alloc: Global,
    per: ClusterSize,
    op: &Op,
    node: &Node,
    grown: &Resized,
) -> Result<Resized, AllocError>
    requires per { per ≡ 8 }
    requires bounds { IsWithinBounds op.now }
    requires ready { IsReady grown.now }
    requires room { HasRoom grown.now.file }
    requires lies { HasPlacedData grown.now }
    ensures value { IfOk result (λ z. IsSized 8 data_type [] grown.now.extents (written_record grown.now.file) (size_after op.now node.now) (valid_after op.now node.now) z) }
    ensures room { IfOk result (λ z. HasRoom z.file) }
{
    let file = written(alloc, &grown.file)?;
    let (real, initialised) = (size_after(op, node), valid_after(op, node));
    let new = other_sizes(alloc, per, &grown.extents, &file, real, initialised)?;
    Ok(new)
}

/// Puts the record whose data takes clusters, the bits of these, and then its sizes, its bytes and
/// the times.
pub fn put_growing<V: View>(
    draft: &mut Draft<'_, V>,
    alloc: Global,
    per: ClusterSize,
    streams: &VolumeStreams,
    number: u64,
    op: &Op,
    node: &Node,
    stamp: u64,
    resized: &Resized,
) -> Result<(), ViewFault>
    requires per { per ≡ 8 }
    requires number { number < 2 ^ 48 }
    requires bitmap { streams.now.bitmap.initialised < 2 ^ 63 }
    requires bounds { IsWithinBounds op.now }
    requires ends { max node.now.valid (size_after op.now node.now) < 2 ^ 62 }
    requires initialised { resized.now.extents.initialised ≡ node.now.valid }
    requires ready { IsReady resized.now }
    requires room { HasRoom resized.now.file }
    requires lies { HasPlacedData resized.now }
    ensures put { OnOk result (IfSome (V.content draft.old.view.now) (λ c. PutsGrowing c streams.now number op.now node.now stamp resized.now draft.old.touched.items draft.new.touched.items)) }
    ensures asks { AsksView V.content V.kept V.faults fault_cause draft.old.view.now draft.new.view.now result }
    ensures reference { draft.new.view.ghost_name ≡ draft.old.view.ghost_name }
{
    let larger = with_sizes(alloc, per, op, node, resized)?;
    put_runs(draft, alloc, per, streams, number, resized)?;
    put_sizes(draft, alloc, per, streams, number, op, node, stamp, &larger)?;
    Ok(())
}

/// Puts the record whose data is cut, the bits of the clusters that it gives back, and the times.
pub fn put_cut<V: View>(
    draft: &mut Draft<'_, V>,
    alloc: Global,
    per: ClusterSize,
    streams: &VolumeStreams,
    number: u64,
    stamp: u64,
    resized: &Resized,
) -> Result<(), ViewFault>
    requires per { per ≡ 8 }
    requires number { number < 2 ^ 48 }
    requires bitmap { streams.now.bitmap.initialised < 2 ^ 63 }
    requires ready { IsReady resized.now }
    requires room { HasRoom resized.now.file }
    ensures put { OnOk result (IfSome (V.content draft.old.view.now) (λ c. PutsCut c streams.now number stamp resized.now draft.old.touched.items draft.new.touched.items)) }
    ensures asks { AsksView V.content V.kept V.faults fault_cause draft.old.view.now draft.new.view.now result }
    ensures reference { draft.new.view.ghost_name ≡ draft.old.view.ghost_name }
{
    put_runs(draft, alloc, per, streams, number, resized)?;
    put_times_behind(draft, alloc, per, streams, number, stamp, &resized.file)?;
    Ok(())
}
