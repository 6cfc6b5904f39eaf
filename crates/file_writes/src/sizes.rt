//! Data that stands in its clusters, where its sizes and bytes change.
ghost use Rattle.std.specs.Prelude.{◌≡◌, ◌<◌, ◌≤◌, ◌^◌, ℕ, max, [], IfSome, OnOk};
ghost use Rattle.block_view.specs.Views.{AsksView};
ghost use Rattle.record_model.specs.Constants.{data_type};
ghost use Rattle.record_model.specs.Records.{Record};
ghost use Rattle.state_model.specs.declared.stream.Extents.{Extents};
ghost use Rattle.plan_draft.specs.Faults.{fault_cause};
ghost use Rattle.file_puts.specs.resized_streams.Resizing.{IsSized};
ghost use Rattle.tree_model.specs.Needs.{size_after};
ghost use Rattle.tree_model.specs.Effects.{valid_after};
ghost use Rattle.file_puts.specs.Puts.{PutsSizes, PutsShorter};
ghost use Rattle.file_writes.specs.Writing.{HasRoom};

use crate::brought::{place_of, put_of};
use crate::puts::{put_record, put_times_behind};
use block_view::{View, ViewFault};
use file_puts::{Resized, VolumeStreams, placed_fits, put_bytes};
use file_tree::Node;
use plan_draft::Draft;
use state_model::ClusterSize;
use std::alloc::Global;
use tree_model::Op;

/// Puts the record whose data, so far initialised as the node says, has the sizes after the
/// operation, then the bytes that this brings, and the times.
pub fn put_sizes<V: View>(
    draft: &mut Draft<'_, V>,
    alloc: Global,
    per: ClusterSize,
    streams: &VolumeStreams,
    number: u64,
    op: &Op,
    node: &Node,
    stamp: u64,
    resized: &Resized,
) -> Result<(), ViewFault>
    requires per { per ≡ 8 }
    requires number { number < 2 ^ 48 }
    requires ends { max node.now.valid (size_after op.now node.now) < 2 ^ 62 }
    requires room { HasRoom resized.now.file }
    ensures put { OnOk result (IfSome (V.content draft.old.view.now) (λ c. (e : Extents) (r : Record) → e.initialised ≡ node.now.valid → IsSized 8 data_type [] e r (size_after op.now node.now) (valid_after op.now node.now) resized.now → PutsSizes c streams.now number op.now node.now stamp e r draft.old.touched.items draft.new.touched.items)) }
    ensures asks { AsksView V.content V.kept V.faults fault_cause draft.old.view.now draft.new.view.now result }
    ensures reference { draft.new.view.ghost_name ≡ draft.old.view.ghost_name }
{
    let bytes = put_of(alloc, op, node)?;
    let at = place_of(op, node);
    let fresh = (node.valid + 511) / 512;
    placed_fits();
    put_record(draft, alloc, per, streams, number, &resized.file)?;
    put_bytes(draft, alloc, per, &resized.extents.runs, fresh, at, &bytes)?;
    put_times_behind(draft, alloc, per, streams, number, stamp, &resized.file)?;
    Ok(())
}

/// Puts the record whose data is shorter in its clusters of before, and the times.
pub fn put_shorter<V: View>(
    draft: &mut Draft<'_, V>,
    alloc: Global,
    per: ClusterSize,
    streams: &VolumeStreams,
    number: u64,
    stamp: u64,
    resized: &Resized,
) -> Result<(), ViewFault>
    requires per { per ≡ 8 }
    requires number { number < 2 ^ 48 }
    requires room { HasRoom resized.now.file }
    ensures put { OnOk result (IfSome (V.content draft.old.view.now) (λ c. PutsShorter c streams.now number stamp resized.now draft.old.touched.items draft.new.touched.items)) }
    ensures asks { AsksView V.content V.kept V.faults fault_cause draft.old.view.now draft.new.view.now result }
    ensures reference { draft.new.view.ghost_name ≡ draft.old.view.ghost_name }
{
    placed_fits();
    put_record(draft, alloc, per, streams, number, &resized.file)?;
    put_times_behind(draft, alloc, per, streams, number, stamp, &resized.file)?;
    Ok(())
}
