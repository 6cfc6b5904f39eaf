//! Data that stands in its record, where it is written or cut.
ghost use Rattle.std.specs.Prelude.{◌≡◌, ◌<◌, ◌≤◌, ◌^◌, ℕ, Some, List, [], IfOk, IfSome, OnOk, length};
ghost use Rattle.block_view.specs.Views.{AsksView};
ghost use Rattle.record_model.specs.Constants.{data_type};
ghost use Rattle.state_model.specs.declared.stream.Stream.TheVariants.{Held};
ghost use Rattle.plan_draft.specs.Faults.{fault_cause};
ghost use Rattle.file_puts.specs.record_values.Values.{valued_record};
ghost use Rattle.file_puts.specs.draft_records.Records.{written_bytes};
ghost use Rattle.tree_model.specs.Needs.{size_after};
ghost use Rattle.file_puts.specs.record_streams.Fitting.{FitsButRoom};
ghost use Rattle.file_puts.specs.data_plan.Changes.{data_in, IsHeld, IsReady};
ghost use Rattle.file_puts.specs.Puts.{PutsValue, PutsLeaving};
ghost use Rattle.file_writes.specs.Writing.{HasRoom, MayWrite};

use crate::brought::bytes_after;
use crate::puts::{put_times, put_times_behind, put_value_in_runs};
use block_view::{View, ViewFault};
use file_puts::{FileRec, Resized, VolumeStreams, stream_of, valued_record};
use file_tree::Node;
use host_base::Bytes;
use plan_draft::Draft;
use record_model::DATA;
use state_model::{ClusterSize, Stream};
use std::alloc::{AllocError, Global};
use tree_model::Op;

// The value that is the file's data.
fn held_value(alloc: Global, file: &FileRec) -> Result<Bytes, AllocError>
    requires { IsHeld (data_in file.now) }
    ensures { IfOk result (λ value. data_in file.now ≡ Some (Held value)) }
{
    match stream_of(alloc, DATA, &[], file.attrs().as_slice()) {
        Ok(Some(Stream::Held(value))) => Ok(value),
        _ => Err(AllocError),
    }
}

// The record with this value of its data.
fn with_value(alloc: Global, value: &[u8], file: &FileRec) -> Result<FileRec, AllocError>
    requires short { length value.now ≤ 2 ^ 16 }
    requires fits { FitsButRoom file.now }
    ensures value { IfOk result (λ r. r ≡ valued_record data_type [] value.now file.now) }
    ensures fits { IfOk result FitsButRoom }
{
    let Ok(new) = valued_record(alloc, DATA, &[], value, file) else {
        return Err(AllocError);
    };
    Ok(new)
}

/// Puts the record with the bytes after the operation as the value of its data, and with the times.
pub fn put_value<V: View>(
    draft: &mut Draft<'_, V>,
    alloc: Global,
    per: ClusterSize,
    streams: &VolumeStreams,
    number: u64,
    file: &FileRec,
    op: &Op,
    node: &Node,
    stamp: u64,
) -> Result<(), ViewFault>
    requires per { per ≡ 8 }
    requires may { (clusters : ℕ) × MayWrite clusters number streams.now file.now op.now node.now }
    requires held { IsHeld (data_in file.now) }
    requires room { (value : List ℕ) → length value ≡ size_after op.now node.now → written_bytes (valued_record data_type [] value file.now) ≤ 1024 }
    ensures put { OnOk result (IfSome (V.content draft.old.view.now) (λ c. PutsValue c streams.now number op.now node.now stamp file.now draft.old.touched.items draft.new.touched.items)) }
    ensures asks { AsksView V.content V.kept V.faults fault_cause draft.old.view.now draft.new.view.now result }
    ensures reference { draft.new.view.ghost_name ≡ draft.old.view.ghost_name }
{
    let value = held_value(alloc, file)?;
    let bytes = bytes_after(alloc, op, node, value.as_slice())?;
    let valued = with_value(alloc, &bytes, file)?;
    put_times(draft, alloc, per, streams, number, stamp, &valued)?;
    Ok(())
}

/// Puts the record whose data left it for clusters, the bits of these, the bytes after the
/// operation into them, and the times.
pub fn put_leaving<V: View>(
    draft: &mut Draft<'_, V>,
    alloc: Global,
    per: ClusterSize,
    streams: &VolumeStreams,
    number: u64,
    file: &FileRec,
    op: &Op,
    node: &Node,
    stamp: u64,
    resized: &Resized,
) -> Result<(), ViewFault>
    requires per { per ≡ 8 }
    requires may { (clusters : ℕ) × MayWrite clusters number streams.now file.now op.now node.now }
    requires held { IsHeld (data_in file.now) }
    requires ready { IsReady resized.now }
    requires room { HasRoom resized.now.file }
    ensures put { OnOk result (IfSome (V.content draft.old.view.now) (λ c. PutsLeaving c streams.now number op.now node.now stamp file.now resized.now draft.old.touched.items draft.new.touched.items)) }
    ensures asks { AsksView V.content V.kept V.faults fault_cause draft.old.view.now draft.new.view.now result }
    ensures reference { draft.new.view.ghost_name ≡ draft.old.view.ghost_name }
{
    let value = held_value(alloc, file)?;
    let bytes = bytes_after(alloc, op, node, value.as_slice())?;
    put_value_in_runs(draft, alloc, per, streams, number, resized, &bytes)?;
    put_times_behind(draft, alloc, per, streams, number, stamp, &resized.file)?;
    Ok(())
}
