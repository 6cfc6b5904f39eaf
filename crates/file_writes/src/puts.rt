//! Records that have room, put into a draft.
ghost use Rattle.std.specs.Prelude.{◌≡◌, ◌<◌, ◌≤◌, ◌^◌, IfOk, IfSome, OnOk, length};
ghost use Rattle.block_view.specs.Views.{AsksView};
ghost use Rattle.file_puts.specs.record_writer.NormalLaws.{FitsByRoom};
ghost use Rattle.plan_draft.specs.Faults.{fault_cause};
ghost use Rattle.file_puts.specs.record_streams.Fitting.{FitsButRoom};
ghost use Rattle.file_puts.specs.draft_records.Records.{written_record, written_bytes};
ghost use Rattle.file_puts.specs.data_plan.Changes.{IsReady};
ghost use Rattle.file_puts.specs.Puts.{PutsFileRecord, PutsFileRuns, PutsFileValue, PutsTimes};
ghost use Rattle.file_writes.specs.Writing.{HasRoom};

use block_view::{View, ViewFault};
use file_puts::{
    DraftFault, FileRec, Resized, VolumeStreams, placed_fits, put_file, put_moved, put_resized,
    timed_record, times_are_set, written_file,
};
use plan_draft::Draft;
use state_model::ClusterSize;
use std::alloc::{AllocError, Global};

/// Puts a record that has room, as [`put_file`] does; so it is never refused as too full.
pub fn put_record<V: View>(
    draft: &mut Draft<'_, V>,
    alloc: Global,
    per: ClusterSize,
    streams: &VolumeStreams,
    number: u64,
    file: &FileRec,
) -> Result<(), ViewFault>
    requires per { per ≡ 8 }
    requires number { number < 2 ^ 48 }
    requires fits { FitsByRoom file.now }
    requires room { written_bytes file.now ≤ 1024 }
    ensures put { OnOk result (IfSome (V.content draft.old.view.now) (λ c. PutsFileRecord c streams.now number file.now draft.old.touched.items draft.new.touched.items)) }
    ensures asks { AsksView V.content V.kept V.faults fault_cause draft.old.view.now draft.new.view.now result }
    ensures reference { draft.new.view.ghost_name ≡ draft.old.view.ghost_name }
{
    let (table, mirror) = (&streams.table, &streams.mirror);
    match put_file(draft, alloc, per, table, mirror, number, file) {
        Ok(()) => Ok(()),
        Err(DraftFault::Fault) => Err(ViewFault::Fault),
        Err(DraftFault::Full { .. }) => Err(ViewFault::Memory),
        Err(DraftFault::Memory) => Err(ViewFault::Memory),
    }
}

/// Puts a record that has room and the bits of the clusters that came and went, as [`put_resized`]
/// does.
pub fn put_runs<V: View>(
    draft: &mut Draft<'_, V>,
    alloc: Global,
    per: ClusterSize,
    streams: &VolumeStreams,
    number: u64,
    resized: &Resized,
) -> Result<(), ViewFault>
    requires per { per ≡ 8 }
    requires number { number < 2 ^ 48 }
    requires bitmap { streams.now.bitmap.initialised < 2 ^ 63 }
    requires ready { IsReady resized.now }
    requires room { written_bytes resized.now.file ≤ 1024 }
    ensures put { OnOk result (IfSome (V.content draft.old.view.now) (λ c. PutsFileRuns c streams.now number resized.now draft.old.touched.items draft.new.touched.items)) }
    ensures asks { AsksView V.content V.kept V.faults fault_cause draft.old.view.now draft.new.view.now result }
    ensures reference { draft.new.view.ghost_name ≡ draft.old.view.ghost_name }
{
    placed_fits();
    let (bitmap, table, mirror) = (&streams.bitmap, &streams.table, &streams.mirror);
    match put_resized(draft, alloc, per, bitmap, table, mirror, number, resized) {
        Ok(()) => Ok(()),
        Err(DraftFault::Fault) => Err(ViewFault::Fault),
        Err(DraftFault::Full { .. }) => Err(ViewFault::Memory),
        Err(DraftFault::Memory) => Err(ViewFault::Memory),
    }
}

/// The same of a value that left its record, and its bytes, as [`put_moved`] does.
pub fn put_value_in_runs<V: View>(
    draft: &mut Draft<'_, V>,
    alloc: Global,
    per: ClusterSize,
    streams: &VolumeStreams,
    number: u64,
    resized: &Resized,
    value: &[u8],
) -> Result<(), ViewFault>
    requires per { per ≡ 8 }
    requires number { number < 2 ^ 48 }
    requires bitmap { streams.now.bitmap.initialised < 2 ^ 63 }
    requires short { length value.now < 2 ^ 32 }
    requires ready { IsReady resized.now }
    requires room { written_bytes resized.now.file ≤ 1024 }
    ensures put { OnOk result (IfSome (V.content draft.old.view.now) (λ c. PutsFileValue c streams.now number resized.now value.now draft.old.touched.items draft.new.touched.items)) }
    ensures asks { AsksView V.content V.kept V.faults fault_cause draft.old.view.now draft.new.view.now result }
    ensures reference { draft.new.view.ghost_name ≡ draft.old.view.ghost_name }
{
    placed_fits();
    let (bitmap, table, mirror) = (&streams.bitmap, &streams.table, &streams.mirror);
    match put_moved(
        draft, alloc, per, bitmap, table, mirror, number, resized, value,
    ) {
        Ok(()) => Ok(()),
        Err(DraftFault::Fault) => Err(ViewFault::Fault),
        Err(DraftFault::Full { .. }) => Err(ViewFault::Memory),
        Err(DraftFault::Memory) => Err(ViewFault::Memory),
    }
}

/// The record as it is written, where it has room. The error is want of memory.
pub fn written(alloc: Global, file: &FileRec) -> Result<FileRec, AllocError>
    requires { HasRoom file.now }
    ensures value { IfOk result (λ r. r ≡ written_record file.now) }
    ensures fits { IfOk result FitsButRoom }
{
    placed_fits();
    let Ok(new) = written_file(alloc, file) else {
        return Err(AllocError);
    };
    Ok(new)
}

/// Puts the record with its times: it has room with them, as it has without.
pub fn put_times<V: View>(
    draft: &mut Draft<'_, V>,
    alloc: Global,
    per: ClusterSize,
    streams: &VolumeStreams,
    number: u64,
    stamp: u64,
    file: &FileRec,
) -> Result<(), ViewFault>
    requires per { per ≡ 8 }
    requires number { number < 2 ^ 48 }
    requires room { HasRoom file.now }
    ensures put { OnOk result (IfSome (V.content draft.old.view.now) (λ c. PutsTimes c streams.now number stamp file.now draft.old.touched.items draft.new.touched.items)) }
    ensures asks { AsksView V.content V.kept V.faults fault_cause draft.old.view.now draft.new.view.now result }
    ensures reference { draft.new.view.ghost_name ≡ draft.old.view.ghost_name }
{
    let timed = timed_record(alloc, stamp, file)?;
    times_are_set();
    put_record(draft, alloc, per, streams, number, &timed)?;
    Ok(())
}

/// Behind a record that was put, puts it again with its times.
pub fn put_times_behind<V: View>(
    draft: &mut Draft<'_, V>,
    alloc: Global,
    per: ClusterSize,
    streams: &VolumeStreams,
    number: u64,
    stamp: u64,
    file: &FileRec,
) -> Result<(), ViewFault>
    requires per { per ≡ 8 }
    requires number { number < 2 ^ 48 }
    requires room { HasRoom file.now }
    ensures put { OnOk result (IfSome (V.content draft.old.view.now) (λ c. PutsTimes c streams.now number stamp (written_record file.now) draft.old.touched.items draft.new.touched.items)) }
    ensures asks { AsksView V.content V.kept V.faults fault_cause draft.old.view.now draft.new.view.now result }
    ensures reference { draft.new.view.ghost_name ≡ draft.old.view.ghost_name }
{
    let standing = written(alloc, file)?;
    put_times(draft, alloc, per, streams, number, stamp, &standing)?;
    Ok(())
}
