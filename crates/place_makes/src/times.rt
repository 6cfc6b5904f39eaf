//! A directory's times, put into a draft.
ghost use Rattle.std.specs.Prelude.{◌≡◌, ◌<◌, ◌^◌, IfErr, IfOk, IfSome, OnOk};
ghost use Rattle.block_view.specs.Views.{AsksView};
ghost use Rattle.record_streams.specs.Fitting.{FitsButRoom};
ghost use Rattle.record_writer.specs.NormalLaws.{FitsByRoom};
ghost use Rattle.draft_records.specs.Records.{written_record};
ghost use Rattle.made_trees.specs.file_puts.Puts.{PutsFileRecord, PutsTimes};
ghost use Rattle.made_trees.specs.file_makes.Making.{HasRoom};
ghost use Rattle.made_trees.specs.Created.{timed_directory};
ghost use Rattle.place_makes.specs.Faults.{place_cause, OnFull};

use crate::fault::PlaceFault;
use block_view::View;
use draft_numbers::{DraftFault, put_file};
use file_makes::{FileRec, VolumeStreams, times_are_set};
use file_puts::{timed_record, written_file};
use plan_draft::Draft;
use state_model::ClusterSize;
use std::alloc::{AllocError, Global};

// The record as it is written.
fn written(alloc: Global, timed: &FileRec) -> Result<FileRec, AllocError>
    requires { FitsByRoom timed.now }
    ensures value { IfOk result (λ q. q ≡ written_record timed.now) }
    ensures room { IfOk result HasRoom }
{
    let Ok(new) = written_file(alloc, timed) else {
        return Err(AllocError);
    };
    Ok(new)
}

// Puts a record, which is refused where it has no room.
fn put_timed<V: View>(
    draft: &mut Draft<'_, V>,
    alloc: Global,
    per: ClusterSize,
    streams: &VolumeStreams,
    number: u64,
    timed: &FileRec,
) -> Result<(), PlaceFault>
    requires per { per ≡ 8 }
    requires number { number < 2 ^ 48 }
    requires fits { FitsByRoom timed.now }
    ensures put { OnOk result (IfSome (V.content draft.old.view.now) (λ c. PutsFileRecord c streams.now number timed.now draft.old.touched.items draft.new.touched.items)) }
    ensures full { IfErr result (OnFull (λ used. ⊥)) }
    ensures asks { AsksView V.content V.kept V.faults place_cause draft.old.view.now draft.new.view.now result }
    ensures reference { draft.new.view.ghost_name ≡ draft.old.view.ghost_name }
{
    let (table, mirror) = (&streams.table, &streams.mirror);
    match put_file(draft, alloc, per, table, mirror, number, timed) {
        Ok(()) => Ok(()),
        Err(DraftFault::Fault) => Err(PlaceFault::Fault),
        Err(DraftFault::Full { .. }) => Err(PlaceFault::Unplanned),
        Err(DraftFault::Memory) => Err(PlaceFault::Memory),
    }
}

/// Puts a record with its times, and answers it as it is written.
///
/// - [`PlaceFault::Unplanned`]: the record has no room.
/// - [`PlaceFault::Fault`]: the view failed, and counts it.
/// - [`PlaceFault::Memory`]: want of memory.
pub fn put_times<V: View>(
    draft: &mut Draft<'_, V>,
    alloc: Global,
    per: ClusterSize,
    streams: &VolumeStreams,
    number: u64,
    stamp: u64,
    file: &FileRec,
) -> Result<FileRec, PlaceFault>
    requires per { per ≡ 8 }
    requires number { number < 2 ^ 48 }
    requires fits { FitsButRoom file.now }
    ensures put { IfOk result (λ _. IfSome (V.content draft.old.view.now) (λ c. PutsTimes c streams.now number stamp file.now draft.old.touched.items draft.new.touched.items)) }
    ensures written { IfOk result (λ q. q ≡ timed_directory stamp file.now) }
    ensures room { IfOk result HasRoom }
    ensures full { IfErr result (OnFull (λ used. ⊥)) }
    ensures asks { AsksView V.content V.kept V.faults place_cause draft.old.view.now draft.new.view.now result }
    ensures reference { draft.new.view.ghost_name ≡ draft.old.view.ghost_name }
{
    times_are_set();
    let timed = timed_record(alloc, stamp, file)?;
    put_timed(draft, alloc, per, streams, number, &timed)?;
    Ok(written(alloc, &timed)?)
}
