//! A file that is put behind a level more of its directory's index.
ghost use Rattle.std.specs.Prelude.{◌≡◌, ◌<◌, ◌≤◌, ◌^◌, IfErr, IfOk, IfSome, OnOk, length};
ghost use Rattle.block_view.specs.Views.{AsksView};
ghost use Rattle.record_streams.specs.Fitting.{FitsButRoom};
ghost use Rattle.place_makes.specs.made_trees.file_makes.Making.{HasRoom};
ghost use Rattle.place_raises.specs.Faults.{raise_cause, OnDeep, OnFull};
ghost use Rattle.place_raises.specs.Raising.{PlansBehind, PutsBehind, PutsPlanned};

use crate::fault::RaiseFault;
use block_view::View;
use directory_index::index_place;
use file_makes::{FileRec, NewFile, NodesPlan, VolumeStreams};
use place_makes::{planned, put_made, put_times, with_used};
use plan_draft::Draft;
use state_model::{ClusterSize, Extents};
use std::alloc::Global;
use upcase_order::Upcase;

// The nodes of the directory's index, planned with the new file for the used bytes of its record.
fn plan_behind<V: View>(
    draft: &mut Draft<'_, V>,
    alloc: Global,
    per: ClusterSize,
    up: &Upcase,
    made: &NewFile,
    file: &FileRec,
    fresh: &[u64],
) -> Result<NodesPlan, RaiseFault>
    requires per { per ≡ 8 }
    requires number { made.now.file.number < 2 ^ 32 }
    requires parent { made.now.parent.number < 2 ^ 48 }
    requires fits { FitsButRoom file.now }
    requires enough { 17 ≤ length fresh.now }
    ensures plans { IfOk result (λ nodes. IfSome (V.content draft.old.view.now) (λ c. PlansBehind c up.now made.now file.now fresh.now draft.old.touched.items nodes)) }
    ensures full { IfErr result (OnFull (λ used. ⊥)) }
    ensures deep { IfErr result (OnDeep (λ height. ⊥)) }
    ensures touched { draft.new.touched.items ≡ draft.old.touched.items }
    ensures asks { AsksView V.content V.kept V.faults raise_cause draft.old.view.now draft.new.view.now result }
    ensures reference { draft.new.view.ghost_name ≡ draft.old.view.ghost_name }
{
    let Some(found) = index_place(alloc, per, file)? else {
        return Err(RaiseFault::Unplanned);
    };
    let dir = with_used(found, file);
    Ok(planned(draft, alloc, up, &dir, made, fresh)?)
}

// Puts the file into the index of the directory with this record, with nodes that are planned
// there.
fn put_planned<V: View>(
    draft: &mut Draft<'_, V>,
    alloc: Global,
    per: ClusterSize,
    up: &Upcase,
    streams: &VolumeStreams,
    numbers: &Extents,
    made: &NewFile,
    directory: &FileRec,
    fresh: &[u64],
) -> Result<(), RaiseFault>
    requires per { per ≡ 8 }
    requires size { numbers.now.initialised < 2 ^ 63 }
    requires number { made.now.file.number < 2 ^ 32 }
    requires parent { made.now.parent.number < 2 ^ 48 }
    requires room { HasRoom directory.now }
    requires enough { 17 ≤ length fresh.now }
    ensures put { OnOk result (IfSome (V.content draft.old.view.now) (λ c. PutsPlanned c streams.now numbers.now up.now made.now directory.now fresh.now draft.old.touched.items draft.new.touched.items)) }
    ensures full { IfErr result (OnFull (λ used. ⊥)) }
    ensures deep { IfErr result (OnDeep (λ height. ⊥)) }
    ensures asks { AsksView V.content V.kept V.faults raise_cause draft.old.view.now draft.new.view.now result }
    ensures reference { draft.new.view.ghost_name ≡ draft.old.view.ghost_name }
{
    let nodes = plan_behind(draft, alloc, per, up, made, directory, fresh)?;
    put_made(draft, alloc, per, streams, numbers, made, directory, nodes)?;
    Ok(())
}

/// Puts the times of the directory with this record, and behind them the file, with nodes that are
/// planned there and may take these VCNs.
///
/// - [`RaiseFault::Unplanned`]: the index has to get a level or a block for which the record has no
///   room, or what was read is part of no state.
/// - [`RaiseFault::Fault`]: the view failed, and counts it.
/// - [`RaiseFault::Memory`]: want of memory.
pub fn put_behind<V: View>(
    draft: &mut Draft<'_, V>,
    alloc: Global,
    per: ClusterSize,
    up: &Upcase,
    streams: &VolumeStreams,
    numbers: &Extents,
    made: &NewFile,
    file: &FileRec,
    fresh: &[u64],
) -> Result<(), RaiseFault>
    requires per { per ≡ 8 }
    requires size { numbers.now.initialised < 2 ^ 63 }
    requires number { made.now.file.number < 2 ^ 32 }
    requires parent { made.now.parent.number < 2 ^ 48 }
    requires fits { FitsButRoom file.now }
    requires enough { 17 ≤ length fresh.now }
    ensures put { OnOk result (IfSome (V.content draft.old.view.now) (λ c. PutsBehind c streams.now numbers.now up.now made.now file.now fresh.now draft.old.touched.items draft.new.touched.items)) }
    ensures full { IfErr result (OnFull (λ used. ⊥)) }
    ensures deep { IfErr result (OnDeep (λ height. ⊥)) }
    ensures asks { AsksView V.content V.kept V.faults raise_cause draft.old.view.now draft.new.view.now result }
    ensures reference { draft.new.view.ghost_name ≡ draft.old.view.ghost_name }
{
    let (parent, stamp) = (made.parent.number, made.stamp);
    let timed = put_times(draft, alloc, per, streams, parent, stamp, file)?;
    put_planned(draft, alloc, per, up, streams, numbers, made, &timed, fresh)
}
