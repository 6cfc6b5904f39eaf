//! The map after changes, before they are made.
ghost use Rattle.std.specs.Prelude.{◌≡◌, ◌<◌, All, Ok, IfOk, IfErr, IfSome, None, IsErrOf, length};
ghost use Rattle.host_base.specs.Answers.{GivesOrFails};
ghost use Rattle.host_base.specs.Causes.{HasFailed, last_moment};
ghost use Rattle.block_view.specs.Changes.{Fits, content_after};
ghost use Rattle.turn_laws.specs.device_view.Devices.{CountsOnDevice};
ghost use Rattle.same_names.specs.volume_map.Errors.{map_cause};
ghost use Rattle.same_names.specs.map_change.Parts.{map_of, live_parts};
ghost use Rattle.same_names.specs.map_change.Applying.{applied, HasRoom};
ghost use Rattle.turn_laws.specs.txn_core.Views.{present_content};
ghost use Rattle.state_store.specs.declared.fault.PutFault.TheVariants.{Broken};
ghost use Rattle.state_store.specs.Volumes.{geometry_of};
ghost use Rattle.state_store.specs.Preparing.{KeepsSeen, FailsSeen, CountsSeen, HaveMaps, NeverShort, TellsWhether, prepare_fault};
ghost use Rattle.state_store.specs.Puts.{put_cause};

use crate::fault::PutFault;
use disk_model::Change;
use host_base::Memory;
use same_names::{LiveMap, MapChange, MapFault, NamesRule, prepare};
use sector_device::Device;
use std::alloc::Global;
use turn_laws::{Store, StoreView, piece_room};

// What makes the map that of the store's content after the changes, read through room for a piece
// of its device.
fn prepare_through<D: Device>(
    store: &mut Store<D>,
    live: &mut LiveMap,
    alloc: Global,
    room: &mut [u8],
    changes: &[Change],
) -> Result<MapChange, MapFault>
    requires sized { length room.old ≡ 65536 }
    requires fits { All Fits changes.now }
    ensures answer { IfSome (present_content (D.gives store.old.device) store.old.state) (λ c. map_of c (geometry_of (live_parts live.old)) (live_parts live.old).volume.clusters ≡ Ok (live_parts live.old)
        → GivesOrFails (λ change. applied change (live_parts live.old)) map_cause result (map_of (content_after changes.now c) (geometry_of (live_parts live.old)) (live_parts live.old).volume.clusters)) }
    ensures stays { live_parts live.new ≡ live_parts live.old }
    ensures room { IfOk result (HasRoom live.new) }
    ensures kept { KeepsSeen D.gives D.sector_count D.changes_of D.fault_count D.moment_of store.old store.new }
    ensures fault { IsErrOf result MapFault.View → FailsSeen D.fault_count D.moment_of store.old store.new }
    ensures counted { CountsSeen D.fault_count D.moment_of map_cause result store.old store.new }
{
    let mut view = StoreView::new(room, store);
    prepare(alloc, live, &mut view, changes)
}

// What a map's fault is to a volume.
fn prepare_fault(fault: MapFault) -> PutFault
    ensures { result ≡ prepare_fault fault }
{
    match fault {
        MapFault::Refused(_) => PutFault::Broken,
        MapFault::View => PutFault::Fault,
        MapFault::Memory => PutFault::Memory,
    }
}

// Refuses a change of the map by which the files would have other names than the rule allows.
fn keep_names<R: NamesRule>(
    alloc: Global,
    rule: &R,
    live: &LiveMap,
    change: &MapChange,
) -> Result<(), PutFault>
    requires known { R.knows rule.now (live_parts live.now).volume.files }
    ensures { TellsWhether result (R.may rule.now (live_parts live.now).volume.files (applied change.now (live_parts live.now)).volume.files) }
{
    match rule.allows(alloc, live, change) {
        Ok(true) => Ok(()),
        Ok(false) => Err(PutFault::Broken),
        Err(Memory) => Err(PutFault::Memory),
    }
}

/// What makes the map that of the store's content after the changes, by which the files have names
/// that the rule allows: with it, all memory that the map needs then is taken.
///
/// [`PutFault::Fault`]: the device failed; [`PutFault::Memory`]: want of memory;
/// [`PutFault::Broken`]: the content is refused, or the rule doesn't allow the names, which comes
/// only where the content isn't known. The costs are those of [`map_change::prepare`] and of the
/// rule.
pub fn prepare_changes<D: Device, R: NamesRule>(
    store: &mut Store<D>,
    live: &mut LiveMap,
    rule: &R,
    alloc: Global,
    changes: &[Change],
) -> Result<MapChange, PutFault>
    requires fits { All Fits changes.now }
    requires known { R.knows rule.now (live_parts live.old).volume.files }
    requires maps { IfSome (present_content (D.gives store.old.device) store.old.state) (λ c. HaveMaps (R.may rule.now) (live_parts live.old) c (content_after changes.now c)) }
    ensures value { IfOk result (λ change. IfSome (present_content (D.gives store.old.device) store.old.state) (λ c. map_of (content_after changes.now c) (geometry_of (live_parts live.old)) (live_parts live.old).volume.clusters ≡ Ok (applied change (live_parts live.old)))) }
    ensures names { IfOk result (λ change. R.may rule.now (live_parts live.old).volume.files (applied change (live_parts live.old)).volume.files) }
    ensures stays { live_parts live.new ≡ live_parts live.old }
    ensures room { IfOk result (HasRoom live.new) }
    ensures kept { KeepsSeen D.gives D.sector_count D.changes_of D.fault_count D.moment_of store.old store.new }
    ensures short { NeverShort result }
    ensures broken { IfErr result (λ fault. fault ≡ Broken → D.gives store.old.device ≡ None) }
    ensures fault { IsErrOf result PutFault.Fault → HasFailed (D.fault_count store.old.device) (D.fault_count store.new.device) (D.moment_of store.new.device) }
    ensures counted { D.moment_of store.old.device < last_moment → CountsOnDevice put_cause (D.fault_count store.old.device) (D.fault_count store.new.device) (D.moment_of store.new.device) result }
{
    let mut room = piece_room(alloc)?;
    match prepare_through(store, live, alloc, &mut room, changes) {
        Ok(change) => match keep_names(alloc, rule, live, &change) {
            Ok(()) => Ok(change),
            Err(fault) => Err(fault),
        },
        Err(fault) => Err(prepare_fault(fault)),
    }
}
