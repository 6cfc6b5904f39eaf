//! Lists of changes that a volume takes.
ghost use Rattle.std.specs.Prelude.{◌≡◌, ◌^◌, ◌<◌, false, All, IfErr, IfSome, None, Ok, OnErr, OnOk, length};
ghost use Rattle.host_base.specs.Answers.{GivesOrFails};
ghost use Rattle.block_view.specs.Changes.{Fits, content_after};
ghost use Rattle.turn_laws.specs.device_view.Devices.{GoesOnwards, CountsOnDevice};
ghost use Rattle.same_names.specs.map_change.Parts.{live_parts, map_of};
ghost use Rattle.same_names.specs.map_change.Applying.{applied, HasRoom as HasMapRoom};
ghost use Rattle.turn_laws.specs.txn_log.Laws.{HasRoom};
ghost use Rattle.turn_laws.specs.txn_state.States.{facts_of};
ghost use Rattle.turn_laws.specs.txn_core.declared.fault.ChangeFault.TheVariants.{Unspelled};
ghost use Rattle.turn_laws.specs.txn_core.Changes.{change_cause};
ghost use Rattle.turn_laws.specs.txn_core.Views.{present_content};
ghost use Rattle.state_store.specs.Volumes.{geometry_of, HoldsState};
ghost use Rattle.state_store.specs.Changes.{MayLog, AreApart, AreWritable, LeadsOn, KeepsNamesBy};
ghost use Rattle.state_store.specs.Rooms.{pages_of_changes, room_in, room_cause, MayNumber};
ghost use Rattle.state_store.specs.Preparing.{HaveMaps, NeverShort};
ghost use Rattle.state_store.specs.Puts.{put_cause, change_put_fault, HasPut, IsUnknownWhereBroken, HasPutCauses};

use crate::fault::PutFault;
use crate::logging::log_changes;
use crate::preparing::prepare_changes;
use crate::rooms::find_room;
use disk_model::Change;
use same_names::{LiveMap, MapChange, NamesRule, Upcase, apply};
use sector_device::Device;
use std::alloc::Global;
use turn_laws::{ChangeFault, Store};

// What a change's fault is to a volume.
fn change_fault(fault: ChangeFault) -> PutFault
    ensures { result ≡ change_put_fault fault }
{
    match fault {
        ChangeFault::Fault => PutFault::Fault,
        ChangeFault::Memory => PutFault::Memory,
        ChangeFault::Unspelled => PutFault::Broken,
    }
}

// Puts some changes through a store whose log has room for them, and then this change of the map in
// place, which makes it that of the content behind them.
fn put_prepared<D: Device>(
    store: &mut Store<D>,
    live: &mut LiveMap,
    alloc: Global,
    changes: &[Change],
    change: MapChange,
) -> Result<(), ChangeFault>
    requires some { 0 < length changes.now }
    requires closed { store.old.state.is_open ≡ false }
    requires number { store.old.state.tx < 2 ^ 32 }
    requires each { All (MayLog (facts_of store.old.state)) changes.now }
    requires apart { AreApart changes.now }
    requires room { HasRoom store.old.state.log store.old.state.tx 0 (pages_of_changes (facts_of store.old.state) changes.now) }
    requires prepared { HasMapRoom live.old change }
    requires value { IfSome (present_content (D.gives store.old.device) store.old.state) (λ c. map_of (content_after changes.now c) (geometry_of (live_parts live.old)) (live_parts live.old).volume.clusters ≡ Ok (applied change (live_parts live.old))) }
    requires writable { IfSome (present_content (D.gives store.old.device) store.old.state) (λ c. AreWritable changes.now (content_after changes.now c)) }
    ensures put { HasPut D.gives D.changes_of result changes.now store.old store.new (live_parts live.old) (live_parts live.new) }
    ensures laid { OnOk result (live_parts live.new ≡ applied change (live_parts live.old)) }
    ensures stays { OnErr result (live_parts live.new ≡ live_parts live.old) }
    ensures sectors { D.sector_count store.new.device ≡ D.sector_count store.old.device }
    ensures unspelled { IfErr result (λ fault. fault ≡ Unspelled → D.gives store.old.device ≡ None) }
    ensures onwards { GoesOnwards D.fault_count D.moment_of store.old.device store.new.device }
    ensures cause { CountsOnDevice change_cause (D.fault_count store.old.device) (D.fault_count store.new.device) (D.moment_of store.new.device) result }
{
    store.state().known();
    store.known();
    match log_changes(store, alloc, changes) {
        Ok(()) => {}
        Err(fault) => return Err(fault),
    }
    apply(live, change);
    Ok(())
}

// The same, with the faults of a volume.
fn put_as<D: Device>(
    store: &mut Store<D>,
    live: &mut LiveMap,
    alloc: Global,
    changes: &[Change],
    change: MapChange,
) -> Result<(), PutFault>
    requires some { 0 < length changes.now }
    requires closed { store.old.state.is_open ≡ false }
    requires number { store.old.state.tx < 2 ^ 32 }
    requires each { All (MayLog (facts_of store.old.state)) changes.now }
    requires apart { AreApart changes.now }
    requires room { HasRoom store.old.state.log store.old.state.tx 0 (pages_of_changes (facts_of store.old.state) changes.now) }
    requires prepared { HasMapRoom live.old change }
    requires value { IfSome (present_content (D.gives store.old.device) store.old.state) (λ c. map_of (content_after changes.now c) (geometry_of (live_parts live.old)) (live_parts live.old).volume.clusters ≡ Ok (applied change (live_parts live.old))) }
    requires writable { IfSome (present_content (D.gives store.old.device) store.old.state) (λ c. AreWritable changes.now (content_after changes.now c)) }
    ensures put { HasPut D.gives D.changes_of result changes.now store.old store.new (live_parts live.old) (live_parts live.new) }
    ensures laid { OnOk result (live_parts live.new ≡ applied change (live_parts live.old)) }
    ensures stays { OnErr result (live_parts live.new ≡ live_parts live.old) }
    ensures sectors { D.sector_count store.new.device ≡ D.sector_count store.old.device }
    ensures short { NeverShort result }
    ensures broken { IsUnknownWhereBroken result (D.gives store.old.device) }
    ensures onwards { GoesOnwards D.fault_count D.moment_of store.old.device store.new.device }
    ensures cause { CountsOnDevice put_cause (D.fault_count store.old.device) (D.fault_count store.new.device) (D.moment_of store.new.device) result }
{
    match put_prepared(store, live, alloc, changes, change) {
        Ok(()) => Ok(()),
        Err(fault) => Err(change_fault(fault)),
    }
}

// Prepares the change of the map, and puts the changes.
fn put_with_room<D: Device, R: NamesRule>(
    store: &mut Store<D>,
    live: &mut LiveMap,
    rule: &R,
    alloc: Global,
    changes: &[Change],
) -> Result<(), PutFault>
    requires some { 0 < length changes.now }
    requires closed { store.old.state.is_open ≡ false }
    requires number { store.old.state.tx < 2 ^ 32 }
    requires each { All (MayLog (facts_of store.old.state)) changes.now }
    requires apart { AreApart changes.now }
    requires room { HasRoom store.old.state.log store.old.state.tx 0 (pages_of_changes (facts_of store.old.state) changes.now) }
    requires fits { All Fits changes.now }
    requires known { R.knows rule.now (live_parts live.old).volume.files }
    requires maps { IfSome (present_content (D.gives store.old.device) store.old.state) (λ c. HaveMaps (R.may rule.now) (live_parts live.old) c (content_after changes.now c)) }
    requires writable { IfSome (present_content (D.gives store.old.device) store.old.state) (λ c. AreWritable changes.now (content_after changes.now c)) }
    ensures put { HasPut D.gives D.changes_of result changes.now store.old store.new (live_parts live.old) (live_parts live.new) }
    ensures names { OnOk result (R.may rule.now (live_parts live.old).volume.files (live_parts live.new).volume.files) }
    ensures stays { OnErr result (live_parts live.new ≡ live_parts live.old) }
    ensures sectors { D.sector_count store.new.device ≡ D.sector_count store.old.device }
    ensures short { NeverShort result }
    ensures broken { IsUnknownWhereBroken result (D.gives store.old.device) }
    ensures causes { HasPutCauses D.fault_count D.moment_of result store.old store.new }
{
    match prepare_changes(store, live, rule, alloc, changes) {
        Ok(change) => put_as(store, live, alloc, changes, change),
        Err(fault) => Err(fault),
    }
}

// Puts some changes where the log has room for them.
fn put_some<D: Device, R: NamesRule>(
    store: &mut Store<D>,
    live: &mut LiveMap,
    rule: &R,
    alloc: Global,
    changes: &[Change],
) -> Result<(), PutFault>
    requires some { 0 < length changes.now }
    requires closed { store.old.state.is_open ≡ false }
    requires number { MayNumber (facts_of store.old.state) }
    requires each { All (MayLog (facts_of store.old.state)) changes.now }
    requires apart { AreApart changes.now }
    requires known { R.knows rule.now (live_parts live.old).volume.files }
    requires maps { IfSome (present_content (D.gives store.old.device) store.old.state) (λ c. HaveMaps (R.may rule.now) (live_parts live.old) c (content_after changes.now c)) }
    requires writable { IfSome (present_content (D.gives store.old.device) store.old.state) (λ c. AreWritable changes.now (content_after changes.now c)) }
    ensures put { HasPut D.gives D.changes_of result changes.now store.old store.new (live_parts live.old) (live_parts live.new) }
    ensures names { OnOk result (R.may rule.now (live_parts live.old).volume.files (live_parts live.new).volume.files) }
    ensures stays { OnErr result (live_parts live.new ≡ live_parts live.old) }
    ensures sectors { D.sector_count store.new.device ≡ D.sector_count store.old.device }
    ensures answer { GivesOrFails (λ u. u) room_cause result (room_in (facts_of store.old.state) changes.now) }
    ensures broken { IsUnknownWhereBroken result (D.gives store.old.device) }
    ensures causes { HasPutCauses D.fault_count D.moment_of result store.old store.new }
{
    match find_room(store, alloc, changes) {
        Ok(()) => put_with_room(store, live, rule, alloc, changes),
        Err(fault) => Err(fault),
    }
}

/// Puts changes through a store that shows a state, with no transaction open, of which this is the
/// map, and this the table of upper-case units: as one transaction, which leads to another state. No
/// change begins none.
///
/// - [`PutFault::NeedsRoom`]: the changes and their commit begin more pages of the log than are
///   free; it comes exactly then, unless memory is wanted before.
/// - [`PutFault::Fault`]: the device failed.
/// - [`PutFault::Memory`]: want of memory.
/// - [`PutFault::Broken`]: the content after the changes is no volume's, or its files would have
///   names that the rule doesn't allow; it comes only where what the device gives isn't known.
///
/// After each of them content, map and commits are as before; after `Ok` the files have names that
/// the rule allows, whatever the device gives. The device is only read: for the map, as
/// [`map_change::prepare`] does it, and once for each change whose block the store doesn't keep.
/// Time and memory are near-linear in the changes, beside those of the map and of the rule.
pub fn put_changes<D: Device, R: NamesRule>(
    store: &mut Store<D>,
    live: &mut LiveMap,
    rule: &R,
    upper: &Upcase,
    alloc: Global,
    changes: &[Change],
) -> Result<(), PutFault>
    requires holds { HoldsState (D.gives store.old.device) (D.changes_of store.old.device) store.old.state (live_parts live.old) upper.now }
    requires number { MayNumber (facts_of store.old.state) }
    requires each { All (MayLog (facts_of store.old.state)) changes.now }
    requires apart { AreApart changes.now }
    requires leads { IfSome (present_content (D.gives store.old.device) store.old.state) (LeadsOn (live_parts live.old) upper.now changes.now) }
    requires known { R.knows rule.now (live_parts live.old).volume.files }
    requires allowed { IfSome (present_content (D.gives store.old.device) store.old.state) (KeepsNamesBy (R.may rule.now) (live_parts live.old) changes.now) }
    ensures holds { HoldsState (D.gives store.new.device) (D.changes_of store.new.device) store.new.state (live_parts live.new) upper.now }
    ensures put { HasPut D.gives D.changes_of result changes.now store.old store.new (live_parts live.old) (live_parts live.new) }
    ensures names { 0 < length changes.now → OnOk result (R.may rule.now (live_parts live.old).volume.files (live_parts live.new).volume.files) }
    ensures stays { OnErr result (live_parts live.new ≡ live_parts live.old) }
    ensures sectors { D.sector_count store.new.device ≡ D.sector_count store.old.device }
    ensures answer { 0 < length changes.now → GivesOrFails (λ u. u) room_cause result (room_in (facts_of store.old.state) changes.now) }
    ensures broken { IsUnknownWhereBroken result (D.gives store.old.device) }
    ensures causes { HasPutCauses D.fault_count D.moment_of result store.old store.new }
{
    store.state().known();
    store.known();
    let _ = upper;
    if changes.is_empty() {
        return Ok(());
    }
    put_some(store, live, rule, alloc, changes)
}
