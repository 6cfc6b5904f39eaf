//! Operations that write, fill or cut a file, done on a volume.
ghost use Rattle.std.specs.Prelude.{◌≡◌, ◌<◌, true, false, All, None, IfOk, IfSome, IsErrOf, Ok, Err, length};
ghost use Rattle.tree_model.specs.Steps.{IsWithinBounds, is_given_up};
ghost use Rattle.log_reading.specs.Rings.{IsRingPlace};
ghost use Rattle.plans_lead.specs.map_change.Parts.{live_parts};
ghost use Rattle.plans_lead.specs.same_names.Names.{SameNames};
ghost use Rattle.plans_lead.specs.volume_map.Maps.{volume_in};
ghost use Rattle.plans_lead.specs.volume_tree.Named.{AreNamesOf};
ghost use Rattle.plans_lead.specs.txn_state.States.{facts_of};
ghost use Rattle.plans_lead.specs.txn_core.Views.{present_content};
ghost use Rattle.put_checks.specs.state_store.Volumes.{geometry_of, HoldsState};
ghost use Rattle.put_checks.specs.state_store.Changes.{MayLog, AreApart, LeadsOn, KeepsNamesBy};
ghost use Rattle.put_checks.specs.state_store.Rooms.{MayNumber};
ghost use Rattle.put_checks.specs.state_store.Preparing.{KeepsSeen, FailsSeen, CountsSeen};
ghost use Rattle.change_plan.specs.declared.fault.PlanFault.TheVariants as plan_faults;
ghost use Rattle.change_plan.specs.Faults.{plan_cause};
ghost use Rattle.change_plan.specs.States.{is_data_change};
ghost use Rattle.change_plan.specs.Plans.{Plans};
ghost use Rattle.put_checks.specs.Checks.{may_put};
ghost use Rattle.working_volume.specs.declared.fault.DoFault.TheVariants as do_faults;
ghost use Rattle.working_volume.specs.Ready.{IsReady, IsTaken};
ghost use Rattle.working_volume.specs.Doing.{put_answer, Does, CountsChange};
ghost use Rattle.working_volume.specs.Putting.{PutsPlan};

use crate::fault::DoFault;
use crate::planning::plan_over;
use change_plan::{ChangePlan, NamedVolume, Names, Op, PlanFault, Reply, Upcase, VolumeStreams};
use disk_model::Change;
use plans_lead::{LiveMap, Store, names_stay, plans_lead_on};
use put_checks::{
    PutFault, SameNamesRule, checks_are_enough, checks_are_met, may_put, put_changes,
};
use sector_device::Device;
use std::alloc::Global;

// What is answered where the changes of an operation with this reply were put, or weren't.
fn answered(reply: Reply, put: Result<(), PutFault>) -> Result<Reply, DoFault>
    ensures { result ≡ put_answer reply put }
{
    match put {
        Ok(()) => Ok(reply),
        Err(PutFault::NeedsRoom { pages, room }) => Err(DoFault::NeedsRoom { pages, room }),
        Err(PutFault::Fault) => Ok(Reply::Fault),
        Err(PutFault::Memory) => Ok(Reply::Memory),
        Err(PutFault::Broken) => Err(DoFault::Unknown),
    }
}

// Whether the store may be given the changes.
fn may_be_put<D: Device>(store: &Store<D>, changes: &[Change]) -> bool
    ensures { result ≡ may_put store.now.state.place store.now.state.found changes.now }
{
    may_put(store.state().place(), store.state().found(), changes)
}

// Puts the changes of a plan that has some, which were tried.
fn put_tried<D: Device>(
    store: &mut Store<D>,
    live: &mut LiveMap,
    alloc: Global,
    upper: &Upcase,
    plan: ChangePlan,
) -> Result<Reply, DoFault>
    requires holds { HoldsState (D.gives store.old.device) (D.changes_of store.old.device) store.old.state (live_parts live.old) upper.now }
    requires number { MayNumber (facts_of store.old.state) }
    requires some { 0 < length plan.changes.items }
    requires each { All (MayLog (facts_of store.old.state)) plan.changes.items }
    requires apart { AreApart plan.changes.items }
    requires leads { IfSome (present_content (D.gives store.old.device) store.old.state) (LeadsOn (live_parts live.old) upper.now plan.changes.items) }
    requires allowed { IfSome (present_content (D.gives store.old.device) store.old.state) (KeepsNamesBy SameNames (live_parts live.old) plan.changes.items) }
    requires kept_on { is_given_up plan.reply ≡ false }
    ensures puts { PutsPlan D.gives D.sector_count D.changes_of D.fault_count D.moment_of result plan store.old store.new (live_parts live.old) (live_parts live.new) upper.now }
{
    names_stay();
    let ChangePlan { reply, changes } = plan;
    let put = put_changes(store, live, &SameNamesRule, upper, alloc, &changes);
    answered(reply, put)
}

// Puts the changes of a plan that has some, where the store may be given them.
fn put_some<D: Device>(
    store: &mut Store<D>,
    live: &mut LiveMap,
    alloc: Global,
    upper: &Upcase,
    plan: ChangePlan,
) -> Result<Reply, DoFault>
    requires holds { HoldsState (D.gives store.old.device) (D.changes_of store.old.device) store.old.state (live_parts live.old) upper.now }
    requires number { MayNumber (facts_of store.old.state) }
    requires ring { IsRingPlace store.old.state.place }
    requires some { 0 < length plan.changes.items }
    requires leads { IfSome (present_content (D.gives store.old.device) store.old.state) (LeadsOn (live_parts live.old) upper.now plan.changes.items) }
    requires allowed { IfSome (present_content (D.gives store.old.device) store.old.state) (KeepsNamesBy SameNames (live_parts live.old) plan.changes.items) }
    requires passes { IfSome (present_content (D.gives store.old.device) store.old.state) (λ c. may_put store.old.state.place store.old.state.found plan.changes.items ≡ true) }
    requires kept_on { is_given_up plan.reply ≡ false }
    ensures puts { PutsPlan D.gives D.sector_count D.changes_of D.fault_count D.moment_of result plan store.old store.new (live_parts live.old) (live_parts live.new) upper.now }
{
    checks_are_enough();
    store.state().known();
    if !may_be_put(store, &plan.changes) {
        return Err(DoFault::Unknown);
    }
    put_tried(store, live, alloc, upper, plan)
}

// Puts the changes of a plan, if it has some.
fn put_plan<D: Device>(
    store: &mut Store<D>,
    live: &mut LiveMap,
    alloc: Global,
    upper: &Upcase,
    plan: ChangePlan,
) -> Result<Reply, DoFault>
    requires holds { HoldsState (D.gives store.old.device) (D.changes_of store.old.device) store.old.state (live_parts live.old) upper.now }
    requires number { MayNumber (facts_of store.old.state) }
    requires ring { IsRingPlace store.old.state.place }
    requires leads { 0 < length plan.changes.items → IfSome (present_content (D.gives store.old.device) store.old.state) (LeadsOn (live_parts live.old) upper.now plan.changes.items) }
    requires allowed { 0 < length plan.changes.items → IfSome (present_content (D.gives store.old.device) store.old.state) (KeepsNamesBy SameNames (live_parts live.old) plan.changes.items) }
    requires passes { 0 < length plan.changes.items → IfSome (present_content (D.gives store.old.device) store.old.state) (λ c. may_put store.old.state.place store.old.state.found plan.changes.items ≡ true) }
    requires kept_on { is_given_up plan.reply ≡ false }
    ensures puts { PutsPlan D.gives D.sector_count D.changes_of D.fault_count D.moment_of result plan store.old store.new (live_parts live.old) (live_parts live.new) upper.now }
{
    store.state().known();
    if plan.changes.as_slice().is_empty() {
        return Ok(plan.reply);
    }
    put_some(store, live, alloc, upper, plan)
}

// The plan of an operation over a store and its map, with changes that the volume takes.
fn plan_on<D: Device>(
    store: &mut Store<D>,
    live: &LiveMap,
    room: &mut [u8],
    alloc: Global,
    names: &Names,
    upper: &Upcase,
    streams: &VolumeStreams,
    op: &Op,
    stamp: u64,
) -> Result<ChangePlan, PlanFault>
    requires holds { HoldsState (D.gives store.old.device) (D.changes_of store.old.device) store.old.state (live_parts live.now) upper.now }
    requires sized { length room.old ≡ 65536 }
    requires changes { is_data_change op.now ≡ true }
    requires bounds { IsWithinBounds op.now }
    requires named { AreNamesOf names.now (live_parts live.now).volume.files }
    requires ready { IfSome (present_content (D.gives store.old.device) store.old.state) (IsReady (facts_of store.old.state) (live_parts live.now) upper.now streams.now) }
    ensures plans { IfSome (present_content (D.gives store.old.device) store.old.state) (λ c. Plans result c (geometry_of (live_parts live.now)) (live_parts live.now).volume.clusters (live_parts live.now).volume streams.now op.now stamp) }
    ensures unknown { IsErrOf result plan_faults.Unknown → D.gives store.old.device ≡ None }
    ensures taken { IfOk result (λ plan. 0 < length plan.changes.items → IfSome (present_content (D.gives store.old.device) store.old.state) (IsTaken (facts_of store.old.state) (live_parts live.now) upper.now streams.now plan.changes.items)) }
    ensures kept_on { IfOk result (λ plan. is_given_up plan.reply ≡ false) }
    ensures sized { length room.new ≡ 65536 }
    ensures kept { KeepsSeen D.gives D.sector_count D.changes_of D.fault_count D.moment_of store.old store.new }
    ensures fault { IsErrOf result plan_faults.Fault → FailsSeen D.fault_count D.moment_of store.old store.new }
    ensures counted { CountsSeen D.fault_count D.moment_of plan_cause result store.old store.new }
{
    plans_lead_on();
    checks_are_met();
    let volume = NamedVolume::new(&live.map, names);
    plan_over(store, room, alloc, &volume, upper, streams, op, stamp)
}

/// Does an operation that writes, fills or cuts a file, on a volume that rests in its store, with
/// the map of its content and the names of its files in memory.
/// - `room`: a piece of the device ([`device_view::piece_room`]), for reading;
/// - `upper`, `streams`: the volume's table of upper-case units, and the streams of its file table,
///   of the table's mirror and of the bits of its clusters;
/// - `stamp`: the time of the change, in units of 100 ns since 1601-01-01.
///
/// The operation is planned over the present content ([`change_plan::plan_change`]); its changes are
/// tried, and put as one transaction, and the map follows. From a state that is ready the reply and
/// the content are those of the operation's step, and the state behind it is ready again. A failure
/// of the device and want of memory are replies.
///
/// - [`DoFault::NeedsRoom`]: the log has no room for the changes.
/// - [`DoFault::Unknown`]: what was read is part of no state; only where what the device gives isn't
///   known.
///
/// After each of them content and map are as before. It takes the time and memory of the plan, and
/// of [`state_store::put_changes`].
pub fn change_over<D: Device>(
    store: &mut Store<D>,
    live: &mut LiveMap,
    room: &mut [u8],
    alloc: Global,
    names: &Names,
    upper: &Upcase,
    streams: &VolumeStreams,
    op: &Op,
    stamp: u64,
) -> Result<Reply, DoFault>
    requires holds { HoldsState (D.gives store.old.device) (D.changes_of store.old.device) store.old.state (live_parts live.old) upper.now }
    requires number { MayNumber (facts_of store.old.state) }
    requires sized { length room.old ≡ 65536 }
    requires changes { is_data_change op.now ≡ true }
    requires bounds { IsWithinBounds op.now }
    requires ring { IsRingPlace store.old.state.place }
    requires named { AreNamesOf names.now (live_parts live.old).volume.files }
    requires ready { IfSome (present_content (D.gives store.old.device) store.old.state) (IsReady (facts_of store.old.state) (live_parts live.old) upper.now streams.now) }
    ensures holds { HoldsState (D.gives store.new.device) (D.changes_of store.new.device) store.new.state (live_parts live.new) upper.now }
    ensures does { Does op.now stamp upper.now streams.now result (D.gives store.old.device) (D.gives store.new.device) store.old.state store.new.state (D.changes_of store.old.device) (D.changes_of store.new.device) (live_parts live.old) (live_parts live.new) }
    ensures named { AreNamesOf names.now (live_parts live.new).volume.files }
    ensures ready { IfSome (present_content (D.gives store.new.device) store.new.state) (IsReady (facts_of store.new.state) (live_parts live.new) upper.now streams.now) }
    ensures unknown { result ≡ Err do_faults.Unknown → D.gives store.old.device ≡ None }
    ensures counts { CountsChange D.fault_count D.moment_of result store.old.device store.new.device }
    ensures sectors { D.sector_count store.new.device ≡ D.sector_count store.old.device }
    ensures sized { length room.new ≡ 65536 }
{
    store.state().known();
    match plan_on(store, live, room, alloc, names, upper, streams, op, stamp) {
        Ok(plan) => put_plan(store, live, alloc, upper, plan),
        Err(PlanFault::Fault) => Ok(Reply::Fault),
        Err(PlanFault::Memory) => Ok(Reply::Memory),
        Err(PlanFault::Unknown) => Err(DoFault::Unknown),
    }
}
