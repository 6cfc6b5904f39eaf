//! The plan of an operation over a store.
ghost use Rattle.std.specs.Prelude.{◌≡◌, None, true, IfOk, IfSome, IsErrOf, length};
ghost use Rattle.tree_model.specs.Steps.{IsWithinBounds};
ghost use Rattle.plans_lead.specs.volume_map.Maps.{IsMapOf, volume_in};
ghost use Rattle.plans_lead.specs.volume_lookup.Known.{known_tree};
ghost use Rattle.plans_lead.specs.txn_core.Views.{present_content};
ghost use Rattle.put_checks.specs.state_store.Preparing.{KeepsSeen, FailsSeen, CountsSeen};
ghost use Rattle.change_plan.specs.Faults.{plan_cause};
ghost use Rattle.change_plan.specs.States.{is_data_change};
ghost use Rattle.change_plan.specs.Plans.{IsSound, PlansFrom, KnowsFrom};

use change_plan::{ChangePlan, NamedVolume, Op, PlanFault, Upcase, VolumeStreams, plan_change};
use plans_lead::{Store, StoreView};
use sector_device::Device;
use std::alloc::Global;

/// The plan of an operation that writes, fills or cuts a file, over the present content of a store,
/// which is only read, through room for a piece of its device ([`device_view::piece_room`]). What is
/// asked, what is answered and what it costs are those of [`plan_change`].
pub fn plan_over<D: Device>(
    store: &mut Store<D>,
    room: &mut [u8],
    alloc: Global,
    volume: &NamedVolume<'_>,
    up: &Upcase,
    streams: &VolumeStreams,
    op: &Op,
    stamp: u64,
) -> Result<ChangePlan, PlanFault>
    requires sized { length room.old ≡ 65536 }
    requires changes { is_data_change op.now ≡ true }
    requires bounds { IsWithinBounds op.now }
    requires mapped { IfSome (present_content (D.gives store.old.device) store.old.state) (λ c. IsMapOf c volume.now.map.now) }
    requires journal { IfSome (known_tree up.now (volume_in volume.now.map.now) (present_content (D.gives store.old.device) store.old.state)) (λ t. t.journal ≡ None) }
    ensures plans { IfSome (present_content (D.gives store.old.device) store.old.state) (PlansFrom up.now (volume_in volume.now.map.now) streams.now op.now stamp result) }
    ensures known { IfSome (present_content (D.gives store.old.device) store.old.state) (KnowsFrom up.now (volume_in volume.now.map.now) streams.now result) }
    ensures sound { IfOk result (IsSound (present_content (D.gives store.old.device) store.old.state) op.now) }
    ensures sized { length room.new ≡ 65536 }
    ensures kept { KeepsSeen D.gives D.sector_count D.changes_of D.fault_count D.moment_of store.old store.new }
    ensures fault { IsErrOf result PlanFault.Fault → FailsSeen D.fault_count D.moment_of store.old store.new }
    ensures counted { CountsSeen D.fault_count D.moment_of plan_cause result store.old store.new }
{
    let mut view = StoreView::new(room, store);
    plan_change(alloc, &mut view, volume, up, streams, op, stamp)
}
