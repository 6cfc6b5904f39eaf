//! The steps of a volume's store.
ghost use Rattle.std.specs.Prelude.{◌≡◌};
ghost use Rattle.host_base.specs.Causes.{FailsByCause};
ghost use Rattle.same_names.specs.map_change.Parts.{live_parts};
ghost use Rattle.turn_laws.specs.txn_state.States.{facts_of};
ghost use Rattle.turn_laws.specs.txn_core.Seen.{TakesStep};
ghost use Rattle.turn_laws.specs.txn_core.Steps.{MayTurn, HasTurned, TurnsDevice, AfterTurn};
ghost use Rattle.turn_laws.specs.txn_core.Views.{present_content};
ghost use Rattle.state_store.specs.Turns.{AgreeWhereKnown, TurnsVolume};
ghost use Rattle.state_store.specs.Volumes.{HoldsState};

use flush_policy::StoreStep;
use host_base::Failed;
use same_names::{LiveMap, Upcase};
use sector_device::Device;
use state_blocks::needed_is_all;
use turn_laws::{Store, steps_spare};

/// Takes a step of a store that shows a state with this map and this table of upper-case units, as
/// [`flush_policy::next_step`] chooses it by the store's facts: a page of the log is sealed or
/// written, the device is synced, a block is written out, or a checkpoint begins or ends.
///
/// The error is a failure of the device: then the step wasn't taken, and may be taken again. Whether
/// it was or not, the present content is the same state, with the same map, as many lists of changes
/// were put, and the store has a window that follows. The costs are those of [`Store::turn`]; it
/// takes no memory.
pub fn turn_store<D: Device>(
    store: &mut Store<D>,
    live: &LiveMap,
    upper: &Upcase,
    step: StoreStep,
) -> Result<(), Failed>
    requires holds { HoldsState (D.gives store.old.device) (D.changes_of store.old.device) store.old.state (live_parts live.now) upper.now }
    requires may { MayTurn (facts_of store.old.state) step }
    ensures stands { TurnsVolume (D.gives store.old.device) (D.gives store.new.device) (D.changes_of store.new.device) store.old.state store.new.state (live_parts live.now) upper.now }
    ensures facts { HasTurned step result (facts_of store.old.state) (facts_of store.new.state) }
    ensures sent { TurnsDevice D.gives D.changes_of D.moment_of step result (facts_of store.old.state) (facts_of store.new.state) store.old.words store.new.words store.old.device store.new.device }
    ensures sectors { D.sector_count store.new.device ≡ D.sector_count store.old.device }
    ensures cause { FailsByCause (D.fault_count store.old.device) (D.fault_count store.new.device) (D.moment_of store.new.device) result }
    ensures step { TakesStep D.sector_count D.moment_of D.changes_of (AfterTurn step result (facts_of store.old.state)) store.old store.new }
{
    store.state().known();
    steps_spare(store.device());
    needed_is_all();
    let _ = live;
    let _ = upper;
    let result = store.turn(step);
    store.state().known();
    result
}
