//! A step of a volume's store.
ghost use Rattle.host_base.specs.Causes.{FailsByCause};
ghost use Rattle.txn_state.specs.States.{facts_of};
ghost use Rattle.txn_model.specs.Told.{KeepsSteps};
ghost use Rattle.volume_core.specs.txn_core.Kept.{IsKept};
ghost use Rattle.volume_core.specs.txn_core.Steps.{MayTurn, HasTurned};
ghost use Rattle.volume_sync.specs.Runs.{RunsOn};

use sector_device::Device;
use volume_core::{Failed, StoreStep, Volume};

// Takes a step of the store.
pub(crate) fn step_on<D: Device>(volume: &mut Volume<D>, step: StoreStep) -> Result<(), Failed>
    requires may { MayTurn (facts_of volume.old.store.state) step }
    ensures runs { RunsOn D.gives D.sector_count D.moment_of D.changes_of volume.old volume.new }
    ensures facts { HasTurned step result (facts_of volume.old.store.state) (facts_of volume.new.store.state) }
    ensures kept { IsKept (facts_of volume.new.store.state) }
    ensures cause { FailsByCause (D.fault_count volume.old.store.device) (D.fault_count volume.new.store.device) (D.moment_of volume.new.store.device) result }
{
    volume.facts();
    let result = volume.turn(step);
    volume.facts();
    result
}
