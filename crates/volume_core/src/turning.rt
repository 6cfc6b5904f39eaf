//! The steps of a volume's store.
ghost use Rattle.std.specs.Prelude.{◌≡◌};
ghost use Rattle.host_base.specs.Causes.{FailsByCause};
ghost use Rattle.txn_state.specs.States.{facts_of};
ghost use Rattle.working_volume.specs.txn_core.Seen.{TakesStep};
ghost use Rattle.working_volume.specs.txn_core.Steps.{MayTurn, HasTurned, TurnsDevice, AfterTurn};
ghost use Rattle.working_volume.specs.state_store.Turns.{TurnsVolume};
ghost use Rattle.volume_core.specs.Volumes.{volume_tree};
ghost use Rattle.volume_core.specs.Calls.{TurnsTrees};

use crate::laws::ready_stays;
use crate::volume::Volume;
use crash_trees::{steps_stay, trees_mount, trees_turn};
use flush_policy::StoreStep;
use host_base::Failed;
use sector_device::Device;
use working_volume::{needed_is_all, turn_store};

impl<D: Device> Volume<D> {
    /// Takes a step of the store, as [`flush_policy::next_step`] chooses it by the volume's
    /// [`facts`](Volume::facts): a page of the log is sealed or written, the device is synced, a
    /// block is written out, or a checkpoint begins or ends.
    ///
    /// The error is a failure of the device: then the step wasn't taken, and may be taken again.
    /// Whether it was or not, the volume has the same tree, with the same map, behind as many
    /// commits, and the same trees that a crash may bring back. It takes no memory; the costs are those of the store's step.
    pub fn turn(&mut self, step: StoreStep) -> Result<(), Failed>
        requires may { MayTurn (facts_of self.old.store.state) step }
        ensures stands { TurnsVolume (D.gives self.old.store.device) (D.gives self.new.store.device) (D.changes_of self.new.store.device) self.old.store.state self.new.store.state self.old.map self.old.table }
        ensures tree { volume_tree D.gives self.new ≡ volume_tree D.gives self.old }
        ensures map { self.new.map ≡ self.old.map }
        ensures table { self.new.table ≡ self.old.table }
        ensures streams { self.new.streams ≡ self.old.streams }
        ensures facts { HasTurned step result (facts_of self.old.store.state) (facts_of self.new.store.state) }
        ensures sent { TurnsDevice D.gives D.changes_of D.moment_of step result (facts_of self.old.store.state) (facts_of self.new.store.state) self.old.store.words self.new.store.words self.old.store.device self.new.store.device }
        ensures sectors { D.sector_count self.new.store.device ≡ D.sector_count self.old.store.device }
        ensures cause { FailsByCause (D.fault_count self.old.store.device) (D.fault_count self.new.store.device) (D.moment_of self.new.store.device) result }
        ensures history { TurnsTrees D.gives D.sector_count D.moment_of D.changes_of self.old self.new }
        ensures step { TakesStep D.sector_count D.moment_of D.changes_of (AfterTurn step result (facts_of self.old.store.state)) self.old.store self.new.store }
    {
        ready_stays();
        needed_is_all();
        trees_mount();
        trees_turn(self.store.device());
        steps_stay(self.store.device());
        turn_store(&mut self.store, &self.live, &self.upper, step)
    }
}
