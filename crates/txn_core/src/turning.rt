//! The steps of a store, by name.
ghost use Rattle.std.specs.Prelude.{◌≡◌};
ghost use Rattle.host_base.specs.Causes.{FailsByCause};
ghost use Rattle.txn_state.specs.States.{facts_of};
ghost use Rattle.txn_core.specs.Seen.{TakesStep};
ghost use Rattle.txn_core.specs.Steps.{MayTurn, HasTurned, TurnsDevice, AfterTurn};

use crate::store::Store;
use host_base::Failed;
use txn_laws::{Device, StoreStep};

impl<D: Device> Store<D> {
    /// Takes a step of the store, as [`flush_policy::next_step`] chooses it: the call that has its
    /// name. A restart page is written without the flag that the log is closed.
    ///
    /// The error is a failure of the device: then the step wasn't taken, and may be taken again.
    /// It takes no memory.
    pub fn turn(&mut self, step: StoreStep) -> Result<(), Failed>
        requires may { MayTurn (facts_of self.old.state) step }
        ensures facts { HasTurned step result (facts_of self.old.state) (facts_of self.new.state) }
        ensures sent { TurnsDevice D.gives D.changes_of D.moment_of step result (facts_of self.old.state) (facts_of self.new.state) self.old.words self.new.words self.old.device self.new.device }
        ensures sectors { D.sector_count self.new.device ≡ D.sector_count self.old.device }
        ensures cause { FailsByCause (D.fault_count self.old.device) (D.fault_count self.new.device) (D.moment_of self.new.device) result }
        ensures step { TakesStep D.sector_count D.moment_of D.changes_of (AfterTurn step result (facts_of self.old.state)) self.old self.new }
    {
        match step {
            StoreStep::SealPage => {
                self.seal();
                Ok(())
            }
            StoreStep::WritePage => self.write_page(),
            StoreStep::SyncDevice => self.sync_device(),
            StoreStep::WriteOut(block) => self.write_out(block),
            StoreStep::BeginCheckpoint => {
                self.begin_checkpoint();
                Ok(())
            }
            StoreStep::WriteRestart => self.write_restart(),
        }
    }
}
