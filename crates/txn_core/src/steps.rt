//! The steps that write the log and make it durable.
ghost use Rattle.std.specs.Prelude.{◌≡◌, ◌<◌, ◌≤◌};
ghost use Rattle.host_base.specs.Causes.{FailsByCause};
ghost use Rattle.device_blocks.specs.fixup_record.Protecting.{protected_bytes};
ghost use Rattle.device_blocks.specs.log_area.Areas.{page_sector, held_page, made_page};
ghost use Rattle.device_blocks.specs.log_area.Calls.{IsSentOrNot};
ghost use Rattle.txn_laws.specs.sector_device.Moments.{moment_after, Syncs};
ghost use Rattle.txn_state.specs.States.{facts_of};
ghost use Rattle.txn_laws.specs.Windows.{AfterWrite};
ghost use Rattle.txn_core.specs.Calls.{page_facts, sync_facts, AfterSync};
ghost use Rattle.txn_core.specs.Seen.{TakesStep};

use crate::store::Store;
use host_base::Failed;
use txn_laws::Device;

impl<D: Device> Store<D> {
    /// Writes the oldest sealed page of the log that wasn't written, after a read of its place
    /// where it has no check word yet; a call after one that failed behind that writes the same
    /// bytes.
    ///
    /// The error is a failure of the device: then the page is still to be written, and any of its
    /// sectors may stand. At most two calls of the device.
    pub fn write_page(&mut self) -> Result<(), Failed>
        requires some { self.old.state.log.done < self.old.state.log.sealed }
        ensures facts { facts_of self.new.state ≡ page_facts result self.new.state.log.check (facts_of self.old.state) }
        ensures sent { IsSentOrNot D.gives D.changes_of D.moment_of self.old.state.log.check self.new.state.log.check (page_sector self.old.state.log self.old.state.log.done) (protected_bytes (made_page (held_page self.old.state.log self.old.state.log.done))) result self.old.device self.new.device }
        ensures words { self.new.words ≡ self.old.words }
        ensures sectors { D.sector_count self.new.device ≡ D.sector_count self.old.device }
        ensures cause { FailsByCause (D.fault_count self.old.device) (D.fault_count self.new.device) (D.moment_of self.new.device) result }
        ensures step { TakesStep D.sector_count D.moment_of D.changes_of AfterWrite self.old self.new }
    {
        self.state.write_page(&mut self.device)
    }

    /// Makes durable what was written, and the commits with it whose pages were. Dead bodies leave
    /// whose rivals' changes are durable by then.
    ///
    /// The error is a failure of the device; then nothing changes. One call of the device;
    /// near-linear in the blocks that have marks or bodies.
    pub fn sync_device(&mut self) -> Result<(), Failed>
        ensures facts { facts_of self.new.state ≡ sync_facts result (facts_of self.old.state) }
        ensures gives { D.gives self.new.device ≡ D.gives self.old.device }
        ensures changes { Syncs (D.moment_of self.old.device) result (D.changes_of self.old.device) (D.changes_of self.new.device) }
        ensures moment { D.moment_of self.new.device ≡ moment_after (D.moment_of self.old.device) }
        ensures words { self.new.words ≡ self.old.words }
        ensures sectors { D.sector_count self.new.device ≡ D.sector_count self.old.device }
        ensures cause { FailsByCause (D.fault_count self.old.device) (D.fault_count self.new.device) (D.moment_of self.new.device) result }
        ensures step { TakesStep D.sector_count D.moment_of D.changes_of (AfterSync result (facts_of self.old.state)) self.old self.new }
    {
        let result = self.state.sync(&mut self.device);
        self.told.after_sync(&self.state, result.is_ok());
        result
    }
}
