//! A store that ends.
ghost use Rattle.std.specs.Prelude.{◌≡◌, true, OnErr, IfSome};
ghost use Rattle.host_base.specs.Causes.{FailsByCause};
ghost use Rattle.txn_laws.specs.sector_device.Moments.{moment_after, Syncs};
ghost use Rattle.txn_state.specs.States.{facts_of};
ghost use Rattle.txn_laws.specs.Windows.{AfterWrite};
ghost use Rattle.txn_core.specs.Calls.{sync_facts, AfterSync};
ghost use Rattle.txn_core.specs.Seen.{TakesEndStep};
ghost use Rattle.txn_core.specs.Turns.{MayRestart, IsLast, restart_page, restart_facts, SendsRestartPage};

use crate::checkpoints::send_restart;
use crate::store::Store;
use device_blocks::CheckWord;
use host_base::Failed;
use std::marker::Model;
use txn_laws::{Device, Pool};
use txn_state::StoreState;

/// A store that ends by a last checkpoint, whose restart page says that the log is closed. Recovery
/// reads no entry behind that page, so nothing leads back to a store, and no transaction begins.
#[derive(Drop)]
pub struct Closing<D: Device> {
    device: D,
    state: StoreState,
    words: Pool<CheckWord>,
    // The LSN of the place that a checkpoint noted.
    front: u64,
}

impl<D: Device> Model for Closing<D> {
    ghost use Rattle.txn_core.specs.Seen.{Seen, EndsOn};
    ghost use Rattle.txn_core.specs.Tells.{TellsFront};

    ghost Value = { Seen D };

    ghost view = { λ s. record { device = s.device; state = s.state; words = s.words } };

    ghost invariant = { λ s. EndsOn (D.sector_count s.device) (D.changes_of s.device) s.state s.words × TellsFront s.state.log s.state.noted s.front };
}

impl<D: Device> Store<D> {
    /// The store as one that ends. It takes no memory.
    pub fn closing(self) -> Closing<D>
        ensures { result ≡ self }
    {
        let Store {
            device,
            state,
            words,
            told,
        } = self;
        Closing {
            device,
            state,
            words,
            front: told.front,
        }
    }
}

impl<D: Device> Closing<D> {
    /// Writes the restart page that names the place which a checkpoint noted, and says that the log
    /// is closed: nothing that it noted is still to be written out or synced, the pages sealed
    /// before it are durable, no restart page was written since the last sync, and no entry stands
    /// behind that place, since recovery reads none there. A page that was sent already goes out
    /// again, with the same bytes.
    ///
    /// The error is a failure of the device: then any sectors of the page may stand, and the
    /// checkpoint hasn't ended. At most two calls of the device.
    pub fn write_restart(&mut self) -> Result<(), Failed>
        requires may { MayRestart (facts_of self.old.state) }
        requires last { IsLast (facts_of self.old.state) }
        ensures facts { facts_of self.new.state ≡ restart_facts result self.new.state.log.sent (facts_of self.old.state) }
        ensures page { OnErr result (IfSome self.new.state.log.sent (λ s. s.page ≡ restart_page true (facts_of self.old.state))) }
        ensures sent { SendsRestartPage D.gives D.changes_of D.moment_of true (facts_of self.old.state) (facts_of self.new.state) result self.old.device self.new.device }
        ensures words { self.new.words ≡ self.old.words }
        ensures sectors { D.sector_count self.new.device ≡ D.sector_count self.old.device }
        ensures cause { FailsByCause (D.fault_count self.old.device) (D.fault_count self.new.device) (D.moment_of self.new.device) result }
        ensures step { TakesEndStep D.sector_count D.moment_of D.changes_of AfterWrite self.old self.new }
    {
        send_restart(&mut self.device, &mut self.state, self.front, true)
    }

    /// Makes durable what was written.
    ///
    /// The error is a failure of the device; then nothing changes. One call of the device;
    /// near-linear in the blocks that have marks or bodies.
    pub fn sync_device(&mut self) -> Result<(), Failed>
        ensures facts { facts_of self.new.state ≡ sync_facts result (facts_of self.old.state) }
        ensures gives { D.gives self.new.device ≡ D.gives self.old.device }
        ensures changes { Syncs (D.moment_of self.old.device) result (D.changes_of self.old.device) (D.changes_of self.new.device) }
        ensures moment { D.moment_of self.new.device ≡ moment_after (D.moment_of self.old.device) }
        ensures words { self.new.words ≡ self.old.words }
        ensures sectors { D.sector_count self.new.device ≡ D.sector_count self.old.device }
        ensures cause { FailsByCause (D.fault_count self.old.device) (D.fault_count self.new.device) (D.moment_of self.new.device) result }
        ensures step { TakesEndStep D.sector_count D.moment_of D.changes_of (AfterSync result (facts_of self.old.state)) self.old self.new }
    {
        self.state.sync(&mut self.device)
    }

    /// The device alone.
    pub fn into_device(self) -> D
        ensures { result ≡ self.device }
    {
        let Closing { device, .. } = self;
        device
    }
}
