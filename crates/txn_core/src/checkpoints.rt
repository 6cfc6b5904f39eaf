//! Checkpoints begin and end.
ghost use Rattle.std.specs.Prelude.{◌≡◌, ◌≤◌, None, OnErr, IfSome, true, false, List};
ghost use Rattle.device_blocks.specs.disk_model.declared.block.Block.{Block};
ghost use Rattle.host_base.specs.Causes.{FailsByCause};
ghost use Rattle.device_blocks.specs.declared.word.CheckWord.{CheckWord};
ghost use Rattle.txn_laws.specs.txn_model.Calls.{noted_facts};
ghost use Rattle.txn_state.specs.States.{facts_of};
ghost use Rattle.txn_laws.specs.Windows.{SimulatesAs, AfterWrite};
ghost use Rattle.txn_core.specs.Kept.{IsKept};
ghost use Rattle.txn_core.specs.Seen.{StandsOnAs, TakesStep};
ghost use Rattle.txn_core.specs.Tells.{TellsFront};
ghost use Rattle.txn_core.specs.Turns.{MayRestart, IsLast, restart_page, restart_facts, SendsRestartPage};

use crate::store::Store;
use host_base::Failed;
use txn_laws::Device;
use txn_state::StoreState;

// The flag of the restart page that goes out: that of the page that was sent already, or this one.
fn flag_of(state: &StoreState, clean: bool) -> bool
    ensures sent { IfSome state.now.log.sent (λ s. s.page.clean ≡ result) }
    ensures none { state.now.log.sent ≡ None → result ≡ clean }
{
    match state.log().sent() {
        Some(sent) => sent.page.clean,
        None => clean,
    }
}

// Writes the restart page that names the place which a checkpoint noted, whose LSN is `front`, with
// this flag that the log is closed; a page that was sent already goes out again, with the flag that
// it had. A store ends by a page with the flag, and goes on behind one without it.
pub(crate) fn send_restart<D: Device>(
    device: &mut D,
    state: &mut StoreState,
    front: u64,
    clean: bool,
) -> Result<(), Failed>
    requires place { state.old.place.device ≤ D.sector_count device.old }
    requires kept { IsKept (facts_of state.old) }
    requires front { TellsFront state.old.log state.old.noted front }
    requires may { MayRestart (facts_of state.old) }
    requires last { clean ≡ true → IsLast (facts_of state.old) }
    ensures facts { facts_of state.new ≡ restart_facts result state.new.log.sent (facts_of state.old) }
    ensures page { OnErr result (IfSome state.new.log.sent (λ s. s.page ≡ restart_page clean (facts_of state.old))) }
    ensures sent { SendsRestartPage D.gives D.changes_of D.moment_of clean (facts_of state.old) (facts_of state.new) result device.old device.new }
    ensures sectors { D.sector_count device.new ≡ D.sector_count device.old }
    ensures cause { FailsByCause (D.fault_count device.old) (D.fault_count device.new) (D.moment_of device.new) result }
    ensures step { SimulatesAs clean (D.sector_count device.old) (D.moment_of device.old) (D.changes_of device.old) (D.changes_of device.new) (facts_of state.old) (facts_of state.new) AfterWrite }
    ensures stands { (words : List (Block × CheckWord)) → StandsOnAs clean (D.sector_count device.old) (D.changes_of device.old) state.old words → StandsOnAs clean (D.sector_count device.new) (D.changes_of device.new) state.new words }
    ensures names { TellsFront state.new.log state.new.noted front }
{
    state.known();
    let flag = flag_of(state, clean);
    state.write_restart(device, front, flag)
}

impl<D: Device> Store<D> {
    /// Begins a checkpoint, where none has begun: the page that is filled is sealed, the next place
    /// of the log is noted, and with it the blocks that are dirty, dead, or written since the last
    /// sync; each block's next change logs it whole. No transaction is open. It takes no memory and
    /// makes no call of the device; near-linear in the blocks that have marks.
    pub fn begin_checkpoint(&mut self)
        requires closed { self.old.state.is_open ≡ false }
        requires none { self.old.state.noted ≡ None }
        ensures facts { facts_of self.new.state ≡ noted_facts (facts_of self.old.state) }
        ensures unsent { self.new.state.log.sent ≡ None }
        ensures device { self.new.device ≡ self.old.device }
        ensures words { self.new.words ≡ self.old.words }
        ensures step { TakesStep D.sector_count D.moment_of D.changes_of AfterWrite self.old self.new }
    {
        self.state.known();
        self.state.begin_checkpoint();
        self.told.after_begin(&self.state);
    }

    /// Writes the restart page that names the place which a checkpoint noted: nothing that it noted
    /// is still to be written out or synced, the pages sealed before it are durable, and no restart
    /// page was written since the last sync. The next sync that succeeds frees the ring up to there.
    /// The page doesn't say that the log is closed. A call after one that failed behind its read
    /// writes the same bytes.
    ///
    /// The error is a failure of the device: then any sectors of the page may stand, and the
    /// checkpoint hasn't ended. At most two calls of the device.
    pub fn write_restart(&mut self) -> Result<(), Failed>
        requires may { MayRestart (facts_of self.old.state) }
        ensures facts { facts_of self.new.state ≡ restart_facts result self.new.state.log.sent (facts_of self.old.state) }
        ensures page { OnErr result (IfSome self.new.state.log.sent (λ s. s.page ≡ restart_page false (facts_of self.old.state))) }
        ensures sent { SendsRestartPage D.gives D.changes_of D.moment_of false (facts_of self.old.state) (facts_of self.new.state) result self.old.device self.new.device }
        ensures words { self.new.words ≡ self.old.words }
        ensures sectors { D.sector_count self.new.device ≡ D.sector_count self.old.device }
        ensures cause { FailsByCause (D.fault_count self.old.device) (D.fault_count self.new.device) (D.moment_of self.new.device) result }
        ensures step { TakesStep D.sector_count D.moment_of D.changes_of AfterWrite self.old self.new }
    {
        send_restart(&mut self.device, &mut self.state, self.told.front, false)
    }
}
