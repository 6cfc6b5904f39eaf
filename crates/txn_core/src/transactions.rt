//! Transactions begin and end, in memory.
ghost use Rattle.std.specs.Prelude.{◌≡◌, ◌<◌, ◌^◌, true, false};
ghost use Rattle.txn_laws.specs.log_model.declared.entry.Act.TheVariants.{Commit};
ghost use Rattle.txn_laws.specs.txn_model.Appending.{MayAppend};
ghost use Rattle.txn_laws.specs.txn_model.Pieces.{next_entry};
ghost use Rattle.txn_laws.specs.txn_model.Calls.{begun_facts, committed_facts, given_up_facts, sealed_facts};
ghost use Rattle.txn_state.specs.States.{facts_of};
ghost use Rattle.txn_laws.specs.Windows.{AfterBegin, AfterCommit, AfterGiveUp, AfterWrite};
ghost use Rattle.txn_core.specs.Seen.{TakesStep};

use crate::store::Store;
use txn_laws::Device;

impl<D: Device> Store<D> {
    /// Begins a transaction, where none is open, and answers its number. There are fewer than 2^32
    /// of them.
    pub fn begin(&mut self) -> u64
        requires closed { self.old.state.is_open ≡ false }
        requires number { self.old.state.tx < 2 ^ 32 }
        ensures tx { result ≡ self.old.state.tx }
        ensures facts { facts_of self.new.state ≡ begun_facts (facts_of self.old.state) }
        ensures device { self.new.device ≡ self.old.device }
        ensures words { self.new.words ≡ self.old.words }
        ensures step { TakesStep D.sector_count D.moment_of D.changes_of AfterBegin self.old self.new }
    {
        let tx = self.state.tx();
        self.state.begin();
        tx
    }

    /// Commits the open transaction, and answers how many commits there are now. The log has room
    /// for its entry. It takes no memory and makes no call of the device; near-linear in the blocks
    /// that the transaction changed.
    pub fn commit(&mut self) -> u64
        requires opened { self.old.state.is_open ≡ true }
        requires room { MayAppend self.old.state.log (next_entry self.old.state.log self.old.state.tx self.old.state.last Commit) }
        ensures number { result ≡ self.new.state.commits }
        ensures facts { facts_of self.new.state ≡ committed_facts (facts_of self.old.state) }
        ensures device { self.new.device ≡ self.old.device }
        ensures words { self.new.words ≡ self.old.words }
        ensures step { TakesStep D.sector_count D.moment_of D.changes_of AfterCommit self.old self.new }
    {
        self.state.known();
        self.state.commit()
    }

    /// Gives up the open transaction: its blocks have the bodies from before it again, and are
    /// dirty. It takes no memory and makes no call of the device; near-linear in the blocks that have
    /// marks.
    pub fn give_up(&mut self)
        requires opened { self.old.state.is_open ≡ true }
        ensures facts { facts_of self.new.state ≡ given_up_facts (facts_of self.old.state) }
        ensures device { self.new.device ≡ self.old.device }
        ensures words { self.new.words ≡ self.old.words }
        ensures step { TakesStep D.sector_count D.moment_of D.changes_of AfterGiveUp self.old self.new }
    {
        self.state.known();
        self.state.give_up();
        self.told.seek(&self.state);
    }

    /// Seals the page of the log that is filled, if it has an entry: no entry goes into it any
    /// more.
    pub fn seal(&mut self)
        ensures facts { facts_of self.new.state ≡ sealed_facts (facts_of self.old.state) }
        ensures device { self.new.device ≡ self.old.device }
        ensures words { self.new.words ≡ self.old.words }
        ensures step { TakesStep D.sector_count D.moment_of D.changes_of AfterWrite self.old self.new }
    {
        self.state.seal();
    }
}
