//! Transactions begin and end.
ghost use Rattle.std.specs.Prelude.{◌≡◌, ◌<◌, ◌^◌, true, false};
ghost use Rattle.txn_log.specs.log_model.declared.entry.Act.TheVariants.{Commit};
ghost use Rattle.txn_log.specs.txn_model.Appending.{MayAppend};
ghost use Rattle.txn_log.specs.txn_model.Calls.{begun_facts, committed_facts, given_up_facts};
ghost use Rattle.txn_log.specs.txn_model.Pieces.{next_entry};
ghost use Rattle.txn_state.specs.States.{facts_of};

use crate::state::StoreState;
use txn_log::{append_commit, mark_commits, restore};

impl StoreState {
    /// Begins a transaction, where none is open. Its number is that of `tx`; there are fewer than
    /// 2^32 of them.
    pub fn begin(&mut self)
        requires closed { self.old.is_open ≡ false }
        requires number { self.old.tx < 2 ^ 32 }
        ensures { facts_of self.new ≡ begun_facts (facts_of self.old) }
    {
        self.is_open = true;
        self.last = 0;
    }

    /// Commits the open transaction, and answers how many commits there are now. The log has room
    /// for its entry. It takes no memory, and time near-linear in the blocks that the transaction
    /// changed.
    pub fn commit(&mut self) -> u64
        requires opened { self.old.is_open ≡ true }
        requires room { MayAppend self.old.log (next_entry self.old.log self.old.tx self.old.last Commit) }
        ensures facts { facts_of self.new ≡ committed_facts (facts_of self.old) }
        ensures number { result ≡ self.new.commits }
    {
        let commits = self.commits + 1;
        append_commit(
            &mut self.log,
            &mut self.ends,
            self.tx as u32,
            self.last,
            commits,
        );
        mark_commits(&mut self.marks, &mut self.before, commits);
        self.commits = commits;
        self.is_open = false;
        self.tx += 1;
        self.last = 0;
        commits
    }

    /// Gives up the open transaction: its blocks have the bodies from before it again, and are
    /// dirty. It takes no memory, and time near-linear in these blocks.
    pub fn give_up(&mut self)
        requires opened { self.old.is_open ≡ true }
        ensures { facts_of self.new ≡ given_up_facts (facts_of self.old) }
    {
        restore(&mut self.bodies, &mut self.marks, &mut self.before);
        self.is_open = false;
        self.tx += 1;
        self.last = 0;
    }
}
