//! Blocks are written out.
ghost use Rattle.std.specs.Prelude.{◌≡◌, Bool, true, false, ◌||◌, None, if◌then◌else◌};
ghost use Rattle.std.specs.List.{list_any};
ghost use Rattle.txn_log.specs.disk_model.Sectors.{same_block};
ghost use Rattle.txn_log.specs.log_model.Logs.{is_in_grid};
ghost use Rattle.txn_log.specs.store_pools.Pools.{marks_of};
ghost use Rattle.txn_log.specs.txn_model.Calls.{is_noted, is_ready, rivals_of, written_out_facts, sent_out_facts, again_facts};
ghost use Rattle.txn_state.specs.States.{facts_of};

use crate::marks::{mark_of, set_mark};
use crate::rivals::{drop_rivals, owes_rival, turn_rivals};
use crate::state::StoreState;
use txn_log::{Block, Mark, Pool, Turns};

// A rival of the block was written out.
#[derive(Clone, Copy, Drop)]
struct Freed;

impl Turns<Mark> for Freed {
    ghost use Rattle.std.specs.Prelude.{false};

    ghost turned = { λ s m. record m { dead = false; owed = false } };

    fn turn(&self, mark: &Mark) -> Mark {
        let mut after = *mark;
        after.dead = false;
        after.owed = false;
        after
    }
}

// Whether a checkpoint waits for a sync after the write of a block.
fn is_noted(marks: &Pool<Mark>, block: Block) -> bool
    requires { is_in_grid block ≡ true }
    ensures { result ≡ is_noted (marks_of marks.now) block }
{
    mark_of(marks, block).owed || owes_rival(marks, block)
}

// The mark of a block that was sent, where a checkpoint waits for a sync after it or not.
fn sent_mark(mark: Mark, is_noted: bool) -> Mark
    ensures { result ≡ record mark { wet = true; due = mark.due || is_noted } }
{
    let mut mark = mark;
    mark.wet = true;
    mark.due = mark.due || is_noted;
    mark
}

// The mark of a block that was written.
fn written_mark(mark: Mark, is_noted: bool) -> Mark
    ensures { result ≡ record mark { dirty = false; wet = true; owed = false; due = mark.due || is_noted } }
{
    let mut mark = sent_mark(mark, is_noted);
    mark.dirty = false;
    mark.owed = false;
    mark
}

impl StoreState {
    /// Whether a checkpoint waits for a rival of a block to be written out, in time logarithmic in
    /// the number of marks.
    pub fn owes_rival(&self, block: Block) -> bool
        requires { is_in_grid block ≡ true }
        ensures { result ≡ list_any (λ c. ((facts_of self.now).mark c).owed) (rivals_of block) }
    {
        owes_rival(&self.marks, block)
    }

    /// A block was written out that was ready: its body is the disk's, and so are those of its
    /// rivals. It takes no memory, and time logarithmic in the number of marks and bodies.
    pub fn written_out(&mut self, block: Block)
        requires ready { is_ready (facts_of self.old) block ≡ true }
        ensures { facts_of self.new ≡ written_out_facts block (facts_of self.old) }
    {
        let mark = mark_of(&self.marks, block);
        let mark = written_mark(mark, is_noted(&self.marks, block));
        turn_rivals(&mut self.marks, block, &Freed);
        set_mark(&mut self.marks, block, mark);
        drop_rivals(&mut self.bodies, block);
        self.bodies.take(block);
    }

    /// The write of a block that was ready failed: it may have reached any of its sectors, and the
    /// bodies of its rivals are the disk's. It takes no memory, and time logarithmic in the number
    /// of marks and bodies.
    pub fn sent_out(&mut self, block: Block)
        requires ready { is_ready (facts_of self.old) block ≡ true }
        ensures { facts_of self.new ≡ sent_out_facts block (facts_of self.old) }
    {
        let mark = mark_of(&self.marks, block);
        let mark = sent_mark(mark, is_noted(&self.marks, block));
        turn_rivals(&mut self.marks, block, &Freed);
        set_mark(&mut self.marks, block, mark);
        drop_rivals(&mut self.bodies, block);
    }

    /// A dirty block that no open transaction changed was written as it stands on the disk. It
    /// takes no memory, and time logarithmic in the number of marks and bodies.
    pub fn again(&mut self, block: Block)
        requires dirty { ((facts_of self.old).mark block).dirty ≡ true }
        requires free { (facts_of self.old).before block ≡ None }
        ensures { facts_of self.new ≡ again_facts block (facts_of self.old) }
    {
        let mark = mark_of(&self.marks, block);
        let is_owed = mark.owed;
        let mark = written_mark(mark, is_owed);
        set_mark(&mut self.marks, block, mark);
        self.bodies.take(block);
    }
}
