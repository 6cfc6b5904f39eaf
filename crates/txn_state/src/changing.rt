//! A change of a block.
ghost use Rattle.std.specs.Prelude.{◌≡◌, IfOk, IsSome, OnOk, OnErr, if◌then◌else◌};
ghost use Rattle.txn_log.specs.disk_model.Sectors.{same_block};
ghost use Rattle.txn_log.specs.block_pool.Pools.{held};
ghost use Rattle.txn_log.specs.store_pools.Pools.{body_of_kept, marks_of};
ghost use Rattle.txn_log.specs.txn_model.Calls.{changed_mark, rival_mark, change_acts, changed_facts, given_up_facts};
ghost use Rattle.txn_state.specs.States.{facts_of, MayChange};

use crate::keeping::{changed_body, keep};
use crate::marks::{mark_of, set_mark};
use crate::rivals::turn_rivals;
use crate::state::StoreState;
use std::alloc::{AllocError, Global};
use txn_log::{Act, Block, KeptBody, Mark, Pool, Turns, append_acts, changed, ousted, update_acts};

// A rival of the block was changed, by entries on pages of the log before this one.
#[derive(Clone, Copy, Drop)]
struct Ousted {
    until: u64,
}

impl Turns<Mark> for Ousted {
    ghost use Rattle.txn_log.specs.txn_model.Calls.{rival_mark};

    ghost turned = { λ s m. rival_mark s.until m };

    fn turn(&self, mark: &Mark) -> Mark {
        ousted(*mark, self.until)
    }
}

// The block, which has a mark, was changed by entries on pages of the log before this one.
fn mark_changed(marks: &mut Pool<Mark>, block: Block, until: u64)
    requires some { IsSome (held marks.old block) }
    ensures { marks_of marks.new ≡ (λ c. if same_block c block then changed_mark until (marks_of marks.old c) else marks_of marks.old c) }
{
    let mark = changed(mark_of(marks, block), until);
    set_mark(marks, block, mark);
}

impl StoreState {
    // The updates that the change logs.
    fn acts_of(
        &self,
        alloc: Global,
        block: Block,
        at: usize,
        new: &[u8],
        present: &KeptBody,
    ) -> Result<Vec<Act>, AllocError>
        requires { MayChange (facts_of self.now) block at new.now (body_of_kept present.now) }
        ensures { IfOk result (λ acts. acts.items ≡ change_acts (facts_of self.now) block at new.now (body_of_kept present.now)) }
    {
        let before = match self.before.get(block) {
            Some(kept) => kept.bytes.as_slice(),
            None => present.bytes.as_slice(),
        };
        let imaged = self.mark(block).imaged;
        update_acts(
            alloc,
            imaged,
            block,
            at,
            new,
            before,
            present.bytes.as_slice(),
        )
    }

    // The change, or want of memory, and then the store's facts are as they were.
    fn try_change(
        &mut self,
        alloc: Global,
        block: Block,
        at: usize,
        new: &[u8],
        present: KeptBody,
    ) -> Result<(), AllocError>
        requires { MayChange (facts_of self.old) block at new.now (body_of_kept present) }
        ensures ok { OnOk result (facts_of self.new ≡ changed_facts block at new.now (body_of_kept present) (facts_of self.old)) }
        ensures err { OnErr result (facts_of self.new ≡ facts_of self.old) }
    {
        let acts = self.acts_of(alloc, block, at, new, &present)?;
        let after = changed_body(alloc, &present, at, new)?;
        keep(
            &mut self.bodies,
            &mut self.before,
            &mut self.marks,
            block,
            present,
            after,
        )?;
        self.last = append_acts(
            &mut self.log,
            &mut self.ends,
            self.tx as u32,
            self.last,
            self.commits,
            acts,
        );
        let until = self.log.filled_page() + 1;
        mark_changed(&mut self.marks, block, until);
        turn_rivals(&mut self.marks, block, &Ousted { until });
        Ok(())
    }

    /// Changes a block in the open transaction: the bytes `new` stand from `at` on over its present
    /// body, which is `present`. What it logs is appended to the log, dirty rivals of the block are
    /// dead, and the body is kept.
    ///
    /// The error is want of memory, which comes before anything is appended: then the transaction
    /// is given up. Logarithmic in the number of blocks that have marks or bodies, and linear in
    /// the body.
    pub fn change(
        &mut self,
        alloc: Global,
        block: Block,
        at: usize,
        new: &[u8],
        present: KeptBody,
    ) -> Result<(), AllocError>
        requires { MayChange (facts_of self.old) block at new.now (body_of_kept present) }
        ensures ok { OnOk result (facts_of self.new ≡ changed_facts block at new.now (body_of_kept present) (facts_of self.old)) }
        ensures err { OnErr result (facts_of self.new ≡ given_up_facts (facts_of self.old)) }
    {
        match self.try_change(alloc, block, at, new, present) {
            Ok(()) => Ok(()),
            Err(fault) => {
                self.give_up();
                Err(fault)
            }
        }
    }
}
