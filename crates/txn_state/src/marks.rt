//! Marks of blocks, one at a time.
ghost use Rattle.std.specs.Prelude.{◌≡◌, IsSome, OnOk, if◌then◌else◌};
ghost use Rattle.txn_log.specs.disk_model.Sectors.{same_block};
ghost use Rattle.txn_log.specs.block_pool.Pools.{held, with_block};
ghost use Rattle.txn_log.specs.store_pools.Pools.{marks_of};
ghost use Rattle.txn_log.specs.txn_model.Values.{no_mark};
ghost use Rattle.txn_state.specs.Turning.{turned_at};

use std::alloc::AllocError;
use txn_log::{Block, Mark, Pool, Turns};

// A block that is plainly clean.
const NO_MARK: Mark = Mark {
    dirty: false,
    dead: false,
    wet: false,
    owed: false,
    due: false,
    imaged: false,
    until: 0,
    commit: 0,
    killed: 0,
};

/// What is marked of a block.
pub fn mark_of(marks: &Pool<Mark>, block: Block) -> Mark
    ensures { result ≡ marks_of marks.now block }
{
    match marks.get(block) {
        Some(mark) => *mark,
        None => NO_MARK,
    }
}

/// Sees to it that a block has a mark. The error is want of memory.
pub fn mark_block(marks: &mut Pool<Mark>, block: Block) -> Result<(), AllocError>
    ensures same { marks_of marks.new ≡ marks_of marks.old }
    ensures some { OnOk result (IsSome (held marks.new block)) }
{
    match marks.get(block) {
        Some(_) => Ok(()),
        None => marks.put(block, NO_MARK),
    }
}

/// Makes this the mark of a block that has one.
pub fn set_mark(marks: &mut Pool<Mark>, block: Block, mark: Mark)
    requires some { IsSome (held marks.old block) }
    ensures { marks_of marks.new ≡ (λ c. if same_block c block then mark else marks_of marks.old c) }
{
    marks.replace(block, mark);
}

/// Changes the mark of a block, if it has one.
pub fn turn_at<F: Turns<Mark>>(marks: &mut Pool<Mark>, block: Block, change: &F)
    requires clean { F.turned change.now no_mark ≡ no_mark }
    ensures { marks_of marks.new ≡ turned_at (F.turned change.now) block (marks_of marks.old) }
{
    match marks.get(block) {
        Some(mark) => {
            let mark = change.turn(mark);
            marks.replace(block, mark);
        }
        None => {}
    }
}
