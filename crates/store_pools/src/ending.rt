//! The ends of transactions.
ghost use Rattle.std.specs.Prelude.{◌≡◌, true, false, [], IsSome};
ghost use Rattle.std.specs.Option.{option_or};
ghost use Rattle.txn_model.specs.disk_model.declared.block.Block.{Block as BlockOf};
ghost use Rattle.txn_model.specs.block_pool.Pools.{held, with_block};
ghost use Rattle.txn_model.specs.Calls.{committed_marks, given_up_marks};
ghost use Rattle.store_pools.specs.Pools.{bodies_of, marks_of};

use crate::kept::KeptBody;
use crate::mark::{committed, given_up};
use txn_model::{Block, Mark, Pool};

// The block, which has a mark, bears a commit of this number.
fn mark_commit(marks: &mut Pool<Mark>, block: Block, number: u64)
    requires { IsSome (held marks.old block) }
    ensures { marks.new ≡ with_block block (record (marks_of marks.old block) { commit = number }) marks.old }
{
    if let Some(mark) = marks.get(block) {
        let mark = committed(*mark, number);
        marks.replace(block, mark);
    }
}

/// The blocks that a transaction changed, which have marks, bear its commit, of this number. The
/// bodies from before it, `before`, leave. It takes no memory, and time near-linear in the blocks.
pub fn mark_commits(marks: &mut Pool<Mark>, before: &mut Pool<KeptBody>, number: u64)
    requires marked { (b : BlockOf) → IsSome (held before.old b) → IsSome (held marks.old b) }
    ensures marks { marks_of marks.new ≡ committed_marks (bodies_of before.old) number (marks_of marks.old) }
    ensures left { before.new ≡ [] }
{
    'blocks: while let Some((block, _)) = before.pop() {
        mark_commit(marks, block, number);
    }
}

// The block, which has a mark, is dirty again.
fn restore_mark(marks: &mut Pool<Mark>, block: Block)
    requires { IsSome (held marks.old block) }
    ensures { marks.new ≡ with_block block (record (marks_of marks.old block) { dirty = true; dead = false; imaged = false }) marks.old }
{
    if let Some(mark) = marks.get(block) {
        let mark = given_up(*mark);
        marks.replace(block, mark);
    }
}

/// The blocks that a transaction changed, which have marks and bodies that are kept, have the
/// bodies from before it again, which leave `before`, and are dirty. It takes no memory, and time
/// near-linear in the blocks.
pub fn restore(bodies: &mut Pool<KeptBody>, marks: &mut Pool<Mark>, before: &mut Pool<KeptBody>)
    requires marked { (b : BlockOf) → IsSome (held before.old b) → IsSome (held marks.old b) }
    requires bodied { (b : BlockOf) → IsSome (held before.old b) → IsSome (held bodies.old b) }
    ensures bodies { bodies_of bodies.new ≡ (λ b. option_or (bodies_of before.old b) (bodies_of bodies.old b)) }
    ensures marks { marks_of marks.new ≡ given_up_marks (bodies_of before.old) (marks_of marks.old) }
    ensures left { before.new ≡ [] }
{
    'blocks: while let Some((block, body)) = before.pop() {
        bodies.replace(block, body);
        restore_mark(marks, block);
    }
}
