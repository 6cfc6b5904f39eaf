//! The rivals of a block.
ghost use Rattle.std.specs.Prelude.{◌≡◌, true, None, if◌then◌else◌};
ghost use Rattle.std.specs.List.{list_any};
ghost use Rattle.txn_log.specs.disk_model.Sectors.{same_block};
ghost use Rattle.txn_log.specs.log_model.Logs.{is_in_grid};
ghost use Rattle.txn_log.specs.store_pools.Pools.{bodies_of, marks_of};
ghost use Rattle.txn_log.specs.txn_model.Calls.{rivals_of};
ghost use Rattle.txn_log.specs.txn_model.Values.{no_mark};
ghost use Rattle.txn_state.specs.Turning.{turned_all};

use crate::marks::{mark_of, turn_at};
use txn_log::{Block, KeptBody, Mark, Pool, Turns, rival, rival_count};

/// Changes the marks of the rivals of a block that begin where their kind may.
pub fn turn_rivals<F: Turns<Mark>>(marks: &mut Pool<Mark>, block: Block, change: &F)
    requires clean { F.turned change.now no_mark ≡ no_mark }
    requires grid { is_in_grid block ≡ true }
    ensures { marks_of marks.new ≡ turned_all (F.turned change.now) (rivals_of block) (marks_of marks.old) }
{
    for k in 0..rival_count(block) {
        turn_at(marks, rival(block, k), change);
    }
}

/// Drops their bodies.
pub fn drop_rivals(bodies: &mut Pool<KeptBody>, block: Block)
    requires grid { is_in_grid block ≡ true }
    ensures { bodies_of bodies.new ≡ (λ c. if list_any (same_block c) (rivals_of block) then None else bodies_of bodies.old c) }
{
    for k in 0..rival_count(block) {
        bodies.take(rival(block, k));
    }
}

/// Whether a checkpoint waits for one of them to be written out.
pub fn owes_rival(marks: &Pool<Mark>, block: Block) -> bool
    requires grid { is_in_grid block ≡ true }
    ensures { result ≡ list_any (λ c. (marks_of marks.now c).owed) (rivals_of block) }
{
    for k in 0..rival_count(block) {
        if mark_of(marks, rival(block, k)).owed {
            return true;
        }
    }
    false
}
