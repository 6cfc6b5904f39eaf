//! Syncs.
ghost use Rattle.std.specs.Prelude.{◌≡◌, None, if◌then◌else◌};
ghost use Rattle.txn_model.specs.Calls.{is_buried, synced_mark};
ghost use Rattle.store_pools.specs.Pools.{bodies_of, marks_of};

use crate::kept::KeptBody;
use txn_model::{Mark, Pool, Tests, Turns};

// A sync by which the pages of the log before this one are durable.
#[derive(Clone, Copy, Drop)]
struct Synced {
    pages: u64,
}

impl Tests<Mark> for Synced {
    ghost use Rattle.txn_model.specs.Calls.{is_buried};

    ghost told = { λ s m. is_buried s.pages m };

    fn passes(&self, mark: &Mark) -> bool {
        mark.dead && mark.killed <= self.pages
    }
}

impl Turns<Mark> for Synced {
    ghost use Rattle.txn_model.specs.Calls.{synced_mark};

    ghost turned = { λ s m. synced_mark s.pages m };

    fn turn(&self, mark: &Mark) -> Mark {
        let mut after = *mark;
        if self.passes(mark) {
            after.dead = false;
            after.owed = false;
        }
        after.wet = false;
        after.due = false;
        after
    }
}

/// After a sync by which the pages of the log before this one are durable: the dead bodies leave
/// whose rivals' changes stand there, and no block is wet or due. It takes no memory, and time
/// near-linear in the blocks that have marks or bodies.
pub fn settle(bodies: &mut Pool<KeptBody>, marks: &mut Pool<Mark>, pages: u64)
    ensures bodies { bodies_of bodies.new ≡ (λ b. if is_buried pages (marks_of marks.old b) then None else bodies_of bodies.old b) }
    ensures marks { marks_of marks.new ≡ (λ b. synced_mark pages (marks_of marks.old b)) }
{
    let synced = Synced { pages };
    bodies.drop_where(marks, &synced);
    marks.turn_all(&synced);
}
