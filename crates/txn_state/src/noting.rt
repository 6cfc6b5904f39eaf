//! What a checkpoint notes of blocks.
ghost use Rattle.std.specs.Prelude.{◌≡◌};
ghost use Rattle.txn_log.specs.store_pools.Pools.{marks_of};
ghost use Rattle.txn_log.specs.txn_model.Calls.{noted_mark};

use txn_log::{Mark, Pool, Turns};

// A checkpoint begins.
#[derive(Clone, Copy, Drop)]
struct Noted;

impl Turns<Mark> for Noted {
    ghost use Rattle.txn_log.specs.txn_model.Calls.{noted_mark};

    ghost turned = { λ s m. noted_mark m };

    fn turn(&self, mark: &Mark) -> Mark {
        let mut after = *mark;
        after.owed = mark.dirty || mark.dead;
        after.due = mark.wet;
        after.imaged = false;
        after
    }
}

/// What is marked of each block once a checkpoint has begun. It takes no memory, and time linear in
/// the marks.
pub fn note(marks: &mut Pool<Mark>)
    ensures { marks_of marks.new ≡ (λ b. noted_mark (marks_of marks.old b)) }
{
    marks.turn_all(&Noted);
}
