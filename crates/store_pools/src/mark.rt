//! What becomes of the mark of a block.
ghost use Rattle.std.specs.Prelude.{◌≡◌, true, false};
ghost use Rattle.txn_model.specs.Calls.{changed_mark, rival_mark};

use txn_model::Mark;

/// The block bears a commit of this number.
pub fn committed(mark: Mark, number: u64) -> Mark
    ensures { result ≡ record mark { commit = number } }
{
    let mut mark = mark;
    mark.commit = number;
    mark
}

/// The transaction that changed the block is given up.
pub fn given_up(mark: Mark) -> Mark
    ensures { result ≡ record mark { dirty = true; dead = false; imaged = false } }
{
    let mut mark = mark;
    mark.dirty = true;
    mark.dead = false;
    mark.imaged = false;
    mark
}

/// The block was changed, by entries on pages of the log before this one.
pub fn changed(mark: Mark, until: u64) -> Mark
    ensures { result ≡ changed_mark until mark }
{
    let mut mark = mark;
    mark.dirty = true;
    mark.dead = false;
    mark.imaged = true;
    mark.until = until;
    mark
}

/// A rival of the block was, by such entries.
pub fn ousted(mark: Mark, until: u64) -> Mark
    ensures { result ≡ rival_mark until mark }
{
    let mut mark = mark;
    if mark.dirty {
        mark.dead = true;
        mark.killed = until;
    }
    mark.dirty = false;
    mark.imaged = false;
    mark
}
