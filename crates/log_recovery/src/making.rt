//! The body of a block, undone and redone.
ghost use Rattle.std.specs.Prelude.{◌≡◌, ◌*◌, length, All};
ghost use Rattle.std.specs.Ordering.{nat_cmp};
ghost use Rattle.std.specs.BTreeSet.{contains};
ghost use Rattle.log_reading.specs.disk_model.Sectors.{sectors};
ghost use Rattle.log_reading.specs.disk_model.Writes.{bytes_after};
ghost use Rattle.log_model.specs.Logs.{undos_back, redos};
ghost use Rattle.log_recovery.specs.Blocks.{bytes_by};
ghost use Rattle.log_recovery.specs.Groups.{lent, LentLies};

use crate::ended::Ended;
use crate::updates::{redo_act, undo_act};
use log_model::Entry;
use log_reading::{Block, Body};

// Undoes all updates of the block, the last one first.
fn undo(entries: &[&Entry], block: Block, out: &mut Body)
    requires lies { All LentLies entries.now }
    requires size { length out.old.bytes ≡ 512 * sectors block.kind }
    ensures bytes { out.new.bytes ≡ bytes_after (undos_back (lent entries.now)) block out.old.bytes }
    ensures torn { out.new.torn ≡ out.old.torn }
    ensures size { length out.new.bytes ≡ 512 * sectors block.kind }
{
    let count = entries.len();
    for done in 0..count {
        let last = count - 1 - done;
        undo_act(block, &entries[last].act, out);
    }
}

// Redoes the updates of the block by ended transactions, in order.
fn redo(ended: &Ended, entries: &[&Entry], block: Block, out: &mut Body)
    requires lies { All LentLies entries.now }
    requires size { length out.old.bytes ≡ 512 * sectors block.kind }
    ensures bytes { out.new.bytes ≡ bytes_after (redos (contains nat_cmp ended.now) (lent entries.now)) block out.old.bytes }
    ensures torn { out.new.torn ≡ out.old.torn }
    ensures size { length out.new.bytes ≡ 512 * sectors block.kind }
{
    for entry in entries {
        redo_act(block, ended.contains(&entry.tx), &entry.act, out);
    }
}

/// Undoes all updates of the block backwards, and redoes the ended ones forwards.
pub fn remake(ended: &Ended, entries: &[&Entry], block: Block, out: &mut Body)
    requires lies { All LentLies entries.now }
    requires size { length out.old.bytes ≡ 512 * sectors block.kind }
    ensures bytes { out.new.bytes ≡ bytes_by (contains nat_cmp ended.now) (lent entries.now) block out.old.bytes }
    ensures torn { out.new.torn ≡ out.old.torn }
    ensures size { length out.new.bytes ≡ 512 * sectors block.kind }
{
    undo(entries, block, out);
    redo(ended, entries, block, out);
}
