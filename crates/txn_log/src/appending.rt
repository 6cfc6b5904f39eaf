//! Entries of a transaction that are appended to the ring.
ghost use Rattle.std.specs.Prelude.{◌≡◌, ◌<◌, ◌∷◌, [], length, slice_set};
ghost use Rattle.store_pools.specs.log_model.declared.entry.Act.TheVariants.{Commit};
ghost use Rattle.store_pools.specs.log_area.Areas.{ring_size, place_at, appended};
ghost use Rattle.store_pools.specs.txn_model.Pieces.{next_entry, log_with, last_of, ends_with};
ghost use Rattle.store_pools.specs.txn_model.Appending.{MayAppend, MayAppendAll};

use store_pools::{Act, Entry, LogArea};

// Tells a place so many commits.
fn tell(ends: &mut [u64], slot: usize, commits: u64)
    requires { slot < length ends.old }
    ensures { ends.new ≡ slice_set ends.old slot commits }
{
    ends[slot] = commits;
}

// Appends an entry, and tells the place of its page so many commits.
fn append_act(
    area: &mut LogArea,
    ends: &mut Vec<u64>,
    tx: u32,
    last: u64,
    commits: u64,
    act: Act,
) -> u64
    requires may { MayAppend area.old (next_entry area.old tx last act) }
    requires counted { length ends.old.items ≡ ring_size area.old }
    ensures area { area.new ≡ appended (next_entry area.old tx last act) area.old }
    ensures ends { ends.new.items ≡ slice_set ends.old.items (place_at area.new area.new.sealed) commits }
    ensures last { result ≡ (next_entry area.old tx last act).lsn }
    ensures still { length ends.new.items ≡ ring_size area.new }
{
    let mut entry = Entry {
        lsn: 0,
        previous: last,
        tx,
        act,
    };
    let lsn = area.next(entry.size() as u64);
    entry.lsn = lsn;
    let _ = area.append(&entry);
    let slot = area.slot(area.filled_page());
    tell(ends, slot, commits);
    lsn
}

/// Appends the entries of these acts to the ring, one behind the other: those of the transaction
/// `tx`, whose last entry has the LSN `last`, which is 0 where it has none. The place of each page
/// into which one goes is told so many commits. It answers the LSN of the last one, or `last`.
///
/// It takes no memory. Time is linear in the entries, and in the pages that they begin.
pub fn append_acts(
    area: &mut LogArea,
    ends: &mut Vec<u64>,
    tx: u32,
    last: u64,
    commits: u64,
    acts: Vec<Act>,
) -> u64
    requires may { MayAppendAll area.old tx last acts.items }
    requires counted { length ends.old.items ≡ ring_size area.old }
    ensures area { area.new ≡ log_with area.old tx last acts.items }
    ensures ends { ends.new.items ≡ ends_with area.old tx last commits ends.old.items acts.items }
    ensures last { result ≡ last_of area.old tx last acts.items }
    ensures still { length ends.new.items ≡ ring_size area.new }
{
    let mut last = last;
    for act in acts {
        last = append_act(area, ends, tx, last, commits, act);
    }
    last
}

/// Appends the commit of the transaction `tx`, whose last entry has the LSN `last`. The place of its
/// page is told so many commits. It answers the LSN of the commit.
///
/// It takes no memory, and constant time but for a page that it begins, which is cleared.
pub fn append_commit(
    area: &mut LogArea,
    ends: &mut Vec<u64>,
    tx: u32,
    last: u64,
    commits: u64,
) -> u64
    requires may { MayAppendAll area.old tx last (Commit ∷ []) }
    requires counted { length ends.old.items ≡ ring_size area.old }
    ensures area { area.new ≡ log_with area.old tx last (Commit ∷ []) }
    ensures ends { ends.new.items ≡ ends_with area.old tx last commits ends.old.items (Commit ∷ []) }
    ensures last { result ≡ last_of area.old tx last (Commit ∷ []) }
    ensures still { length ends.new.items ≡ ring_size area.new }
{
    append_act(area, ends, tx, last, commits, Act::Commit)
}
