ghost use Rattle.std.specs.Prelude.{◌≡◌, ℕ, IfOk};
ghost use Rattle.std.specs.Ordering.{nat_cmp};
ghost use Rattle.std.specs.BTreeSet.{contains};
ghost use Rattle.log_model.specs.Logs.{is_commit, is_ended};

use log_model::{Act, Entry};
use std::alloc::{AllocError, Global};
use std::collections::BTreeSet;

/// The transactions with a commit in a log.
pub type Ended = BTreeSet<u32>;

fn is_commit(act: &Act) -> bool
    ensures { result ≡ is_commit act.now }
{
    match act {
        Act::Update { .. } => false,
        Act::Commit => true,
    }
}

/// The transactions with a commit among these entries. The error is want of memory.
pub fn ended_of(alloc: Global, entries: &[Entry]) -> Result<Ended, AllocError>
    ensures { IfOk result (λ ended. (tx : ℕ) → contains nat_cmp ended tx ≡ is_ended entries.now tx) }
{
    let mut ended = BTreeSet::new(alloc);
    for entry in entries {
        if is_commit(&entry.act) {
            ended.insert(entry.tx)?;
        }
    }
    Ok(ended)
}
