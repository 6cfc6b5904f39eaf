//! What a list of entries says of one block, and of a volume.
ghost use Rattle.std.specs.Prelude.{◌≡◌};
ghost use Rattle.std.specs.Ordering.{nat_cmp};
ghost use Rattle.std.specs.BTreeSet.{contains};
ghost use Rattle.log_model.specs.Logs.{first_rival, first_misplaced};
ghost use Rattle.log_recovery.specs.Blocks.{shadowed_by};
ghost use Rattle.log_recovery.specs.Groups.{lent};

use crate::ended::Ended;
use crate::updates::{act_says, is_misplaced, updates_rival};
use log_model::Entry;
use log_reading::Block;

/// Whether an update of a rival is the last that is said of the block.
#[tactic(auto, unfolding(crate::specs::Blocks::shadowed_by))]
pub fn is_shadowed(ended: &Ended, entries: &[&Entry], block: Block) -> bool
    ensures { result ≡ shadowed_by (contains nat_cmp ended.now) (lent entries.now) block }
{
    let mut shadowed = false;
    for entry in entries {
        let says = act_says(block, ended.contains(&entry.tx), &entry.act);
        shadowed = says.unwrap_or(shadowed);
    }
    shadowed
}

/// The LSN of the first update of a rival.
pub fn rival_of(entries: &[&Entry], block: Block) -> Option<u64>
    ensures { result ≡ first_rival (lent entries.now) block }
{
    for entry in entries {
        if updates_rival(block, &entry.act) {
            return Some(entry.lsn);
        }
    }
    None
}

/// The LSN of the first entry that reaches past the volume or its body.
pub fn misplaced(entries: &[Entry], clusters: u64) -> Option<u64>
    ensures { result ≡ first_misplaced entries.now clusters }
{
    for entry in entries {
        if is_misplaced(clusters, &entry.act) {
            return Some(entry.lsn);
        }
    }
    None
}
