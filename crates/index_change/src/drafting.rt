ghost use Rattle.std.specs.Prelude.{◌≡◌, ◌≤◌, IfOk, Ok, [], length, reverse};
ghost use Rattle.record_model.specs.Nodes.{root_at};
ghost use Rattle.index_change.specs.Plans.{root_room, seventeen};

use index_plan::Draft;
use index_tree::{DirPlace, read_root};
use record_model::EntryList;
use std::alloc::{AllocError, Global};

// What a plan of either kind begins with.

// The fresh VCNs that a plan may take.
const MOST_FRESH: usize = 17;

/// The most levels of an index.
pub const MOST_LEVELS: u32 = 16;

// The first seventeen fresh VCNs, the first at the end.
fn first_fresh(alloc: Global, fresh: &[u64]) -> Result<Vec<u64>, AllocError>
    requires { 17 ≤ length fresh.now }
    ensures { IfOk result (λ v. v.items ≡ reverse (seventeen fresh.now)) }
{
    fresh
        .split_at(MOST_FRESH)
        .0
        .iter()
        .rev()
        .copied()
        .collect(alloc)
}

/// A plan that writes nothing yet, with the first seventeen fresh VCNs.
pub fn draft_of(alloc: Global, fresh: &[u64]) -> Result<Draft, AllocError>
    requires { 17 ≤ length fresh.now }
    ensures writes { IfOk result (λ d. d.writes ≡ []) }
    ensures fresh { IfOk result (λ d. d.fresh ≡ seventeen fresh.now) }
    ensures enough { IfOk result (λ d. 17 ≤ length d.fresh) }
{
    Ok(Draft::new(alloc, first_fresh(alloc, fresh)?))
}

/// How many bytes the root's entries may take.
#[tactic(auto, unfolding(crate::specs::Plans::root_room))]
pub fn root_room(used: u32, root: &[u8]) -> usize
    ensures { result ≡ root_room used root.now }
{
    let value = 8 * ((root.len() + 7) / 8);
    1024usize.saturating_sub(used as usize) + value.saturating_sub(0x20)
}

/// The entries of the root, where it breaks no rule.
pub fn root_entries(alloc: Global, dir: &DirPlace) -> Result<EntryList, AllocError>
    ensures { IfOk result (λ root. root_at dir.now.root ≡ Ok root) }
{
    match read_root(alloc, dir) {
        Ok(root) => Ok(root),
        Err(_) => Err(AllocError),
    }
}
