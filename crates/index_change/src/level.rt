ghost use Rattle.std.specs.Prelude.{All, ◌≡◌, ◌↔◌, ◌∷◌, IfOk, IfSome, Ok, [], true};
ghost use Rattle.std.specs.Option.{ForSome};
ghost use Rattle.index_tree.specs.block_view.Changes.{Fits};
ghost use Rattle.record_model.specs.Nodes.{root_at};
ghost use Rattle.index_tree.specs.index_model.Walks.{walk_of};
ghost use Rattle.index_plan.specs.Lists.{topped};
ghost use Rattle.index_tree.specs.Places.{place_of};
ghost use Rattle.index_change.specs.Changing.{AllWereOld};
ghost use Rattle.index_change.specs.Faults.{AfterFind, Planned};
ghost use Rattle.index_change.specs.Levels.{CanGoDown, LevelGives};
ghost use Rattle.index_change.specs.NodePlans.{IsDrawn};

use crate::drafting::{MOST_LEVELS, root_entries};
use crate::finishing::lay_out;
use crate::height::height_of;
use crate::nodes_plan::NodesPlan;
use crate::plan::DirPlan;
use index_node::have_spelling;
use index_plan::Write;
use index_tree::{DirPlace, TreeFault, Upcase, View, ViewFault, walk};
use record_model::{EntryList, last_entry};
use std::alloc::{AllocError, Global};

// A level more below the root, where the record that holds the root is over for another cause than
// a key.

// Whether the root's entries can go into a block.
fn can_go_down(root: &EntryList) -> bool
    ensures { (result ≡ true) ↔ CanGoDown root.now }
{
    2 <= root.len() && have_spelling(root)
}

// The root's entries as a node of a fresh block, below a root of the last entry alone.
fn raised(alloc: Global, root: EntryList, fresh: u64) -> Result<NodesPlan, AllocError>
    ensures { IfOk result (IsDrawn (fresh ∷ []) (topped root (record { writes = []; fresh = fresh ∷ [] }) (fresh ∷ []))) }
{
    let mut top = EntryList::new(alloc);
    top.push(last_entry(alloc, Some(fresh)))?;
    let mut writes = Vec::new(alloc);
    writes.push(Write {
        vcn: fresh,
        entries: root,
    })?;
    let mut taken = Vec::new(alloc);
    taken.push(fresh)?;
    Ok(NodesPlan {
        root: top,
        writes,
        taken,
    })
}

/// The plan that moves the entries of a directory's root into a block, without a key more: for a
/// record that has too many used bytes by other values than the root's. `fresh` is the VCN of a
/// block of `dir` that isn't in use; it is taken. Nothing is changed: the new root and the change
/// of the block are answered. There is none where nothing can leave the root: where it has no key,
/// or where its entries have no room in a block.
///
/// It reads all nodes twice, to see that the index breaks no rule and to count the levels, and takes
/// time and memory linear in their bytes, beside a byte for each block of the place.
///
/// - [`TreeFault::Node`]: the first node that breaks a rule, and this rule.
/// - [`TreeFault::Deep`]: the index has sixteen levels.
/// - [`TreeFault::View`]: the view failed and counts it, or there is no memory left. The latter is
///   said too where there is no block with the fresh VCN.
pub fn plan_level<V: View>(
    alloc: Global,
    v: &mut V,
    dir: &DirPlace,
    up: &Upcase,
    fresh: u64,
) -> Result<Option<DirPlan>, TreeFault>
    ensures value { IfSome (V.content v.old) (λ c. LevelGives c (place_of dir.now) up.now dir.now.root dir.now.used fresh result) }
    ensures walked { IfSome (V.content v.old) (λ c. AfterFind result (walk_of c (place_of dir.now) up.now dir.now.root)) }
    ensures old { IfSome (V.content v.old) (λ c. IfOk result (λ o. IfSome o (λ plan. AllWereOld c plan.changes.items))) }
    ensures fits { IfOk result (λ o. IfSome o (λ plan. All Fits plan.changes.items)) }
    ensures same { V.content v.new ≡ V.content v.old }
    ensures kept { V.kept v.new ≡ V.kept v.old }
    ensures cause { Planned (V.faults v.old) (V.faults v.new) result }
{
    let _ = walk(alloc, v, dir, up)?;
    let root = root_entries(alloc, dir)?;
    if !can_go_down(&root) {
        return Ok(None);
    }
    let height = height_of(alloc, v, dir, root.as_slice())?;
    if MOST_LEVELS <= height {
        return Err(TreeFault::Deep { height });
    }
    let nodes = raised(alloc, root, fresh)?;
    Ok(Some(lay_out(alloc, v, dir, nodes)?))
}
