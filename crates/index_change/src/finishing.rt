ghost use Rattle.std.specs.Prelude.{All, ◌≡◌, ◌≤◌, ◌++◌, IfOk, IfSome, length, reverse};
ghost use Rattle.index_tree.specs.block_view.Changes.{Fits};
ghost use Rattle.index_node.specs.Roots.{root_spelling, HaveSpelling};
ghost use Rattle.index_change.specs.Changing.{AllWereOld};
ghost use Rattle.index_change.specs.NodePlans.{IsDrawn, LaysOut, TakesFront};
ghost use Rattle.index_tree.specs.Faults.{FailsAsView};
ghost use Rattle.index_tree.specs.Places.{place_of};
ghost use Rattle.index_change.specs.Plans.{clusters_of, seventeen, IsMade};

use crate::changing::changes_of;
use crate::nodes_plan::NodesPlan;
use crate::plan::DirPlan;
use index_node::{have_spelling, write_root};
use index_plan::Rooted;
use index_tree::{Bytes, DirPlace, View, ViewFault};
use record_model::EntryList;
use std::alloc::{AllocError, Global};

// A plan of nodes as a plan of a directory.

// The fresh VCNs that a plan may take.
const MOST_FRESH: usize = 17;

/// The value of the root with these entries. The error is want of memory; this comes too where they
/// have no spelling.
pub fn root_value(alloc: Global, dir: &DirPlace, root: EntryList) -> Result<Bytes, AllocError>
    ensures spelled { IfOk result (λ _. HaveSpelling root) }
    ensures value { IfOk result (λ value. value ≡ root_spelling (clusters_of dir.now.root) root) }
{
    if !have_spelling(&root) {
        return Err(AllocError);
    }
    let clusters = clusters_of(dir.root.as_slice());
    write_root(alloc, clusters, root)
}

// The clusters of an index block, as the value of a root says.
#[tactic(auto, unfolding(crate::specs::Plans::clusters_of))]
fn clusters_of(root: &[u8]) -> u8
    ensures { result ≡ clusters_of root.now }
{
    match root.get(0x0c) {
        Some(clusters) => *clusters,
        None => 0,
    }
}

// The fresh VCNs that are taken, where these are left. The error is want of memory; this comes too
// where those that are left don't stand at the end, as they do in each plan.
fn taken_of(alloc: Global, fresh: &[u64], left: &[u64]) -> Result<Vec<u64>, AllocError>
    requires { 17 ≤ length fresh.now }
    ensures { IfOk result (λ v. v.items ++ left.now ≡ seventeen fresh.now) }
{
    let fresh = fresh.split_at(MOST_FRESH).0;
    if MOST_FRESH < left.len() {
        return Err(AllocError);
    }
    let (taken, rest) = fresh.split_at(MOST_FRESH - left.len());
    if rest != left {
        return Err(AllocError);
    }
    Vec::from_slice(alloc, taken)
}

// The numbers from the end on.
fn reversed(mut numbers: Vec<u64>) -> Vec<u64>
    ensures { result.items ≡ reverse numbers.items }
{
    numbers.as_mut_slice().reverse();
    numbers
}

/// The plan of nodes that took its blocks from the first seventeen of these VCNs. The error is want
/// of memory; this comes too where those that are left don't stand at the end, as they do in each
/// plan.
pub fn drawn_nodes(alloc: Global, fresh: &[u64], rooted: Rooted) -> Result<NodesPlan, AllocError>
    requires { 17 ≤ length fresh.now }
    ensures drawn { IfOk result (IsDrawn (seventeen fresh.now) rooted) }
    ensures front { IfOk result (TakesFront fresh.now) }
{
    let Rooted { root, plan } = rooted;
    let (writes, left) = plan.into_parts();
    let left = reversed(left);
    let taken = taken_of(alloc, fresh, left.as_slice())?;
    Ok(NodesPlan {
        root,
        writes,
        taken,
    })
}

/// Lays a plan of nodes out in the blocks of `dir`, whose root is the one that it was planned for.
/// The place and the view may be others than those of the plan: the allocation may have got blocks
/// for the VCNs that are taken, and the content may have changed elsewhere. Nothing is changed: the
/// new root and the changes are answered, each of the whole body of a block. It reads the body of
/// each block that changes, and takes time and memory linear in these.
///
/// - `Fault`: the view failed.
/// - `Memory`: there is no memory left. This comes too where a node has no block, or no spelling.
pub fn lay_out<V: View>(
    alloc: Global,
    v: &mut V,
    dir: &DirPlace,
    nodes: NodesPlan,
) -> Result<DirPlan, ViewFault>
    ensures laid { IfOk result (LaysOut (place_of dir.now) (clusters_of dir.now.root) nodes) }
    ensures old { IfSome (V.content v.old) (λ c. IfOk result (λ plan. AllWereOld c plan.changes.items)) }
    ensures fits { IfOk result (λ plan. All Fits plan.changes.items) }
    ensures same { V.content v.new ≡ V.content v.old }
    ensures kept { V.kept v.new ≡ V.kept v.old }
    ensures cause { FailsAsView (V.faults v.old) (V.faults v.new) result }
{
    let NodesPlan {
        root,
        writes,
        taken,
    } = nodes;
    let changes = changes_of(alloc, v, dir, writes)?;
    let root = root_value(alloc, dir, root)?;
    Ok(DirPlan {
        root,
        changes,
        taken,
        freed: Vec::new(alloc),
    })
}

/// What a plan of nodes comes to, with the VCNs of blocks that are gone: the new root, the changes
/// of blocks, and the VCNs that are taken and freed.
///
/// - `Fault`: the view failed.
/// - `Memory`: there is no memory left.
pub fn finish<V: View>(
    alloc: Global,
    v: &mut V,
    dir: &DirPlace,
    fresh: &[u64],
    rooted: Rooted,
    gone: Vec<u64>,
) -> Result<DirPlan, ViewFault>
    requires enough { 17 ≤ length fresh.now }
    ensures made { IfOk result (IsMade (place_of dir.now) (clusters_of dir.now.root) (seventeen fresh.now) gone.items rooted) }
    ensures old { IfSome (V.content v.old) (λ c. IfOk result (λ plan. AllWereOld c plan.changes.items)) }
    ensures fits { IfOk result (λ plan. All Fits plan.changes.items) }
    ensures same { V.content v.new ≡ V.content v.old }
    ensures kept { V.kept v.new ≡ V.kept v.old }
    ensures cause { FailsAsView (V.faults v.old) (V.faults v.new) result }
{
    let nodes = drawn_nodes(alloc, fresh, rooted)?;
    let DirPlan {
        root,
        changes,
        taken,
        ..
    } = lay_out(alloc, v, dir, nodes)?;
    Ok(DirPlan {
        root,
        changes,
        taken,
        freed: gone,
    })
}
