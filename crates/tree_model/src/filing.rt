//! Steps of operations on files, on plain lists.
ghost use Rattle.std.specs.Prelude.{◌≡◌, ◌<◌, ◌≤◌, ◌∷◌, [], true, false, None, IfOk};
ghost use Rattle.tree_model.specs.Needs.{changes_file, needed, clusters_for};
ghost use Rattle.tree_model.specs.Refusals.{first_of, from_there, change_rows};
ghost use Rattle.tree_model.specs.Effects.{HasChanged, clusters_after};
ghost use Rattle.tree_model.specs.Steps.{IsWithinBounds, StepsBy, IsChanged, LeavesFile, is_given_up};
ghost use Rattle.tree_model.specs.Walks.{reached, bad_name};

use crate::file_bytes::{bytes_after, valid_after};
use crate::file_effects::{changed_node, with_node};
use crate::file_rows::change_refusal;
use crate::needs::{changes_file, clusters_for, needed_to_change, shrinks, size_after};
use crate::plain::Plain;
use crate::reply::Reply;
use crate::script::Op;
use crate::stepping::{has_bad_part, reached};
use file_tree::{Memory, Node, Tree, Units};
use std::alloc::{AllocError, Global};

/// The clusters of a file whose bytes are outside its record after an operation.
pub fn clusters_after(op: &Op, node: &Node) -> u64
    requires bounds { IsWithinBounds op.now }
    ensures { result ≡ clusters_after false op.now node.now }
{
    let clusters = clusters_for(size_after(op, node));
    if shrinks(op, node) {
        clusters
    } else {
        node.clusters.max(clusters)
    }
}

// The tree with this file written or cut.
fn changed_tree(
    alloc: Global,
    tree: &Tree,
    op: &Op,
    node: &Node,
    stamp: u64,
) -> Result<Tree, AllocError>
    requires bounds { IsWithinBounds op.now }
    requires journal { tree.now.journal ≡ None }
    requires changes { changes_file op.now node.now ≡ true }
    requires room { needed tree.now 0 op.now node.now ≤ tree.now.room }
    ensures { IfOk result (λ t. HasChanged tree.now (needed tree.now 0 op.now node.now) op.now node.now stamp t) }
{
    let bytes = bytes_after(alloc, op, node)?;
    let (size, valid) = (size_after(op, node), valid_after(op, node));
    let new = changed_node(node, bytes, size, valid, clusters_after(op, node), stamp);
    Ok(Tree {
        nodes: with_node(alloc, tree.nodes.as_slice(), new)?,
        links: tree.links.clone()?,
        spare: tree.spare.clone()?,
        count: tree.count,
        journal: None,
        room: tree.room - needed_to_change(tree, op, node),
    })
}

// A change of this file, behind the walk.
fn change_there(
    alloc: Global,
    tree: &Tree,
    op: &Op,
    node: &Node,
    said: Reply,
    stamp: u64,
) -> Result<(Tree, Reply), Memory>
    requires bounds { IsWithinBounds op.now }
    requires journal { tree.now.journal ≡ None }
    requires said { is_given_up said ≡ false }
    ensures value { IfOk result (λ s. StepsBy (first_of (change_rows tree.now 0 [] op.now node.now)) ((s.1 ≡ said) × LeavesFile (changes_file op.now node.now) tree.now 0 op.now node.now stamp s.0) s.1 tree.now s.0) }
    ensures given { IfOk result (λ s. is_given_up s.1 ≡ false) }
{
    if let Some(reply) = change_refusal(tree, op, node) {
        return Ok((tree.clone()?, reply));
    }
    if !changes_file(op, node) {
        return Ok((tree.clone()?, said));
    }
    Ok((changed_tree(alloc, tree, op, node, stamp)?, said))
}

/// What is answered to a write, a fill or a truncate at this time, and the tree that it leaves;
/// `said` answers one that is done. The error is want of memory.
#[tactic(auto, using(crate::proofs::Refusing::walk_ends, crate::proofs::Refusing::walk_given))]
pub fn change(
    alloc: Global,
    tree: &Tree,
    upper: &[u16],
    path: &[Units],
    op: &Op,
    said: Reply,
    stamp: u64,
) -> Result<(Tree, Reply), Memory>
    requires bounds { IsWithinBounds op.now }
    requires journal { tree.now.journal ≡ None }
    requires said { is_given_up said ≡ false }
    ensures value { IfOk result (λ s. StepsBy (first_of (bad_name path.now ∷ from_there (reached upper.now tree.now.nodes tree.now.links path.now) (change_rows tree.now 0 [] op.now))) (IsChanged upper.now path.now op.now 0 stamp said s.1 tree.now s.0) s.1 tree.now s.0) }
    ensures given { IfOk result (λ s. is_given_up s.1 ≡ false) }
{
    if has_bad_part(path) {
        return Ok((tree.clone()?, Reply::BadName));
    }
    match reached(alloc, &Plain { upper, tree }, path) {
        Ok(node) => change_there(alloc, tree, op, node, said, stamp),
        Err(Reply::Memory) => Err(Memory),
        Err(reply) => Ok((tree.clone()?, reply)),
    }
}
