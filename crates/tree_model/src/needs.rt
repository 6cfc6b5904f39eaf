//! What an operation on a file needs.
ghost use Rattle.std.specs.Prelude.{◌≡◌, ◌+◌, ◌<◌, ◌^◌, true, None};
ghost use Rattle.tree_model.specs.Needs.{size_after, changes_file, shrinks, clusters_for, bytes_part, table_part, needed, reserve};
ghost use Rattle.tree_model.specs.Steps.{IsWithinBounds};

use crate::script::Op;
use file_tree::{Node, Tree};

/// The size of a file after an operation.
pub fn size_after(op: &Op, node: &Node) -> u64
    requires bounds { IsWithinBounds op.now }
    ensures { result ≡ size_after op.now node.now }
{
    match op {
        Op::Write { offset, bytes, .. } => node.size.max(*offset + bytes.len() as u64),
        Op::Fill { offset, count, .. } => node.size.max(*offset + *count),
        Op::Truncate { size, .. } => *size,
        _ => node.size,
    }
}

/// Whether an operation changes the file.
pub fn changes_file(op: &Op, node: &Node) -> bool
    ensures { result ≡ changes_file op.now node.now }
{
    match op {
        Op::Write { bytes, .. } => bytes.len() > 0,
        Op::Fill { count, .. } => *count > 0,
        Op::Truncate { size, .. } => *size != node.size,
        _ => false,
    }
}

/// Whether it cuts the file off.
pub fn shrinks(op: &Op, node: &Node) -> bool
    ensures { result ≡ shrinks op.now node.now }
{
    match op {
        Op::Truncate { size, .. } => *size < node.size,
        _ => false,
    }
}

/// The clusters that so many bytes take.
pub fn clusters_for(size: u64) -> u64
    ensures value { result ≡ clusters_for size }
    ensures few { result < 2 ^ 53 }
{
    let whole = size / 4096;
    if size % 4096 == 0 { whole } else { whole + 1 }
}

// The clusters that a file of this size wants, and hasn't.
fn bytes_part(node: &Node, size: u64) -> u64
    ensures value { result ≡ bytes_part node.now size }
    ensures few { result < 2 ^ 53 }
{
    clusters_for(size).saturating_sub(node.clusters)
}

// The clusters for records more.
fn table_part(tree: &Tree) -> u64
    ensures value { result ≡ table_part tree.now }
    ensures few { result < 66 }
{
    if tree.spare.as_slice().len() == 0 {
        65
    } else {
        0
    }
}

/// What a new file needs, on a tree without a journal.
pub fn needed_to_create(tree: &Tree) -> u64
    ensures value { result ≡ 18 + table_part tree.now }
    ensures few { result < 84 }
{
    18 + table_part(tree)
}

/// What a change of a file needs, on a tree without a journal.
#[tactic(auto, using(crate::proofs::FileNeeds::needs_of_change))]
pub fn needed_to_change(tree: &Tree, op: &Op, node: &Node) -> u64
    requires bounds { IsWithinBounds op.now }
    requires journal { tree.now.journal ≡ None }
    requires changes { changes_file op.now node.now ≡ true }
    ensures value { result ≡ needed tree.now 0 op.now node.now }
    ensures few { result < 2 ^ 53 }
{
    if shrinks(op, node) {
        0
    } else {
        bytes_part(node, size_after(op, node))
    }
}

/// What has to stay free besides.
#[tactic(auto, using(crate::proofs::FileNeeds::reserve_of_change))]
pub fn reserve_of_change(op: &Op, node: &Node) -> u64
    requires changes { changes_file op.now node.now ≡ true }
    ensures value { result ≡ reserve op.now node.now }
    ensures few { result < 65 }
{
    if shrinks(op, node) { 0 } else { 64 }
}
