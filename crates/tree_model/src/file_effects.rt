//! What an operation on a file leaves of a tree.
ghost use Rattle.std.specs.Prelude.{◌≡◌, ◌<◌, ◌-◌, None, ℕ, not, ◌==◌, filter, IfOk};
ghost use Rattle.file_tree.specs.declared.node.Node.{Node as the_node};
ghost use Rattle.file_tree.specs.Trees.{node_at};
ghost use Rattle.tree_model.specs.Effects.{with_node, changed_node, renewed, new_file, lesser_ref, least_ref};

use crate::script::Op;
use file_tree::{Bytes, FileRef, Kind, Node, NodeList};
use std::alloc::{AllocError, Global};

/// A node with these bytes and sizes, changed at this time.
#[tactic(auto, unfolding(crate::specs::Effects::changed_node))]
pub fn changed_node(
    node: &Node,
    bytes: Bytes,
    size: u64,
    valid: u64,
    clusters: u64,
    stamp: u64,
) -> Node
    ensures { result ≡ changed_node node.now bytes size valid clusters stamp }
{
    Node {
        number: node.number,
        seq: node.seq,
        kind: node.kind,
        why: node.why,
        held: node.held,
        size,
        valid,
        clusters,
        bytes,
        flags: node.flags,
        created: node.created,
        modified: stamp,
        changed: stamp,
        read_at: node.read_at,
    }
}

/// A directory whose names changed at this time. The error is want of memory.
pub fn renewed(node: &Node, stamp: u64) -> Result<Node, AllocError>
    ensures { IfOk result (λ new. new ≡ renewed node.now stamp) }
{
    let bytes = node.bytes.clone()?;
    Ok(changed_node(node, bytes, node.size, node.valid, node.clusters, stamp))
}

/// A new file without bytes.
#[tactic(auto, unfolding(crate::specs::Effects::new_file))]
pub fn new_file(alloc: Global, number: FileRef, stamp: u64) -> Node
    ensures { result ≡ new_file number stamp }
{
    Node {
        number: number.number,
        seq: number.seq,
        kind: Kind::File,
        why: None,
        held: false,
        size: 0,
        valid: 0,
        clusters: 0,
        bytes: Bytes::new(alloc),
        flags: 0x20,
        created: stamp,
        modified: stamp,
        changed: stamp,
        read_at: stamp,
    }
}

// The nodes with another number.
fn others(alloc: Global, nodes: &[Node], number: u64) -> Result<NodeList, AllocError>
    ensures { IfOk result (λ list. list ≡ filter (λ (n : the_node). not (n.number == number)) nodes.now) }
{
    let mut list = NodeList::new(alloc);
    for node in nodes {
        if node.number != number {
            list.push(node.clone()?)?;
        }
    }
    Ok(list)
}

/// The nodes with this one at its number, behind the others. The error is want of memory.
#[tactic(auto, using(crate::proofs::ByNumber::node_put))]
pub fn with_node(alloc: Global, nodes: &[Node], node: Node) -> Result<NodeList, AllocError>
    ensures { IfOk result (λ list. (number : ℕ) → node_at list number ≡ with_node node (node_at nodes.now) number) }
{
    let mut list = others(alloc, nodes, node.number)?;
    list.push(node)?;
    Ok(list)
}

// The lesser of two references by number, the first of equal ones.
fn lesser_ref(reference: FileRef, other: Option<FileRef>) -> FileRef
    ensures { result ≡ lesser_ref reference other }
{
    match other {
        Some(other) if other.number < reference.number => other,
        _ => reference,
    }
}

/// The reference with the least number, gone through from the end.
#[tactic(auto, unfolding(crate::specs::Effects::least_ref))]
pub fn least_ref(refs: &[FileRef]) -> Option<FileRef>
    ensures { result ≡ least_ref refs.now }
{
    let mut least = None;
    for i in 0..refs.len() {
        least = Some(lesser_ref(refs[refs.len() - 1 - i], least));
    }
    least
}
