ghost use Rattle.std.specs.Prelude.{◌≡◌, IfOk, IfSome, Ok, length};
ghost use Rattle.volume_model.specs.host_base.Answers.{Gives, GivesOrFails};
ghost use Rattle.stream_map.specs.record_model.Nodes.{node_at, root_at};
ghost use Rattle.index_model.specs.Walks.{root_vcn};
ghost use Rattle.index_model.specs.Indexes.{node_block, entries_of_node, is_index_body, node_of_body, node_of_block};
ghost use Rattle.index_tree.specs.Places.{place_of};
ghost use Rattle.index_tree.specs.Faults.{tree_cause, FailsByView, FailsAsView, ViewOf, IsRead, StandsAt, broken_at};

use crate::fault::TreeFault;
use crate::place::DirPlace;
use index_model::ROOT_VCN;
use index_node::{EntryList, Node, NodeFault, u64_at};
use std::alloc::Global;
use stream_map::{Block, Body, View, ViewFault};

// Reading of a node that lies in a block.

/// The levels that may lie below the root.
pub const LEVELS_BELOW: u32 = 15;

// The bytes of an index block.
const BLOCK_BYTES: usize = 4096;

/// The entries of the index root, in time and memory linear in the bytes of its value.
///
/// - [`TreeFault::Node`]: the root, by the VCN 2^64 - 1, and the least rule that it breaks.
/// - [`TreeFault::View`]: there is no memory left.
pub fn read_root(alloc: Global, dir: &DirPlace) -> Result<EntryList, TreeFault>
    ensures { Gives (λ entries. entries) tree_cause result (broken_at root_vcn (root_at dir.now.root)) }
{
    match index_node::read_root(alloc, dir.root.as_slice()) {
        Ok(entries) => Ok(entries),
        Err(NodeFault::Rule { rule }) => Err(TreeFault::Node {
            vcn: ROOT_VCN,
            rule,
        }),
        Err(NodeFault::Full { .. }) => Err(TreeFault::View(ViewFault::Memory)),
        Err(NodeFault::Memory) => Err(TreeFault::View(ViewFault::Memory)),
    }
}

// The body of a block.
fn read_body<V: View>(alloc: Global, v: &mut V, block: Block) -> Result<Body, TreeFault>
    ensures value { IfSome (V.content v.old) (λ c. GivesOrFails (λ body. body) tree_cause result (Ok (c block))) }
    ensures same { V.content v.new ≡ V.content v.old }
    ensures kept { V.kept v.new ≡ V.kept v.old }
    ensures cause { FailsByView (V.faults v.old) (V.faults v.new) result }
{
    let mut body = Body::empty(alloc)?;
    v.body(block, &mut body)?;
    Ok(body)
}

// The node of an index block's 4,096 bytes.
fn node_of(alloc: Global, vcn: u64, body: &[u8]) -> Result<Node, TreeFault>
    requires { length body.now ≡ 4096 }
    ensures value { Gives (λ n. n.entries) tree_cause result (broken_at vcn (entries_of_node (node_at body.now))) }
    ensures whole { IfOk result (λ n. node_at body.now ≡ Ok n) }
{
    match Node::read(alloc, body) {
        Ok(node) => Ok(node),
        Err(NodeFault::Rule { rule }) => Err(TreeFault::Node { vcn, rule }),
        Err(NodeFault::Full { .. }) => Err(TreeFault::View(ViewFault::Memory)),
        Err(NodeFault::Memory) => Err(TreeFault::View(ViewFault::Memory)),
    }
}

// Whether a body is that of an index block that begins `INDX` and isn't torn.
fn is_index(body: &Body) -> bool
    ensures { result ≡ is_index_body body.now }
{
    body.bytes().len() == BLOCK_BYTES && !body.torn() && body.bytes().starts_with(b"INDX")
}

// The node with this VCN in a block's body. `Node` has the first rule that it breaks.
#[tactic(auto, unfolding(index_model::specs::Indexes::node_of_body))]
fn node_in(alloc: Global, vcn: u64, body: &Body) -> Result<Node, TreeFault>
    ensures value { Gives (λ n. n.entries) tree_cause result (broken_at vcn (node_of_body vcn body.now)) }
    ensures whole { IfOk result (λ n. node_at body.now.bytes ≡ Ok n) }
{
    if !is_index(body) {
        return Err(TreeFault::Node { vcn, rule: 1 });
    }
    if u64_at(body.bytes(), 0x10) != vcn {
        return Err(TreeFault::Node { vcn, rule: 2 });
    }
    node_of(alloc, vcn, body.bytes())
}

/// The node with this VCN. `Node` has the first rule that it breaks, and 7 where the VCN lies
/// outside the allocation.
#[tactic(auto, unfolding(index_model::specs::Indexes::node_of_block))]
pub fn read_node<V: View>(
    alloc: Global,
    v: &mut V,
    dir: &DirPlace,
    vcn: u64,
) -> Result<Node, TreeFault>
    ensures value { IfSome (V.content v.old) (λ c. GivesOrFails (λ n. n.entries) tree_cause result (broken_at vcn (node_of_block c (place_of dir.now) vcn))) }
    ensures whole { IfSome (V.content v.old) (λ c. IfOk result (StandsAt c (node_block (place_of dir.now) vcn))) }
    ensures same { V.content v.new ≡ V.content v.old }
    ensures kept { V.kept v.new ≡ V.kept v.old }
    ensures cause { FailsByView (V.faults v.old) (V.faults v.new) result }
{
    let Some(block) = dir.node_block(vcn) else {
        return Err(TreeFault::Node { vcn, rule: 7 });
    };
    let body = read_body(alloc, v, block)?;
    node_in(alloc, vcn, &body)
}

// The node with this VCN, where no rule is broken.
fn some_node(read: Result<Node, TreeFault>) -> Result<Option<Node>, ViewFault>
    ensures value { ViewOf result read }
{
    match read {
        Ok(node) => Ok(Some(node)),
        Err(TreeFault::Node { .. }) => Ok(None),
        Err(TreeFault::Present) => Ok(None),
        Err(TreeFault::Absent) => Ok(None),
        Err(TreeFault::Deep { .. }) => Ok(None),
        Err(TreeFault::View(fault)) => Err(fault),
    }
}

/// The node with this VCN, where it breaks no rule: that of its block's bytes, with the LSN that
/// stands there. There is none where the VCN lies outside the allocation, or where the node breaks
/// a rule. It reads the one block, in time and memory linear in its bytes.
///
/// - [`ViewFault::Fault`]: the view failed and counts it.
/// - [`ViewFault::Memory`]: there is no memory left.
pub fn node_if_any<V: View>(
    alloc: Global,
    v: &mut V,
    dir: &DirPlace,
    vcn: u64,
) -> Result<Option<Node>, ViewFault>
    ensures value { IfSome (V.content v.old) (λ c. IfOk result (IsRead (node_of_block c (place_of dir.now) vcn))) }
    ensures whole { IfSome (V.content v.old) (λ c. IfOk result (λ node. IfSome node (StandsAt c (node_block (place_of dir.now) vcn)))) }
    ensures same { V.content v.new ≡ V.content v.old }
    ensures kept { V.kept v.new ≡ V.kept v.old }
    ensures cause { FailsAsView (V.faults v.old) (V.faults v.new) result }
{
    some_node(read_node(alloc, v, dir, vcn))
}
