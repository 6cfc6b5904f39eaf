ghost use Rattle.std.specs.Prelude.{◌≡◌, ◌<◌, IfErr, IfOk, OnOk, Ok, length};
ghost use Rattle.std.specs.Option.{ForSome};
ghost use Rattle.index_tree.specs.index_model.Indexes.{node_of_block};
ghost use Rattle.index_plan.specs.declared.fault.ReadFault.TheVariants.{Memory as no_memory};
ghost use Rattle.index_plan.specs.Reading.{NodeReads};
ghost use Rattle.index_plan.specs.Room.{Sized};
ghost use Rattle.index_change.specs.Holding.{HoldsNodesOf, HoldsMore};
ghost use Rattle.index_tree.specs.Places.{place_of};

use index_node::{EntryList, Node};
use index_plan::{Nodes, ReadFault, is_sized};
use index_tree::{DirPlace, View};
use std::alloc::{AllocError, Global};
use std::collections::BTreeMap;

// Nodes that were read from a view, and are held while a plan is made over them.

/// The nodes by their VCNs.
pub type Held = BTreeMap<u64, Node>;

/// One node more, in place of the one that was held by its VCN. The error is want of memory.
/// Logarithmic in the nodes that are held.
pub fn hold(held: &mut Held, vcn: u64, node: Node) -> Result<(), AllocError>
    ensures more { OnOk result (HoldsMore vcn node held.old held.new) }
    ensures right { (read : NodeReads) → read vcn ≡ Ok node.entries → HoldsNodesOf read held.old → OnOk result (HoldsNodesOf read held.new) }
{
    match held.insert(vcn, node) {
        Ok(_) => Ok(()),
        Err(_) => Err(AllocError),
    }
}

/// A copy of entries. The error is want of memory.
pub fn copy_of(alloc: Global, node: &EntryList) -> Result<EntryList, AllocError>
    ensures { IfOk result (λ copy. copy ≡ node.now) }
{
    let entries = node.as_slice();
    let mut copy = EntryList::new(alloc);
    for entry in entries {
        copy.push(entry.clone()?)?;
    }
    Ok(copy)
}

// A copy of a node's entries, where they have the size of those of a block.
fn sized_copy(alloc: Global, node: &Node) -> Result<EntryList, ReadFault>
    ensures copy { IfOk result (λ copy. copy ≡ node.now.entries) }
    ensures some { IfOk result (λ copy. 0 < length copy) }
    ensures sized { IfOk result Sized }
    ensures fault { IfErr result (λ e. e ≡ no_memory) }
{
    let Ok(copy) = copy_of(alloc, node.entries()) else {
        return Err(ReadFault::Memory);
    };
    if copy.len() == 0 {
        return Err(ReadFault::Memory);
    }
    if !is_sized(&copy) {
        return Err(ReadFault::Memory);
    }
    Ok(copy)
}

/// The nodes of an index, as far as they are held. One that isn't counts as want of memory; this
/// doesn't come where the nodes of a search for the name are held.
#[derive(Drop)]
pub struct HeldNodes<'a, V: View> {
    pub v: &'a V,
    pub dir: &'a DirPlace,
    pub held: &'a Held,
    pub ghost right: { ForSome (V.content v.now) (λ c. HoldsNodesOf (node_of_block c (place_of dir.now)) held.now) },
}

impl<'a, V: View> Nodes for HeldNodes<'a, V> {
    ghost use Rattle.std.specs.Option.{option_map};
    ghost use Rattle.index_tree.specs.index_model.Indexes.{node_of_block};
    ghost use Rattle.index_tree.specs.Places.{place_of};

    ghost reads = { λ n. option_map (λ c. node_of_block c (place_of n.dir.now)) (V.content n.v.now) };

    ghost faults = { λ _. 0 };

    fn read(&mut self, alloc: Global, vcn: u64) -> Result<EntryList, ReadFault> {
        match self.held.get(&vcn) {
            None => Err(ReadFault::Memory),
            Some(node) => sized_copy(alloc, node),
        }
    }
}
