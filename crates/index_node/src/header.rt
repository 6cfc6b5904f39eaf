ghost use Rattle.std.specs.Prelude.{◌≡◌, ◌≤◌, ◌<◌, true, false, length};
ghost use Rattle.disk_model.specs.host_base.Answers.{Gives};
ghost use Rattle.disk_model.specs.Numbers.{field};
ghost use Rattle.record_model.specs.Nodes.{has_node_header, children_flag, entry_bytes, node_entries, has_root_header};
ghost use Rattle.index_node.specs.Faults.{rule_cause};
ghost use Rattle.index_node.specs.Walks.{entries_at};

use crate::fault::NodeFault;
use crate::walk::entries_at;
use disk_model::u32_at;
use record_model::{EntryList, NodeFlags};
use std::alloc::Global;

// The header of a node (Linux-NTFS documentation, "Index Record"), and that of a root. `node` is
// the bytes from the node header on.

// Whether the first entry, the used and the allocated bytes lie in the node.
#[tactic(auto, using(crate::proofs::Whole::too_short), unfolding(record_model::specs::Nodes::has_node_header))]
fn has_node_header(node: &[u8]) -> bool
    ensures { result ≡ has_node_header node.now }
{
    if node.len() < 0x10 {
        return false;
    }
    let first = u32_at(node, 0x00) as usize;
    let used = u32_at(node, 0x04) as usize;
    let allocated = u32_at(node, 0x08) as usize;
    0x10 <= first && first % 8 == 0 && first <= used && used <= allocated && allocated <= node.len()
}

// 1 where the entries have children.
#[tactic(auto, unfolding(disk_model::specs::Numbers::field))]
fn children_flag(node: &[u8]) -> u16
    requires { 0x10 ≤ length node.now }
    ensures { result ≡ children_flag node.now }
{
    u16::from(NodeFlags::has_children(node[0x0c]))
}

/// Whether the value of an index root is one of file names, with blocks of 4,096 bytes.
#[tactic(auto, unfolding(record_model::specs::Nodes::has_root_header))]
pub fn has_root_header(value: &[u8]) -> bool
    ensures { result ≡ has_root_header value.now }
{
    0x10 <= value.len()
        && u32_at(value, 0x00) == 0x30
        && u32_at(value, 0x04) == 1
        && u32_at(value, 0x08) == 4096
}

// The entries behind a lawful node header.
#[tactic(auto, using(crate::proofs::Whole::bounds), unfolding(record_model::specs::Nodes::entry_bytes))]
fn entries_behind(alloc: Global, node: &[u8]) -> Result<EntryList, NodeFault>
    requires { has_node_header node.now ≡ true }
    ensures { Gives (λ entries. entries) rule_cause result (entries_at (children_flag node.now) (entry_bytes node.now)) }
{
    let first = u32_at(node, 0x00) as usize;
    let used = u32_at(node, 0x04) as usize;
    let later = node.split_at(first).1;
    entries_at(alloc, children_flag(node), later.split_at(used - first).0)
}

/// The entries of a node. `Rule` has the least rule from 3 on that its bytes break.
#[tactic(auto, using(crate::proofs::Whole::answers))]
pub fn node_entries(alloc: Global, node: &[u8]) -> Result<EntryList, NodeFault>
    ensures { Gives (λ entries. entries) rule_cause result (node_entries node.now) }
{
    if !has_node_header(node) {
        return Err(NodeFault::Rule { rule: 3 });
    }
    entries_behind(alloc, node)
}
