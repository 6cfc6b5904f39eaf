ghost use Rattle.std.specs.Prelude.{◌≡◌, ◌<◌, ◌++◌, All, map, IfOk, OnOk, length};
ghost use Rattle.record_model.specs.Nodes.{node_spelling, FitsNode};
ghost use Rattle.fixup_record.specs.Protecting.{protected_bytes};
ghost use Rattle.volume_format.specs.Layouts.{IsLayout};
ghost use Rattle.volume_format.specs.Files.{first_check};
ghost use Rattle.volume_format.specs.Indexes.{entry_of, root_entries, block_bytes};

use crate::layout::Layout;
use crate::naming::{name_value, reference};
use fixup_record::protect;
use index_node::Node;
use record_model::{Entry, EntryList, last_entry};
use std::alloc::{AllocError, Global};

// The system files in the order of their names.
const IN_ORDER: [u64; 12] = [4, 8, 6, 7, 11, 2, 0, 1, 9, 10, 3, 5];

// The check word of every new block.
const FIRST_CHECK: u16 = 1;

// The entry of a system file.
fn entry_of(alloc: Global, v: Layout, time: u64, number: u64) -> Result<Entry, AllocError>
    requires layout { IsLayout v }
    requires system { number < 12 }
    ensures { IfOk result (λ entry. entry ≡ entry_of v time number) }
{
    Ok(Entry {
        child: reference(number),
        key: name_value(alloc, v, time, number)?,
        down: None,
    })
}

// Puts the entries of these system files.
fn push_entries(
    alloc: Global,
    v: Layout,
    time: u64,
    order: &[u64],
    entries: &mut EntryList,
) -> Result<(), AllocError>
    requires layout { IsLayout v }
    requires system { All (λ n. n < 12) order.now }
    ensures { OnOk result (entries.new ≡ entries.old ++ map (entry_of v time) order.now) }
{
    for number in order {
        entries.push(entry_of(alloc, v, time, *number)?)?;
    }
    Ok(())
}

// The entries of the root's index.
#[tactic(auto, unfolding(crate::specs::Indexes::root_entries))]
fn root_entries(alloc: Global, v: Layout, time: u64) -> Result<EntryList, AllocError>
    requires { IsLayout v }
    ensures { IfOk result (λ entries. entries ≡ root_entries v time) }
{
    let mut entries = EntryList::new(alloc);
    push_entries(alloc, v, time, &IN_ORDER, &mut entries)?;
    entries.push(last_entry(alloc, None))?;
    Ok(entries)
}

// Writes the node and protects it.
fn write_node(node: &Node, out: &mut [u8])
    requires fits { FitsNode node.now }
    requires whole { length out.old ≡ 4096 }
    ensures { out.new ≡ protected_bytes (node_spelling node.now) first_check }
{
    node.write(out);
    protect(out, FIRST_CHECK);
}

/// The bytes of the root's index block on the disk.
#[tactic(auto, unfolding(crate::specs::Indexes::block_bytes))]
pub fn block_bytes(alloc: Global, v: Layout, time: u64) -> Result<Vec<u8>, AllocError>
    requires { IsLayout v }
    ensures value { IfOk result (λ block. block.items ≡ block_bytes v time) }
    ensures size { IfOk result (λ block. length block.items ≡ 4096) }
{
    let node = Node::new(0, root_entries(alloc, v, time)?);
    let mut bytes = vec![in alloc; 0u8; 4096]?;
    write_node(&node, &mut bytes);
    Ok(bytes)
}
