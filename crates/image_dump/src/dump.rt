//! The text of a whole tree.
ghost use Rattle.std.specs.Prelude.{◌≡◌, ◌++◌, IfOk, OnOk, OnErr, map, string_bytes};
ghost use Rattle.std.specs.Borrow.{Bor};
ghost use Rattle.std.specs.List.{flat_map};
ghost use Rattle.file_tree.specs.declared.node.Node.{Node as the_node};
ghost use Rattle.file_tree.specs.declared.link.Link.{Link as the_link};
ghost use Rattle.image_dump.specs.Order.{by_number, long_links, short_links};
ghost use Rattle.image_dump.specs.Texts.{node_line, long_line, short_line, dump_text};

use crate::line::{push_journal, push_long, push_node, push_room, push_short};
use crate::order::{by_number, long_links, short_links};
use file_tree::{Link, Node, Tree};
use host_base::Memory;
use std::alloc::Global;

// Appends a line for each node, by number.
fn push_nodes(text: &mut String, nodes: &[Node]) -> Result<(), Memory>
    ensures { OnOk result (string_bytes text.new
        ≡ string_bytes text.old ++ flat_map node_line (by_number nodes.now)) }
{
    let order = by_number(*text.allocator(), nodes)?;
    for node in &order {
        push_node(text, *node)?;
    }
    Ok(())
}

// Appends a line for each long link, in order.
fn push_long_links(text: &mut String, links: &[Link]) -> Result<(), Memory>
    ensures { OnOk result (string_bytes text.new
        ≡ string_bytes text.old ++ flat_map long_line (long_links links.now)) }
{
    let order = long_links(*text.allocator(), links)?;
    for link in &order {
        push_long(text, *link)?;
    }
    Ok(())
}

// Appends a line for each short link, in order.
fn push_short_links(text: &mut String, links: &[Link]) -> Result<(), Memory>
    ensures { OnOk result (string_bytes text.new
        ≡ string_bytes text.old ++ flat_map short_line (short_links links.now)) }
{
    let order = short_links(*text.allocator(), links)?;
    for link in &order {
        push_short(text, *link)?;
    }
    Ok(())
}

fn text_of_tree(alloc: Global, tree: &Tree) -> Result<String, Memory>
    ensures { IfOk result (λ text. string_bytes text ≡ dump_text tree.now) }
{
    let mut text = String::new(alloc);
    let links = tree.links.as_slice();
    push_nodes(&mut text, tree.nodes.as_slice())?;
    push_long_links(&mut text, links)?;
    push_short_links(&mut text, links)?;
    push_journal(&mut text, &tree.journal)?;
    push_room(&mut text, tree.room)?;
    Ok(text)
}

/// Appends the text of a tree. For each node, by number, the line `node N S KIND SIZE VALID
/// CLUSTERS CREATED MODIFIED CHANGED READ`: number and sequence, the kind in a word, size and valid
/// size in bytes, clusters, and the times in units of 100 ns since 1601-01-01. Then for each long
/// link, and after them for each short one, `link N P long NAME` or `link N P short NAME` with the
/// child's and the parent's number, in the order of `scan_text`. Then `journal FIRST NEXT REACH`,
/// or `journal -` where there is none, and `room R`, the free clusters (Linux-NTFS documentation,
/// "File record" and "Attribute - $FILE_NAME"). Nodes of one number stand as in the tree. The error
/// is want of memory, and leaves `out` as it was. It takes time linear in the text, and near linear
/// in the numbers of nodes and links to put them in order, and memory for two copies of the text.
pub fn dump_text(tree: &Tree, out: &mut String) -> Result<(), Memory>
    ensures value { OnOk result
        (string_bytes out.new ≡ string_bytes out.old ++ dump_text tree.now) }
    ensures unchanged { OnErr result (string_bytes out.new ≡ string_bytes out.old) }
{
    let text = text_of_tree(*out.allocator(), tree)?;
    out.push_str(&text)?;
    Ok(())
}
