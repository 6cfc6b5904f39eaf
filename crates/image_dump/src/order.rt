//! The orders in which nodes and links are printed.
ghost use Rattle.std.specs.Prelude.{◌≡◌, IfOk, OnOk, filter, map};
ghost use Rattle.std.specs.Borrow.{Bor};
ghost use Rattle.file_tree.specs.declared.node.Node.{Node as the_node};
ghost use Rattle.file_tree.specs.declared.link.Link.{Link as the_link};
ghost use Rattle.file_tree.specs.Trees.{is_short, is_long};
ghost use Rattle.image_dump.specs.Order.{link_order, node_order, in_order, stands_before, is_node_before, by_number, long_links, short_links};

use file_tree::{Link, Node, SHORT};
use std::alloc::{AllocError, Global};
use std::cmp::Ordering;

fn compare_nodes(a: &Node, b: &Node) -> Ordering
    ensures { result ≡ node_order a.now b.now }
{
    a.number.cmp(&b.number)
}

fn compare_links(a: &Link, b: &Link) -> Ordering
    ensures { result ≡ link_order a.now b.now }
{
    a.child.number.cmp(&b.child.number).then(
        a.parent
            .number
            .cmp(&b.parent.number)
            .then(a.name.units().cmp(b.name.units())),
    )
}

fn sort_nodes(nodes: &mut Vec<&Node>) -> Result<(), AllocError>
    ensures { OnOk result (map (λ (n : Bor the_node). n.now) nodes.new.items
        ≡ in_order is_node_before (map (λ (n : Bor the_node). n.now) nodes.old.items)) }
{
    nodes.sort_by(|a, b| compare_nodes(*a, *b))
}

fn sort_links(links: &mut Vec<&Link>) -> Result<(), AllocError>
    ensures { OnOk result (map (λ (l : Bor the_link). l.now) links.new.items
        ≡ in_order stands_before (map (λ (l : Bor the_link). l.now) links.old.items)) }
{
    links.sort_by(|a, b| compare_links(*a, *b))
}

/// The nodes by number; those of one number stand as in the list. The error is want of memory. It
/// takes time near linear in their number.
pub fn by_number(alloc: Global, nodes: &[Node]) -> Result<Vec<&Node>, AllocError>
    ensures { IfOk result (λ order. map (λ n. n.now) order.items ≡ by_number nodes.now) }
{
    let mut order: Vec<&Node> = nodes.iter().collect(alloc)?;
    sort_nodes(&mut order)?;
    Ok(order)
}

fn keep_long(alloc: Global, links: &[Link]) -> Result<Vec<&Link>, AllocError>
    ensures { IfOk result (λ kept. map (λ l. l.now) kept.items ≡ filter is_long links.now) }
{
    links
        .iter()
        .filter(|link| link.space != SHORT)
        .collect(alloc)
}

fn keep_short(alloc: Global, links: &[Link]) -> Result<Vec<&Link>, AllocError>
    ensures { IfOk result (λ kept. map (λ l. l.now) kept.items ≡ filter is_short links.now) }
{
    links
        .iter()
        .filter(|link| link.space == SHORT)
        .collect(alloc)
}

/// The long links, by child number, parent number and raw units; those that tie stand as in the
/// list. The error is want of memory. It takes time near linear in their number.
pub fn long_links(alloc: Global, links: &[Link]) -> Result<Vec<&Link>, AllocError>
    ensures { IfOk result (λ order. map (λ l. l.now) order.items ≡ long_links links.now) }
{
    let mut order = keep_long(alloc, links)?;
    sort_links(&mut order)?;
    Ok(order)
}

/// The short links, in the same order, with the same error and cost.
pub fn short_links(alloc: Global, links: &[Link]) -> Result<Vec<&Link>, AllocError>
    ensures { IfOk result (λ order. map (λ l. l.now) order.items ≡ short_links links.now) }
{
    let mut order = keep_short(alloc, links)?;
    sort_links(&mut order)?;
    Ok(order)
}
