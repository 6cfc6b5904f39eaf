//! A tree in memory, of which each list is gone through from the front.
ghost use Rattle.std.specs.Prelude.{◌≡◌, IfOk};
ghost use Rattle.std.specs.Option.{option_copied};
ghost use Rattle.file_tree.specs.Trees.{same_links, look_up, long_links_in, node_at, long_names_of, IsListing, without_bytes};
ghost use Rattle.tree_lookup.specs.Asked.{bare_at, bytes_at};

use crate::fault::LookupFault;
use crate::looking::Lookup;
use file_tree::{Link, Node, SHORT, Tree, chosen_link, is_same_name, sort_links};
use host_base::Bytes;
use std::alloc::{AllocError, Global};
use tree_model::{Name, NameList, front_into, names_of};

/// A tree in memory and the table of upper-case units by which its names are in order, which
/// answers by going through its lists. It fails only for want of memory.
#[derive(Drop)]
pub struct Plain<'a> {
    pub upper: &'a [u16],
    pub tree: &'a Tree,
}

#[tactic(auto, unfolding(file_tree::specs::Trees::node_at))]
fn node_at(nodes: &[Node], number: u64) -> Option<&Node>
    ensures { option_copied result ≡ node_at nodes.now number }
{
    nodes.iter().find(|node| node.number == number)
}

// The node without its bytes; this takes no memory.
fn without_bytes(alloc: Global, node: &Node) -> Node
    ensures { result ≡ without_bytes node.now }
{
    Node {
        number: node.number,
        seq: node.seq,
        kind: node.kind,
        why: node.why,
        held: node.held,
        size: node.size,
        valid: node.valid,
        clusters: node.clusters,
        bytes: Bytes::new(alloc),
        flags: node.flags,
        created: node.created,
        modified: node.modified,
        changed: node.changed,
        read_at: node.read_at,
    }
}

#[tactic(auto, unfolding(crate::specs::Asked::bare_at))]
fn bare_at(alloc: Global, nodes: &[Node], number: u64) -> Option<Node>
    ensures { result ≡ bare_at nodes.now number }
{
    match node_at(nodes, number) {
        Some(node) => Some(without_bytes(alloc, node)),
        None => None,
    }
}

#[tactic(auto, unfolding(crate::specs::Asked::bytes_at))]
fn bytes_at(nodes: &[Node], number: u64) -> &[u8]
    ensures { result.now ≡ bytes_at nodes.now number }
{
    match node_at(nodes, number) {
        Some(node) => node.bytes.as_slice(),
        None => &[],
    }
}

// The links of a directory whose name is the same.
#[tactic(auto, unfolding(file_tree::specs::Trees::same_links))]
fn same_links(
    alloc: Global,
    upper: &[u16],
    links: &[Link],
    directory: u64,
    part: &[u16],
) -> Result<Vec<Link>, AllocError>
    ensures { IfOk result (λ same. same.items ≡ same_links upper.now links.now directory part.now) }
{
    let mut same = Vec::new(alloc);
    for link in links {
        if link.parent.number == directory && is_same_name(upper, link.name.units(), part) {
            same.push(link.clone()?)?;
        }
    }
    Ok(same)
}

fn copy_of(link: Option<&Link>) -> Result<Option<Link>, AllocError>
    ensures { IfOk result (λ copy. copy ≡ option_copied link.entry) }
{
    match link {
        Some(link) => Ok(Some(link.clone()?)),
        None => Ok(None),
    }
}

// The link that a part leads to.
#[tactic(auto, unfolding(file_tree::specs::Trees::look_up))]
fn look_up(
    alloc: Global,
    upper: &[u16],
    links: &[Link],
    directory: u64,
    part: &[u16],
) -> Result<Option<Link>, AllocError>
    ensures { IfOk result (λ link. link ≡ look_up upper.now links.now directory part.now) }
{
    let same = same_links(alloc, upper, links, directory, part)?;
    copy_of(chosen_link(upper, &same, part))
}

#[tactic(auto, unfolding(file_tree::specs::Trees::long_names_of))]
fn long_names_of(links: &[Link], number: u64) -> u64
    ensures { result ≡ long_names_of links.now number }
{
    let long = links
        .iter()
        .filter(|link| link.child.number == number && link.space != SHORT);
    long.count() as u64
}

// The long links of a directory.
#[tactic(auto, unfolding(file_tree::specs::Trees::long_links_in))]
fn long_links_in(alloc: Global, links: &[Link], directory: u64) -> Result<Vec<Link>, AllocError>
    ensures { IfOk result (λ long. long.items ≡ long_links_in links.now directory) }
{
    let mut long = Vec::new(alloc);
    for link in links {
        if link.parent.number == directory && link.space != SHORT {
            long.push(link.clone()?)?;
        }
    }
    Ok(long)
}

fn listing(
    alloc: Global,
    upper: &[u16],
    links: &[Link],
    directory: u64,
) -> Result<NameList, AllocError>
    ensures { IfOk result (λ names. IsListing upper.now links.now directory names) }
{
    let mut long = long_links_in(alloc, links, directory)?;
    sort_links(upper, &mut long)?;
    names_of(alloc, &long)
}

impl Lookup for Plain<'_> {
    ghost use Rattle.std.specs.Prelude.{ℕ, Some};

    ghost upper = { λ p. p.upper.now };

    ghost tree = { λ p. Some p.tree.now };

    ghost faults = { λ _. 0 };

    ghost Kept = { ℕ };

    ghost kept = { λ _. 0 };

    /// The node with this number without its bytes, in time linear in the nodes.
    fn node(&mut self, alloc: Global, number: u64) -> Result<Option<Node>, LookupFault> {
        Ok(bare_at(alloc, self.tree.nodes.as_slice(), number))
    }

    /// The link that this part leads to, in time linear in the links and the part.
    fn link(
        &mut self,
        alloc: Global,
        directory: u64,
        part: &Name,
    ) -> Result<Option<Link>, LookupFault> {
        let links = self.tree.links.as_slice();
        Ok(look_up(alloc, self.upper, links, directory, part.units())?)
    }

    /// How many long names the file has, in time linear in the links.
    fn long_names_of(&mut self, _alloc: Global, number: u64) -> Result<u64, LookupFault> {
        Ok(long_names_of(self.tree.links.as_slice(), number))
    }

    /// The long names of this directory, in time near-linear in the links.
    fn listing(&mut self, alloc: Global, directory: u64) -> Result<NameList, LookupFault> {
        let links = self.tree.links.as_slice();
        Ok(listing(alloc, self.upper, links, directory)?)
    }

    /// Bytes of the node with this number, in time linear in the nodes and in `out`.
    fn front(
        &mut self,
        _alloc: Global,
        number: u64,
        at: u64,
        out: &mut [u8],
    ) -> Result<(), LookupFault> {
        front_into(bytes_at(self.tree.nodes.as_slice(), number), at, out);
        Ok(())
    }
}
