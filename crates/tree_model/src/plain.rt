ghost use Rattle.std.specs.Prelude.{◌≡◌, IfOk, map};
ghost use Rattle.std.specs.Option.{option_copied};
ghost use Rattle.file_tree.specs.declared.link.Link.{Link as the_link};
ghost use Rattle.file_tree.specs.Trees.{same_links, long_links_in, long_names_of, node_at, IsListing};
ghost use Rattle.file_tree.specs.Walks.{child_in};

use crate::reply::NameList;
use file_tree::{Link, Node, SHORT, Tree, chosen, is_same_name, sort_links};
use std::alloc::{AllocError, Global};

// A tree whose lists are gone through from the front at each question.
#[derive(Drop)]
pub struct Plain<'a> {
    pub upper: &'a [u16],
    pub tree: &'a Tree,
}

#[tactic(auto, unfolding(file_tree::specs::Trees::node_at))]
fn node_at(nodes: &[Node], number: u64) -> Option<&Node>
    ensures { option_copied result ≡ node_at nodes.now number }
{
    nodes.iter().find(|node| node.number == number)
}

/// The links of a directory whose name is the same.
#[tactic(auto, unfolding(file_tree::specs::Trees::same_links))]
pub fn same_links(
    alloc: Global,
    upper: &[u16],
    links: &[Link],
    directory: u64,
    part: &[u16],
) -> Result<Vec<Link>, AllocError>
    ensures { IfOk result (λ same. same.items ≡ same_links upper.now links.now directory part.now) }
{
    let mut same = Vec::new(alloc);
    for link in links {
        if link.parent.number == directory && is_same_name(upper, link.name.units(), part) {
            same.push(link.clone()?)?;
        }
    }
    Ok(same)
}

// The long links of a directory.
#[tactic(auto, unfolding(file_tree::specs::Trees::long_links_in))]
fn long_links_in(alloc: Global, links: &[Link], directory: u64) -> Result<Vec<Link>, AllocError>
    ensures { IfOk result (λ long. long.items ≡ long_links_in links.now directory) }
{
    let mut long = Vec::new(alloc);
    for link in links {
        if link.parent.number == directory && link.space != SHORT {
            long.push(link.clone()?)?;
        }
    }
    Ok(long)
}

/// The names of these links, in their order. The error is want of memory. It takes time and memory
/// linear in the names.
pub fn names_of(alloc: Global, links: &[Link]) -> Result<NameList, AllocError>
    ensures value { IfOk result (λ names. names ≡ map (λ (l : the_link). l.name) links.now) }
{
    let mut names = NameList::new(alloc);
    for link in links {
        names.push(link.name.clone()?)?;
    }
    Ok(names)
}

impl<'a> Plain<'a> {
    // The node with this number, if there is one.
    pub fn node(&self, number: u64) -> Option<&'a Node>
        ensures { option_copied result ≡ node_at self.now.tree.now.nodes number }
    {
        node_at(self.tree.nodes.as_slice(), number)
    }

    // The number of the file that this part names in this directory, if there is one.
    #[tactic(auto, unfolding(file_tree::specs::Walks::child_in, file_tree::specs::Trees::look_up))]
    pub fn child(
        &self,
        alloc: Global,
        directory: u64,
        part: &[u16],
    ) -> Result<Option<u64>, AllocError>
        ensures { IfOk result (λ child. child ≡ child_in self.now.upper.now self.now.tree.now.links directory part.now) }
    {
        let links = self.tree.links.as_slice();
        let same = same_links(alloc, self.upper, links, directory, part)?;
        Ok(chosen(self.upper, &same, part))
    }

    // How many long names the file has.
    #[tactic(auto, unfolding(file_tree::specs::Trees::long_names_of))]
    pub fn long_names_of(&self, number: u64) -> u64
        ensures { result ≡ long_names_of self.now.tree.now.links number }
    {
        let links = self.tree.links.as_slice();
        let long = links
            .iter()
            .filter(|link| link.child.number == number && link.space != SHORT);
        long.count() as u64
    }

    // The long names of this directory, in order.
    pub fn listing(&self, alloc: Global, directory: u64) -> Result<NameList, AllocError>
        ensures { IfOk result (λ names. IsListing self.now.upper.now self.now.tree.now.links directory names) }
    {
        let mut links = long_links_in(alloc, self.tree.links.as_slice(), directory)?;
        sort_links(self.upper, &mut links)?;
        names_of(alloc, &links)
    }
}
