ghost use Rattle.std.specs.Prelude.{◌≡◌, IfSome};
ghost use Rattle.volume_model.specs.host_base.Answers.{GivesOrFails};
ghost use Rattle.index_model.specs.Indexes.{node_of_block};
ghost use Rattle.index_model.specs.Walks.{all_judged, below, entry_met, kid_met, met_in, walk_of};
ghost use Rattle.index_tree.specs.Places.{place_of};
ghost use Rattle.index_tree.specs.Faults.{tree_cause, FailsByView};
ghost use Rattle.index_tree.specs.Calls.{WalkGives};

use crate::fault::TreeFault;
use crate::met::{Met, entry_link};
use crate::nodes::{LEVELS_BELOW, read_node, read_root};
use crate::place::DirPlace;
use index_model::ROOT_VCN;
use index_node::Entry;
use std::alloc::Global;
use stream_map::View;
use volume_model::{LinkList, Upcase};

// What a walk goes over.
#[derive(Clone, Copy)]
struct Walker<'a> {
    alloc: Global,
    dir: &'a DirPlace,
    up: &'a Upcase,
}

impl<'a> Walker<'a> {
    // Goes over a node that hangs below another one, and over what hangs below it.
    #[cycle(walking)]
    fn child<V: View>(
        &self,
        v: &mut V,
        levels: u32,
        vcn: u64,
        child: u64,
        met: &mut Met,
    ) -> Result<(), TreeFault>
        ensures value { IfSome (V.content v.old) (λ c. GivesOrFails (λ _. met.new) tree_cause result (all_judged (place_of self.now.dir.now) self.now.up.now met.old (kid_met (node_of_block c (place_of self.now.dir.now)) levels vcn child))) }
        ensures same { V.content v.new ≡ V.content v.old }
        ensures kept { V.kept v.new ≡ V.kept v.old }
        ensures cause { FailsByView (V.faults v.old) (V.faults v.new) result }
    {
        if levels == 0 {
            return Err(TreeFault::Node { vcn, rule: 7 });
        }
        met.enter(self.dir, vcn, child)?;
        let node = read_node(self.alloc, v, self.dir, child)?;
        self.entries(v, levels - 1, child, node.entries().as_slice(), met)
    }

    // Goes over what hangs below an entry of a node, if anything does.
    #[cycle(walking)]
    fn below<V: View>(
        &self,
        v: &mut V,
        levels: u32,
        vcn: u64,
        down: Option<u64>,
        met: &mut Met,
    ) -> Result<(), TreeFault>
        ensures value { IfSome (V.content v.old) (λ c. GivesOrFails (λ _. met.new) tree_cause result (all_judged (place_of self.now.dir.now) self.now.up.now met.old (below (kid_met (node_of_block c (place_of self.now.dir.now)) levels vcn) down))) }
        ensures same { V.content v.new ≡ V.content v.old }
        ensures kept { V.kept v.new ≡ V.kept v.old }
        ensures cause { FailsByView (V.faults v.old) (V.faults v.new) result }
    {
        match down {
            None => Ok(()),
            Some(child) => self.child(v, levels, vcn, child, met),
        }
    }

    // Goes over what hangs below an entry of a node, and then over its key.
    #[cycle(walking)]
    fn entry<V: View>(
        &self,
        v: &mut V,
        levels: u32,
        vcn: u64,
        entry: &Entry,
        met: &mut Met,
    ) -> Result<(), TreeFault>
        ensures value { IfSome (V.content v.old) (λ c. GivesOrFails (λ _. met.new) tree_cause result (all_judged (place_of self.now.dir.now) self.now.up.now met.old (entry_met (kid_met (node_of_block c (place_of self.now.dir.now)) levels vcn) vcn entry.now))) }
        ensures same { V.content v.new ≡ V.content v.old }
        ensures kept { V.kept v.new ≡ V.kept v.old }
        ensures cause { FailsByView (V.faults v.old) (V.faults v.new) result }
    {
        self.below(v, levels, vcn, entry.down, met)?;
        met.key(self.alloc, self.up, vcn, entry)
    }

    // Goes over the entries of a node, below which so many levels may lie.
    #[cycle(walking)]
    fn entries<V: View>(
        &self,
        v: &mut V,
        levels: u32,
        vcn: u64,
        entries: &[Entry],
        met: &mut Met,
    ) -> Result<(), TreeFault>
        ensures value { IfSome (V.content v.old) (λ c. GivesOrFails (λ _. met.new) tree_cause result (all_judged (place_of self.now.dir.now) self.now.up.now met.old (met_in (node_of_block c (place_of self.now.dir.now)) levels vcn entries.now))) }
        ensures same { V.content v.new ≡ V.content v.old }
        ensures kept { V.kept v.new ≡ V.kept v.old }
        ensures cause { FailsByView (V.faults v.old) (V.faults v.new) result }
    {
        for entry in entries {
            self.entry(v, levels, vcn, entry, met)?;
        }
        Ok(())
    }
}

// The links of the keys, or the first fault that the walk meets.
fn walk_from<V: View>(
    alloc: Global,
    v: &mut V,
    dir: &DirPlace,
    up: &Upcase,
) -> Result<LinkList, TreeFault>
    ensures value { IfSome (V.content v.old) (λ c. GivesOrFails (λ links. links) tree_cause result (walk_of c (place_of dir.now) up.now dir.now.root)) }
    ensures same { V.content v.new ≡ V.content v.old }
    ensures kept { V.kept v.new ≡ V.kept v.old }
    ensures cause { FailsByView (V.faults v.old) (V.faults v.new) result }
{
    let root = read_root(alloc, dir)?;
    let mut met = Met::new(alloc, dir);
    let over = Walker { alloc, dir, up };
    over.entries(v, LEVELS_BELOW, ROOT_VCN, root.as_slice(), &mut met)?;
    Ok(met.into_links())
}

/// The links of the keys of a directory's index, in the order of names, where the view's content
/// holds an index at that place: each node below the root lies in a block of the place, is met once
/// and on level 16 at most, and each key stands before the next one or has a name of the same
/// units. It reads each of these blocks once, and takes memory linear in the bytes of their nodes;
/// time is linear in these, with a search among the blocks that were met, and among the runs of the
/// place, for each block. Blocks of the place that aren't met cost nothing.
///
/// - [`TreeFault::Node`]: the first node, in the order of the walk, that breaks a rule.
/// - [`TreeFault::View`]: the view failed and counts it, or there is no memory left.
pub fn walk<V: View>(
    alloc: Global,
    v: &mut V,
    dir: &DirPlace,
    up: &Upcase,
) -> Result<LinkList, TreeFault>
    ensures value { IfSome (V.content v.old) (λ c. GivesOrFails (λ links. links) tree_cause result (walk_of c (place_of dir.now) up.now dir.now.root)) }
    ensures index { IfSome (V.content v.old) (λ c. WalkGives c (place_of dir.now) up.now dir.now.root result) }
    ensures same { V.content v.new ≡ V.content v.old }
    ensures kept { V.kept v.new ≡ V.kept v.old }
    ensures cause { FailsByView (V.faults v.old) (V.faults v.new) result }
{
    walk_from(alloc, v, dir, up)
}
