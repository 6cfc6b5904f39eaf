ghost use Rattle.std.specs.Prelude.{◌≡◌, Some, IfOk, IfSome};
ghost use Rattle.volume_model.specs.host_base.Answers.{GivesOrFails};
ghost use Rattle.index_model.specs.Indexes.{node_of_block, entry_link};
ghost use Rattle.index_model.specs.Walks.{all_judged, below, beside, entry_sought, side_of, kid_sought, sought_in, find_of};
ghost use Rattle.index_tree.specs.Places.{place_of};
ghost use Rattle.index_tree.specs.Faults.{tree_cause, FailsByView, is_behind};
ghost use Rattle.index_tree.specs.Calls.{FindGives};

use crate::fault::TreeFault;
use crate::met::{Met, entry_link};
use crate::nodes::{LEVELS_BELOW, read_node, read_root};
use crate::place::DirPlace;
use index_model::{ROOT_VCN, Side};
use index_node::Entry;
use std::alloc::Global;
use stream_map::View;
use volume_model::{Link, LinkList, Name, Upcase};

// What a search goes over, and the name that it seeks.
#[derive(Clone, Copy)]
struct Finder<'a> {
    alloc: Global,
    dir: &'a DirPlace,
    up: &'a Upcase,
    name: &'a [u16],
}

// Where a link stands to a name.
fn side_of_link(up: &Upcase, name: &[u16], link: &Link) -> Side
    ensures { result ≡ side_of up.now name.now (Some link.now) }
{
    if up.same(link.name.units(), name) {
        Side::Same
    } else if up.order(link.name.units(), name).is_lt() {
        Side::Before
    } else {
        Side::Behind
    }
}

/// Where an entry with this link stands to a name. Linear in the two names; it takes no memory.
pub fn side_of(up: &Upcase, name: &[u16], link: &Option<Link>) -> Side
    ensures { result ≡ side_of up.now name.now link.now }
{
    match link {
        None => Side::Unnamed,
        Some(link) => side_of_link(up, name, link),
    }
}

// Whether a search ends at an entry.
fn is_behind(side: Side) -> bool
    ensures { result ≡ is_behind side }
{
    match side {
        Side::Unnamed => false,
        Side::Before => false,
        Side::Same => false,
        Side::Behind => true,
    }
}

impl<'a> Finder<'a> {
    // Goes over a node that hangs below another one.
    #[cycle(finding)]
    fn child<V: View>(
        &self,
        v: &mut V,
        levels: u32,
        vcn: u64,
        child: u64,
        met: &mut Met,
    ) -> Result<(), TreeFault>
        ensures value { IfSome (V.content v.old) (λ c. GivesOrFails (λ _. met.new) tree_cause result (all_judged (place_of self.now.dir.now) self.now.up.now met.old (kid_sought self.now.up.now self.now.name.now (node_of_block c (place_of self.now.dir.now)) levels vcn child))) }
        ensures same { V.content v.new ≡ V.content v.old }
        ensures kept { V.kept v.new ≡ V.kept v.old }
        ensures cause { FailsByView (V.faults v.old) (V.faults v.new) result }
    {
        if levels == 0 {
            return Err(TreeFault::Node { vcn, rule: 7 });
        }
        met.enter(self.dir, vcn, child)?;
        let node = read_node(self.alloc, v, self.dir, child)?;
        self.entries(v, levels - 1, child, node.entries().as_slice(), met)
    }

    // Goes over what hangs below an entry of a node, if anything does.
    #[cycle(finding)]
    fn below<V: View>(
        &self,
        v: &mut V,
        levels: u32,
        vcn: u64,
        down: Option<u64>,
        met: &mut Met,
    ) -> Result<(), TreeFault>
        ensures value { IfSome (V.content v.old) (λ c. GivesOrFails (λ _. met.new) tree_cause result (all_judged (place_of self.now.dir.now) self.now.up.now met.old (below (kid_sought self.now.up.now self.now.name.now (node_of_block c (place_of self.now.dir.now)) levels vcn) down))) }
        ensures same { V.content v.new ≡ V.content v.old }
        ensures kept { V.kept v.new ≡ V.kept v.old }
        ensures cause { FailsByView (V.faults v.old) (V.faults v.new) result }
    {
        match down {
            None => Ok(()),
            Some(child) => self.child(v, levels, vcn, child, met),
        }
    }

    // Goes over what hangs below an entry of a node that stands at this side, unless that is before
    // the name.
    #[cycle(finding)]
    fn beside<V: View>(
        &self,
        v: &mut V,
        levels: u32,
        vcn: u64,
        side: Side,
        down: Option<u64>,
        met: &mut Met,
    ) -> Result<(), TreeFault>
        ensures value { IfSome (V.content v.old) (λ c. GivesOrFails (λ _. met.new) tree_cause result (all_judged (place_of self.now.dir.now) self.now.up.now met.old (beside side (below (kid_sought self.now.up.now self.now.name.now (node_of_block c (place_of self.now.dir.now)) levels vcn) down)))) }
        ensures same { V.content v.new ≡ V.content v.old }
        ensures kept { V.kept v.new ≡ V.kept v.old }
        ensures cause { FailsByView (V.faults v.old) (V.faults v.new) result }
    {
        match side {
            Side::Unnamed => self.below(v, levels, vcn, down, met),
            Side::Before => Ok(()),
            Side::Same => self.below(v, levels, vcn, down, met),
            Side::Behind => self.below(v, levels, vcn, down, met),
        }
    }

    // Goes over an entry of a node, and answers where it stands to the name.
    #[cycle(finding)]
    fn entry<V: View>(
        &self,
        v: &mut V,
        levels: u32,
        vcn: u64,
        entry: &Entry,
        met: &mut Met,
    ) -> Result<Side, TreeFault>
        ensures value { IfSome (V.content v.old) (λ c. GivesOrFails (λ _. met.new) tree_cause result (all_judged (place_of self.now.dir.now) self.now.up.now met.old (entry_sought (side_of self.now.up.now self.now.name.now (entry_link entry.now)) (entry_link entry.now) (below (kid_sought self.now.up.now self.now.name.now (node_of_block c (place_of self.now.dir.now)) levels vcn) entry.now.down)))) }
        ensures side { IfOk result (λ side. side ≡ side_of self.now.up.now self.now.name.now (entry_link entry.now)) }
        ensures same { V.content v.new ≡ V.content v.old }
        ensures kept { V.kept v.new ≡ V.kept v.old }
        ensures cause { FailsByView (V.faults v.old) (V.faults v.new) result }
    {
        let link = entry_link(self.alloc, entry)?;
        let side = side_of(self.up, self.name, &link);
        self.beside(v, levels, vcn, side, entry.down, met)?;
        met.find(side, link)?;
        Ok(side)
    }

    // Goes over the entries of a node, below which so many levels may lie, up to the first one that
    // stands behind the name.
    #[cycle(finding)]
    fn entries<V: View>(
        &self,
        v: &mut V,
        levels: u32,
        vcn: u64,
        entries: &[Entry],
        met: &mut Met,
    ) -> Result<(), TreeFault>
        ensures value { IfSome (V.content v.old) (λ c. GivesOrFails (λ _. met.new) tree_cause result (all_judged (place_of self.now.dir.now) self.now.up.now met.old (sought_in self.now.up.now self.now.name.now (node_of_block c (place_of self.now.dir.now)) levels vcn entries.now))) }
        ensures same { V.content v.new ≡ V.content v.old }
        ensures kept { V.kept v.new ≡ V.kept v.old }
        ensures cause { FailsByView (V.faults v.old) (V.faults v.new) result }
    {
        for entry in entries {
            let side = self.entry(v, levels, vcn, entry, met)?;
            if is_behind(side) {
                return Ok(());
            }
        }
        Ok(())
    }
}

// The links of the name, or the first fault that the search meets.
fn find_from<V: View>(
    alloc: Global,
    v: &mut V,
    dir: &DirPlace,
    up: &Upcase,
    name: &Name,
) -> Result<LinkList, TreeFault>
    ensures value { IfSome (V.content v.old) (λ c. GivesOrFails (λ links. links) tree_cause result (find_of c (place_of dir.now) up.now name.now dir.now.root)) }
    ensures same { V.content v.new ≡ V.content v.old }
    ensures kept { V.kept v.new ≡ V.kept v.old }
    ensures cause { FailsByView (V.faults v.old) (V.faults v.new) result }
{
    let root = read_root(alloc, dir)?;
    let mut met = Met::new(alloc, dir);
    let name = name.units();
    let over = Finder {
        alloc,
        dir,
        up,
        name,
    };
    over.entries(v, LEVELS_BELOW, ROOT_VCN, root.as_slice(), &mut met)?;
    Ok(met.into_links())
}

/// The links of the keys of a directory's index whose name is the same as this one by the table of
/// upper-case units, in the order of names, where the view's content holds an index at that place.
/// It reads the nodes on the way to the name and those that hold such keys, each once, and takes
/// memory linear in their bytes; time is linear in these, with a search among the blocks that were
/// met, and among the runs of the place, for each block.
///
/// - [`TreeFault::Node`]: a node that it met, and the rule that this node breaks.
/// - [`TreeFault::View`]: the view failed and counts it, or there is no memory left.
pub fn find<V: View>(
    alloc: Global,
    v: &mut V,
    dir: &DirPlace,
    up: &Upcase,
    name: &Name,
) -> Result<LinkList, TreeFault>
    ensures value { IfSome (V.content v.old) (λ c. GivesOrFails (λ links. links) tree_cause result (find_of c (place_of dir.now) up.now name.now dir.now.root)) }
    ensures found { IfSome (V.content v.old) (λ c. FindGives c (place_of dir.now) up.now name.now dir.now.root result) }
    ensures same { V.content v.new ≡ V.content v.old }
    ensures kept { V.kept v.new ≡ V.kept v.old }
    ensures cause { FailsByView (V.faults v.old) (V.faults v.new) result }
{
    find_from(alloc, v, dir, up, name)
}
