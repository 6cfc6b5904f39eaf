ghost use Rattle.std.specs.Prelude.{All, ◌≡◌, ◌≤◌, ◌∷◌, IfErr, IfOk, IfSome, Ok, None, [], true, length};
ghost use Rattle.std.specs.Option.{ForSome};
ghost use Rattle.index_tree.specs.block_view.Changes.{Fits};
ghost use Rattle.record_model.specs.Nodes.{root_at, last_entry};
ghost use Rattle.record_model.specs.Values.{is_file_name};
ghost use Rattle.index_tree.specs.index_model.Indexes.{node_of_block};
ghost use Rattle.index_tree.specs.index_model.Walks.{find_of, walk_of};
ghost use Rattle.index_plan.specs.Faults.{OnDeep};
ghost use Rattle.index_plan.specs.Laws.{NeedsLevelWithout, RemovesFrom, TakesFewOut};
ghost use Rattle.index_plan.specs.Lists.{own_key};
ghost use Rattle.index_plan.specs.Reading.{nodes_of};
ghost use Rattle.index_tree.specs.Faults.{FailsByView};
ghost use Rattle.index_tree.specs.Places.{place_of};
ghost use Rattle.index_change.specs.Amounts.{keys_of};
ghost use Rattle.index_change.specs.Changing.{AllWereOld};
ghost use Rattle.index_change.specs.Faults.{AfterFind, DeepAfterWalk, IsOfView, Planned};
ghost use Rattle.index_change.specs.Holding.{HoldsNodesOf};
ghost use Rattle.index_change.specs.Orders.{has_link, link_of, stands};
ghost use Rattle.index_change.specs.Plans.{clusters_of, root_room, seventeen, IsMade};
ghost use Rattle.index_change.specs.Removals.{IsEmptied, RemoveGives, TakesLink};

use crate::drafting::{MOST_LEVELS, draft_of, root_entries, root_room};
use crate::few::few_of;
use crate::finishing::{finish, root_value};
use crate::gathering::gather;
use crate::height::height_of;
use crate::holding::{Held, HeldNodes, copy_of};
use crate::naming::Wanted;
use crate::plan::DirPlan;
use index_plan::{Draft, Numbers, PlanFault, Rooted};
use index_tree::{
    DirPlace, Link, TreeFault, Upcase, View, ViewFault, entry_link, find, is_same_link, walk,
};
use record_model::{Entry, EntryList, last_entry};
use std::alloc::{AllocError, Global};

// Plans that take an entry out of an index.

// The plan over the nodes that are held, and the root's entries; with the blocks that are gone.
fn removal_over<V: View>(
    alloc: Global,
    v: &V,
    dir: &DirPlace,
    held: &Held,
    wanted: &Wanted,
    root: EntryList,
    draft: Draft,
    room: usize,
    height: u32,
) -> Result<(Rooted, Numbers), PlanFault>
    requires unwritten { draft.writes ≡ [] }
    requires enough { 17 ≤ length draft.fresh }
    requires held { ForSome (V.content v.now) (λ c. HoldsNodesOf (node_of_block c (place_of dir.now)) held.now) }
    ensures planned { IfSome (V.content v.now) (λ c. IfOk result (λ p. RemovesFrom (nodes_of (node_of_block c (place_of dir.now))) (stands wanted.now.up.now wanted.now.link.now) draft.fresh root room height p.0 p.1)) }
    ensures taken { IfSome (V.content v.now) (λ c. IfOk result (λ p. TakesFewOut (node_of_block c (place_of dir.now)) (stands wanted.now.up.now wanted.now.link.now) draft root room p.0)) }
    ensures deep { IfErr result (λ e. OnDeep e (λ h. (h ≡ height) × (16 ≤ height) × IfSome (V.content v.now) (λ c. NeedsLevelWithout (nodes_of (node_of_block c (place_of dir.now))) (stands wanted.now.up.now wanted.now.link.now) draft.fresh root room))) }
{
    let mut nodes = HeldNodes { v, dir, held };
    index_plan::plan_remove(&mut nodes, alloc, wanted, root, draft, room, height)
}

// The root without entries.
fn bare_root(alloc: Global) -> Result<EntryList, AllocError>
    ensures { IfOk result (λ root. root ≡ last_entry None ∷ []) }
{
    let mut root = EntryList::new(alloc);
    root.push(last_entry(alloc, None))?;
    Ok(root)
}

// The plan of an index that has no entry more: these blocks are no longer in use.
fn emptied(alloc: Global, dir: &DirPlace, blocks: Vec<u64>) -> Result<DirPlan, AllocError>
    ensures { IfOk result (IsEmptied (clusters_of dir.now.root) blocks.items) }
{
    Ok(DirPlan {
        root: root_value(alloc, dir, bare_root(alloc)?)?,
        changes: Vec::new(alloc),
        taken: Vec::new(alloc),
        freed: blocks,
    })
}

// What is taken out.
#[derive(Clone, Copy)]
struct Removal<'a> {
    alloc: Global,
    dir: &'a DirPlace,
    up: &'a Upcase,
    link: &'a Link,
    fresh: &'a [u64],
    root: &'a EntryList,
}

impl<'a> Removal<'a> {
    // The plan where the index has so many levels.
    fn plan<V: View>(&self, v: &V, held: &Held, height: u32) -> Result<(Rooted, Numbers), PlanFault>
        requires enough { 17 ≤ length self.now.fresh.now }
        requires held { ForSome (V.content v.now) (λ c. HoldsNodesOf (node_of_block c (place_of self.now.dir.now)) held.now) }
        ensures planned { IfSome (V.content v.now) (λ c. IfOk result (λ p. RemovesFrom (nodes_of (node_of_block c (place_of self.now.dir.now))) (stands self.now.up.now self.now.link.now) (seventeen self.now.fresh.now) self.now.root.now (root_room self.now.dir.now.used self.now.dir.now.root) height p.0 p.1)) }
        ensures taken { IfSome (V.content v.now) (λ c. IfOk result (λ p. TakesFewOut (node_of_block c (place_of self.now.dir.now)) (stands self.now.up.now self.now.link.now) (record { writes = []; fresh = seventeen self.now.fresh.now }) self.now.root.now (root_room self.now.dir.now.used self.now.dir.now.root) p.0)) }
        ensures deep { IfErr result (λ e. OnDeep e (λ h. (h ≡ height) × (16 ≤ height) × IfSome (V.content v.now) (λ c. NeedsLevelWithout (nodes_of (node_of_block c (place_of self.now.dir.now))) (stands self.now.up.now self.now.link.now) (seventeen self.now.fresh.now) self.now.root.now (root_room self.now.dir.now.used self.now.dir.now.root)))) }
    {
        let root = copy_of(self.alloc, self.root)?;
        let draft = draft_of(self.alloc, self.fresh)?;
        let room = root_room(self.dir.used, self.dir.root.as_slice());
        let wanted = Wanted {
            up: self.up,
            link: self.link,
        };
        removal_over(
            self.alloc, v, self.dir, held, &wanted, root, draft, room, height,
        )
    }

    // The plan of a directory.
    fn finish<V: View>(
        &self,
        v: &mut V,
        rooted: Rooted,
        gone: Vec<u64>,
    ) -> Result<DirPlan, TreeFault>
        requires enough { 17 ≤ length self.now.fresh.now }
        ensures made { IfOk result (IsMade (place_of self.now.dir.now) (clusters_of self.now.dir.now.root) (seventeen self.now.fresh.now) gone.items rooted) }
        ensures old { IfSome (V.content v.old) (λ c. IfOk result (λ plan. AllWereOld c plan.changes.items)) }
        ensures fits { IfOk result (λ plan. All Fits plan.changes.items) }
        ensures only { IfErr result IsOfView }
        ensures same { V.content v.new ≡ V.content v.old }
        ensures kept { V.kept v.new ≡ V.kept v.old }
        ensures cause { FailsByView (V.faults v.old) (V.faults v.new) result }
    {
        Ok(finish(self.alloc, v, self.dir, self.fresh, rooted, gone)?)
    }

    // The plan where the root has no room: the levels are counted, over an index that is walked
    // first.
    fn with_level<V: View>(&self, v: &mut V, held: &Held) -> Result<DirPlan, TreeFault>
        requires enough { 17 ≤ length self.now.fresh.now }
        requires held { ForSome (V.content v.old) (λ c. HoldsNodesOf (node_of_block c (place_of self.now.dir.now)) held.now) }
        requires root { root_at self.now.dir.now.root ≡ Ok self.now.root.now }
        requires keys { ForSome (V.content v.old) (λ c. 2 ≤ keys_of (node_of_block c (place_of self.now.dir.now)) self.now.root.now) }
        ensures value { IfSome (V.content v.old) (λ c. TakesLink c (place_of self.now.dir.now) self.now.up.now self.now.dir.now.root self.now.dir.now.used self.now.link.now self.now.fresh.now result) }
        ensures walked { IfSome (V.content v.old) (λ c. DeepAfterWalk result (walk_of c (place_of self.now.dir.now) self.now.up.now self.now.dir.now.root)) }
        ensures old { IfSome (V.content v.old) (λ c. IfOk result (λ plan. AllWereOld c plan.changes.items)) }
        ensures fits { IfOk result (λ plan. All Fits plan.changes.items) }
        ensures same { V.content v.new ≡ V.content v.old }
        ensures kept { V.kept v.new ≡ V.kept v.old }
        ensures cause { Planned (V.faults v.old) (V.faults v.new) result }
    {
        let _ = walk(self.alloc, v, self.dir, self.up)?;
        let height = height_of(self.alloc, v, self.dir, self.root.as_slice())?;
        match self.plan(v, held, height) {
            Ok((rooted, gone)) => self.finish(v, rooted, gone.into_vec()),
            Err(PlanFault::Deep { height }) => Err(TreeFault::Deep { height }),
            Err(PlanFault::Node { .. }) => Err(TreeFault::View(ViewFault::Memory)),
            Err(PlanFault::Absent) => Err(TreeFault::View(ViewFault::Memory)),
            Err(PlanFault::Failed) => Err(TreeFault::View(ViewFault::Memory)),
            Err(PlanFault::Memory) => Err(TreeFault::View(ViewFault::Memory)),
        }
    }

    // The plan of a link that is there beside another one.
    fn take_out<V: View>(&self, v: &mut V) -> Result<DirPlan, TreeFault>
        requires enough { 17 ≤ length self.now.fresh.now }
        requires root { root_at self.now.dir.now.root ≡ Ok self.now.root.now }
        requires keys { ForSome (V.content v.old) (λ c. 2 ≤ keys_of (node_of_block c (place_of self.now.dir.now)) self.now.root.now) }
        ensures value { IfSome (V.content v.old) (λ c. TakesLink c (place_of self.now.dir.now) self.now.up.now self.now.dir.now.root self.now.dir.now.used self.now.link.now self.now.fresh.now result) }
        ensures walked { IfSome (V.content v.old) (λ c. DeepAfterWalk result (walk_of c (place_of self.now.dir.now) self.now.up.now self.now.dir.now.root)) }
        ensures old { IfSome (V.content v.old) (λ c. IfOk result (λ plan. AllWereOld c plan.changes.items)) }
        ensures fits { IfOk result (λ plan. All Fits plan.changes.items) }
        ensures same { V.content v.new ≡ V.content v.old }
        ensures kept { V.kept v.new ≡ V.kept v.old }
        ensures cause { Planned (V.faults v.old) (V.faults v.new) result }
    {
        let name = self.link.name.units();
        let held = gather(self.alloc, v, self.dir, self.up, name, self.root)?;
        match self.plan(v, &held, MOST_LEVELS) {
            Ok((rooted, gone)) => self.finish(v, rooted, gone.into_vec()),
            Err(PlanFault::Deep { .. }) => self.with_level(v, &held),
            Err(PlanFault::Node { .. }) => Err(TreeFault::View(ViewFault::Memory)),
            Err(PlanFault::Absent) => Err(TreeFault::View(ViewFault::Memory)),
            Err(PlanFault::Failed) => Err(TreeFault::View(ViewFault::Memory)),
            Err(PlanFault::Memory) => Err(TreeFault::View(ViewFault::Memory)),
        }
    }

    // The plan of a link that is there.
    fn take_away<V: View>(&self, v: &mut V) -> Result<DirPlan, TreeFault>
        requires enough { 17 ≤ length self.now.fresh.now }
        requires root { root_at self.now.dir.now.root ≡ Ok self.now.root.now }
        ensures value { IfSome (V.content v.old) (λ c. TakesLink c (place_of self.now.dir.now) self.now.up.now self.now.dir.now.root self.now.dir.now.used self.now.link.now self.now.fresh.now result) }
        ensures walked { IfSome (V.content v.old) (λ c. DeepAfterWalk result (walk_of c (place_of self.now.dir.now) self.now.up.now self.now.dir.now.root)) }
        ensures old { IfSome (V.content v.old) (λ c. IfOk result (λ plan. AllWereOld c plan.changes.items)) }
        ensures fits { IfOk result (λ plan. All Fits plan.changes.items) }
        ensures same { V.content v.new ≡ V.content v.old }
        ensures kept { V.kept v.new ≡ V.kept v.old }
        ensures cause { Planned (V.faults v.old) (V.faults v.new) result }
    {
        let mut blocks = Vec::new(self.alloc);
        let root = self.root.as_slice();
        let keys = few_of(self.alloc, v, self.dir, root, &mut blocks)?;
        if keys < 2 {
            return Ok(emptied(self.alloc, self.dir, blocks)?);
        }
        self.take_out(v)
    }
}

// Whether some link is this one.
fn has_link(links: &[Link], link: &Link) -> bool
    ensures { result ≡ has_link link.now links.now }
{
    links.iter().any(|l| is_same_link(link, l))
}

/// The plan that takes an entry out of a directory's index, whose blocks are those of `dir`: one
/// with the file, the directory, the namespace and the units of the key, which is a file-name
/// value; the entry's child isn't looked at. `fresh` has the VCNs of at least seventeen blocks of
/// `dir` that aren't in use, of which at most seventeen are taken. Nothing is changed: the new root
/// and the changes are answered, each of the whole body of a block, with the VCNs that are taken
/// and freed. An index that has no entry then is a root alone, and all its blocks are freed.
///
/// It reads the nodes on the way to the name and those that hold keys of the same name, each twice,
/// and those on two more ways down; it takes time and memory linear in their bytes, beside a byte
/// for each block of the place. Where the root has no room, it reads all nodes, to count the
/// levels.
///
/// - [`TreeFault::Absent`]: no entry is that one.
/// - [`TreeFault::Node`]: a node that it met, and the rule that this node breaks; where the search
///   for the name meets one, the first of these.
/// - [`TreeFault::Deep`]: the record that holds the root has no room for a longer key or for a node
///   more, and the index has sixteen levels.
/// - [`TreeFault::View`]: the view failed and counts it, or there is no memory left.
pub fn plan_remove<V: View>(
    alloc: Global,
    v: &mut V,
    dir: &DirPlace,
    up: &Upcase,
    key: &Entry,
    fresh: &[u64],
) -> Result<DirPlan, TreeFault>
    requires name { is_file_name key.now.key ≡ true }
    requires enough { 17 ≤ length fresh.now }
    ensures value { IfSome (V.content v.old) (λ c. RemoveGives c (place_of dir.now) up.now dir.now.root dir.now.used (link_of (own_key key.now)) fresh.now result) }
    ensures search { IfSome (V.content v.old) (λ c. AfterFind result (find_of c (place_of dir.now) up.now (link_of (own_key key.now)).name dir.now.root)) }
    ensures walked { IfSome (V.content v.old) (λ c. DeepAfterWalk result (walk_of c (place_of dir.now) up.now dir.now.root)) }
    ensures old { IfSome (V.content v.old) (λ c. IfOk result (λ plan. AllWereOld c plan.changes.items)) }
    ensures fits { IfOk result (λ plan. All Fits plan.changes.items) }
    ensures same { V.content v.new ≡ V.content v.old }
    ensures kept { V.kept v.new ≡ V.kept v.old }
    ensures cause { Planned (V.faults v.old) (V.faults v.new) result }
{
    let Some(link) = entry_link(alloc, key)? else {
        return Err(TreeFault::View(ViewFault::Memory));
    };
    let links = find(alloc, v, dir, up, &link.name)?;
    if !has_link(links.as_slice(), &link) {
        return Err(TreeFault::Absent);
    }
    let root = root_entries(alloc, dir)?;
    let over = Removal {
        alloc,
        dir,
        up,
        link: &link,
        fresh,
        root: &root,
    };
    over.take_away(v)
}
