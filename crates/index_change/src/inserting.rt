ghost use Rattle.std.specs.Prelude.{All, ◌≡◌, ◌<◌, ◌≤◌, ◌↔◌, IfErr, IfOk, IfSome, Ok, [], true, length, reverse};
ghost use Rattle.std.specs.Option.{ForSome};
ghost use Rattle.index_tree.specs.block_view.Changes.{Fits};
ghost use Rattle.record_model.specs.Nodes.{root_at};
ghost use Rattle.record_model.specs.Values.{is_file_name};
ghost use Rattle.index_tree.specs.index_model.Indexes.{node_of_block};
ghost use Rattle.index_tree.specs.index_model.Walks.{find_of, walk_of};
ghost use Rattle.index_plan.specs.Faults.{OnDeep};
ghost use Rattle.index_plan.specs.Laws.{InsertsInto, LevelFits, NeedsLevel, PlansAlong};
ghost use Rattle.index_plan.specs.Lists.{own_key};
ghost use Rattle.index_plan.specs.Reading.{nodes_of};
ghost use Rattle.index_change.specs.Changing.{AllWereOld};
ghost use Rattle.index_change.specs.Faults.{AfterFind, DeepAfterWalk, Planned};
ghost use Rattle.index_change.specs.Holding.{HoldsNodesOf};
ghost use Rattle.index_change.specs.Orders.{goes, names_file, link_of};
ghost use Rattle.index_tree.specs.Places.{place_of};
ghost use Rattle.index_change.specs.NodePlans.{PlansNew, PlansNodes, TakesFront};
ghost use Rattle.index_change.specs.Plans.{root_room, seventeen, InsertGives};
ghost use Rattle.std.specs.List.{list_any};

use crate::drafting::{MOST_LEVELS, draft_of, root_entries, root_room};
use crate::finishing::{drawn_nodes, lay_out};
use crate::gathering::gather;
use crate::height::height_of;
use crate::holding::{Held, HeldNodes, copy_of};
use crate::naming::Before;
use crate::nodes_plan::NodesPlan;
use crate::plan::DirPlan;
use index_plan::{Draft, PlanFault, Rooted};
use index_tree::{
    DirPlace, FileRef, Key, Link, TreeFault, Upcase, View, ViewFault, entry_link, find, read_root,
    walk,
};
use record_model::{Entry, EntryList};
use std::alloc::{AllocError, Global};

// Plans that put an entry into an index.

// The plan over the nodes that are held, and the root's entries.
fn plan_over<V: View>(
    alloc: Global,
    v: &V,
    dir: &DirPlace,
    held: &Held,
    before: &Before,
    root: EntryList,
    key: Key,
    draft: Draft,
    room: usize,
    height: u32,
) -> Result<Rooted, PlanFault>
    requires some { 0 < length root }
    requires unwritten { draft.writes ≡ [] }
    requires enough { 17 ≤ length draft.fresh }
    requires held { ForSome (V.content v.now) (λ c. HoldsNodesOf (node_of_block c (place_of dir.now)) held.now) }
    ensures planned { IfSome (V.content v.now) (λ c. IfOk result (InsertsInto (nodes_of (node_of_block c (place_of dir.now))) (goes before.now.up.now before.now.name.now) key draft.fresh root room)) }
    ensures level { IfSome (V.content v.now) (λ c. IfOk result (λ _. LevelFits (nodes_of (node_of_block c (place_of dir.now))) (goes before.now.up.now before.now.name.now) key draft.fresh root room height)) }
    ensures taken { IfSome (V.content v.now) (λ c. IfOk result (λ planned. length key.value ≤ 576 → PlansAlong (node_of_block c (place_of dir.now)) (goes before.now.up.now before.now.name.now) key draft root room planned)) }
    ensures deep { IfErr result (λ e. OnDeep e (λ h. (h ≡ height) × (16 ≤ height) × IfSome (V.content v.now) (λ c. NeedsLevel (nodes_of (node_of_block c (place_of dir.now))) (goes before.now.up.now before.now.name.now) key draft.fresh root room))) }
{
    let mut nodes = HeldNodes { v, dir, held };
    index_plan::plan_insert(&mut nodes, alloc, before, root, key, draft, room, height)
}

// A key as an entry has it.
fn key_of(entry: &Entry) -> Result<Key, AllocError>
    ensures { IfOk result (λ key. key ≡ own_key entry.now) }
{
    Ok(Key {
        child: entry.child,
        value: entry.key.clone()?,
    })
}

// What is put in, and where.
#[derive(Clone, Copy)]
struct Insertion<'a> {
    alloc: Global,
    dir: &'a DirPlace,
    up: &'a Upcase,
    key: &'a Entry,
    name: &'a [u16],
    fresh: &'a [u64],
    root: &'a EntryList,
}

impl<'a> Insertion<'a> {
    // The plan where the index has so many levels.
    fn plan<V: View>(&self, v: &V, held: &Held, height: u32) -> Result<Rooted, PlanFault>
        requires enough { 17 ≤ length self.now.fresh.now }
        requires held { ForSome (V.content v.now) (λ c. HoldsNodesOf (node_of_block c (place_of self.now.dir.now)) held.now) }
        ensures planned { IfSome (V.content v.now) (λ c. IfOk result (InsertsInto (nodes_of (node_of_block c (place_of self.now.dir.now))) (goes self.now.up.now self.now.name.now) (own_key self.now.key.now) (seventeen self.now.fresh.now) self.now.root.now (root_room self.now.dir.now.used self.now.dir.now.root))) }
        ensures level { IfSome (V.content v.now) (λ c. IfOk result (λ _. LevelFits (nodes_of (node_of_block c (place_of self.now.dir.now))) (goes self.now.up.now self.now.name.now) (own_key self.now.key.now) (seventeen self.now.fresh.now) self.now.root.now (root_room self.now.dir.now.used self.now.dir.now.root) height)) }
        ensures taken { IfSome (V.content v.now) (λ c. IfOk result (λ planned. length self.now.key.now.key ≤ 576 → PlansAlong (node_of_block c (place_of self.now.dir.now)) (goes self.now.up.now self.now.name.now) (own_key self.now.key.now) (record { writes = []; fresh = seventeen self.now.fresh.now }) self.now.root.now (root_room self.now.dir.now.used self.now.dir.now.root) planned)) }
        ensures deep { IfErr result (λ e. OnDeep e (λ h. (h ≡ height) × (16 ≤ height) × IfSome (V.content v.now) (λ c. NeedsLevel (nodes_of (node_of_block c (place_of self.now.dir.now))) (goes self.now.up.now self.now.name.now) (own_key self.now.key.now) (seventeen self.now.fresh.now) self.now.root.now (root_room self.now.dir.now.used self.now.dir.now.root)))) }
    {
        let root = copy_of(self.alloc, self.root)?;
        if root.len() == 0 {
            return Err(PlanFault::Memory);
        }
        let key = key_of(self.key)?;
        let draft = draft_of(self.alloc, self.fresh)?;
        let room = root_room(self.dir.used, self.dir.root.as_slice());
        let before = Before {
            up: self.up,
            name: self.name,
        };
        plan_over(
            self.alloc, v, self.dir, held, &before, root, key, draft, room, height,
        )
    }

    // The plan where the root has no room: the levels are counted, over an index that is walked
    // first.
    fn with_level<V: View>(&self, v: &mut V, held: &Held) -> Result<NodesPlan, TreeFault>
        requires enough { 17 ≤ length self.now.fresh.now }
        requires held { ForSome (V.content v.old) (λ c. HoldsNodesOf (node_of_block c (place_of self.now.dir.now)) held.now) }
        requires root { root_at self.now.dir.now.root ≡ Ok self.now.root.now }
        requires key { is_file_name self.now.key.now.key ≡ true }
        requires name { self.now.name.now ≡ (link_of (own_key self.now.key.now)).name }
        ensures value { IfSome (V.content v.old) (λ c. PlansNew c (place_of self.now.dir.now) self.now.up.now self.now.dir.now.root self.now.dir.now.used (own_key self.now.key.now) self.now.fresh.now result) }
        ensures walked { IfSome (V.content v.old) (λ c. DeepAfterWalk result (walk_of c (place_of self.now.dir.now) self.now.up.now self.now.dir.now.root)) }
        ensures front { IfOk result (TakesFront self.now.fresh.now) }
        ensures same { V.content v.new ≡ V.content v.old }
        ensures kept { V.kept v.new ≡ V.kept v.old }
        ensures cause { Planned (V.faults v.old) (V.faults v.new) result }
    {
        let _ = walk(self.alloc, v, self.dir, self.up)?;
        let height = height_of(self.alloc, v, self.dir, self.root.as_slice())?;
        match self.plan(v, held, height) {
            Ok(rooted) => Ok(drawn_nodes(self.alloc, self.fresh, rooted)?),
            Err(PlanFault::Deep { height }) => Err(TreeFault::Deep { height }),
            Err(PlanFault::Node { .. }) => Err(TreeFault::View(ViewFault::Memory)),
            Err(PlanFault::Absent) => Err(TreeFault::View(ViewFault::Memory)),
            Err(PlanFault::Failed) => Err(TreeFault::View(ViewFault::Memory)),
            Err(PlanFault::Memory) => Err(TreeFault::View(ViewFault::Memory)),
        }
    }

    // The plan of a key that isn't there.
    fn put_in<V: View>(&self, v: &mut V) -> Result<NodesPlan, TreeFault>
        requires enough { 17 ≤ length self.now.fresh.now }
        requires root { root_at self.now.dir.now.root ≡ Ok self.now.root.now }
        requires key { is_file_name self.now.key.now.key ≡ true }
        requires name { self.now.name.now ≡ (link_of (own_key self.now.key.now)).name }
        ensures value { IfSome (V.content v.old) (λ c. PlansNew c (place_of self.now.dir.now) self.now.up.now self.now.dir.now.root self.now.dir.now.used (own_key self.now.key.now) self.now.fresh.now result) }
        ensures walked { IfSome (V.content v.old) (λ c. DeepAfterWalk result (walk_of c (place_of self.now.dir.now) self.now.up.now self.now.dir.now.root)) }
        ensures front { IfOk result (TakesFront self.now.fresh.now) }
        ensures same { V.content v.new ≡ V.content v.old }
        ensures kept { V.kept v.new ≡ V.kept v.old }
        ensures cause { Planned (V.faults v.old) (V.faults v.new) result }
    {
        let held = gather(self.alloc, v, self.dir, self.up, self.name, self.root)?;
        match self.plan(v, &held, MOST_LEVELS) {
            Ok(rooted) => Ok(drawn_nodes(self.alloc, self.fresh, rooted)?),
            Err(PlanFault::Deep { .. }) => self.with_level(v, &held),
            Err(PlanFault::Node { .. }) => Err(TreeFault::View(ViewFault::Memory)),
            Err(PlanFault::Absent) => Err(TreeFault::View(ViewFault::Memory)),
            Err(PlanFault::Failed) => Err(TreeFault::View(ViewFault::Memory)),
            Err(PlanFault::Memory) => Err(TreeFault::View(ViewFault::Memory)),
        }
    }
}

// Whether some link names a file.
fn names_file(links: &[Link], file: FileRef) -> bool
    ensures { result ≡ list_any (names_file file) links.now }
{
    links.iter().any(|l| l.child.number == file.number && l.child.seq == file.seq)
}

/// The nodes of the plan that puts an entry into a directory's index, whose blocks are those of
/// `dir`: behind the entries whose names its name doesn't come before, by the table of upper-case
/// units. The key is a file-name value, and the entry's child isn't looked at. `fresh` has at least
/// seventeen VCNs that aren't in use, of which the first seventeen may be taken; there need be no
/// block for them yet. So the plan tells how many blocks it takes, and once the allocation has
/// these, [`lay_out`] makes the changes of it.
///
/// It reads the nodes on the way to the name and those that hold keys of the same name, each twice,
/// and takes time and memory linear in their bytes, beside a byte for each block of the place.
/// Where the root has no room, it reads all nodes, to count the levels.
///
/// - [`TreeFault::Present`]: an entry of the same name, by the table of upper-case units, and file
///   is there.
/// - [`TreeFault::Node`]: a node that it met, and the rule that this node breaks; where the search
///   for the name meets one, the first of these.
/// - [`TreeFault::Deep`]: the record that holds the root has no room, and the index has sixteen
///   levels.
/// - [`TreeFault::View`]: the view failed and counts it, or there is no memory left.
pub fn plan_nodes<V: View>(
    alloc: Global,
    v: &mut V,
    dir: &DirPlace,
    up: &Upcase,
    key: &Entry,
    fresh: &[u64],
) -> Result<NodesPlan, TreeFault>
    requires name { is_file_name key.now.key ≡ true }
    requires enough { 17 ≤ length fresh.now }
    ensures value { IfSome (V.content v.old) (λ c. PlansNodes c (place_of dir.now) up.now dir.now.root dir.now.used (own_key key.now) fresh.now result) }
    ensures search { IfSome (V.content v.old) (λ c. AfterFind result (find_of c (place_of dir.now) up.now (link_of (own_key key.now)).name dir.now.root)) }
    ensures walked { IfSome (V.content v.old) (λ c. DeepAfterWalk result (walk_of c (place_of dir.now) up.now dir.now.root)) }
    ensures front { IfOk result (TakesFront fresh.now) }
    ensures same { V.content v.new ≡ V.content v.old }
    ensures kept { V.kept v.new ≡ V.kept v.old }
    ensures cause { Planned (V.faults v.old) (V.faults v.new) result }
{
    let Some(link) = entry_link(alloc, key)? else {
        return Err(TreeFault::View(ViewFault::Memory));
    };
    let links = find(alloc, v, dir, up, &link.name)?;
    if names_file(links.as_slice(), key.child) {
        return Err(TreeFault::Present);
    }
    let root = root_entries(alloc, dir)?;
    let over = Insertion {
        alloc,
        dir,
        up,
        key,
        name: link.name.units(),
        fresh,
        root: &root,
    };
    over.put_in(v)
}

/// The plan that puts an entry into a directory's index, whose blocks are those of `dir`: behind
/// the entries whose names its name doesn't come before, by the table of upper-case units. The key
/// is a file-name value, and the entry's child isn't looked at. `fresh` has the VCNs of at least
/// seventeen blocks of `dir` that aren't in use, of which at most seventeen are taken. Nothing is
/// changed: the new root and the changes are answered, each of the whole body of a block, with the
/// VCNs that are taken.
///
/// It reads the nodes on the way to the name and those that hold keys of the same name, each twice,
/// and takes time and memory linear in their bytes, beside a byte for each block of the place.
/// Where the root has no room, it reads all nodes, to count the levels.
///
/// - [`TreeFault::Present`]: an entry of the same name, by the table of upper-case units, and file
///   is there.
/// - [`TreeFault::Node`]: a node that it met, and the rule that this node breaks; where the search
///   for the name meets one, the first of these.
/// - [`TreeFault::Deep`]: the record that holds the root has no room, and the index has sixteen
///   levels.
/// - [`TreeFault::View`]: the view failed and counts it, or there is no memory left. That there is
///   no memory is said too where the number of the entry's file is 2^48 or more: no node spells
///   such an entry.
pub fn plan_insert<V: View>(
    alloc: Global,
    v: &mut V,
    dir: &DirPlace,
    up: &Upcase,
    key: &Entry,
    fresh: &[u64],
) -> Result<DirPlan, TreeFault>
    requires name { is_file_name key.now.key ≡ true }
    requires enough { 17 ≤ length fresh.now }
    ensures value { IfSome (V.content v.old) (λ c. InsertGives c (place_of dir.now) up.now dir.now.root dir.now.used (own_key key.now) fresh.now result) }
    ensures search { IfSome (V.content v.old) (λ c. AfterFind result (find_of c (place_of dir.now) up.now (link_of (own_key key.now)).name dir.now.root)) }
    ensures walked { IfSome (V.content v.old) (λ c. DeepAfterWalk result (walk_of c (place_of dir.now) up.now dir.now.root)) }
    ensures old { IfSome (V.content v.old) (λ c. IfOk result (λ plan. AllWereOld c plan.changes.items)) }
    ensures fits { IfOk result (λ plan. All Fits plan.changes.items) }
    ensures same { V.content v.new ≡ V.content v.old }
    ensures kept { V.kept v.new ≡ V.kept v.old }
    ensures cause { Planned (V.faults v.old) (V.faults v.new) result }
{
    let nodes = plan_nodes(alloc, v, dir, up, key, fresh)?;
    Ok(lay_out(alloc, v, dir, nodes)?)
}
