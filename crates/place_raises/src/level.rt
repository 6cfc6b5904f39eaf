//! A level more below the root of an index, as it is written.
ghost use Rattle.std.specs.Prelude.{◌≡◌, [], ◌∷◌, Ok, Some, IfErr, IfOk, IfSome, length};
ghost use Rattle.block_view.specs.Views.{AsksView};
ghost use Rattle.record_model.specs.Nodes.{last_entry, node_spelling, root_at};
ghost use Rattle.index_model.specs.Indexes.{node_of_block};
ghost use Rattle.index_node.specs.Roots.{root_spelling, new_node, HaveSpelling};
ghost use Rattle.index_tree.specs.Places.{place_of};
ghost use Rattle.index_change.specs.Heights.{height_of};
ghost use Rattle.index_change.specs.Plans.{clusters_of};
ghost use Rattle.volume_model.specs.Indexes.{index_place, root_value};
ghost use Rattle.plan_draft.specs.Drafts.{drafted};
ghost use Rattle.place_raises.specs.Faults.{raise_cause, OnDeep, OnFull};
ghost use Rattle.place_raises.specs.Raising.{IsLevel, IsDeep, level_vcn};

use crate::fault::RaiseFault;
use crate::height::height_of;
use block_view::{View, ViewFault};
use file_makes::FileRec;
use host_base::Bytes;
use index_edits::levels_are_read;
use index_node::{FixedValue, Node, have_spelling, write_root};
use index_tree::{DirPlace, TreeFault, read_root};
use plan_draft::Draft;
use record_model::{Entry, EntryList, last_entry};
use std::alloc::{AllocError, Global};

// The bytes of an index block.
const BLOCK_BYTES: usize = 4096;

// The most levels of an index.
const MOST_LEVELS: u32 = 16;

/// A level more of an index: the value of its new root, and the body of the node below it.
#[derive(Drop)]
pub struct Level {
    pub root: Bytes,
    pub node: Bytes,
}

// The clusters of an index block, as the value of a root says.
#[tactic(auto, unfolding(index_change::specs::Plans::clusters_of))]
fn clusters_of(root: &[u8]) -> u8
    ensures { result ≡ clusters_of root.now }
{
    match root.get(0x0c) {
        Some(clusters) => *clusters,
        None => 0,
    }
}

// The value of a root with one entry alone, which has this child.
fn top_root(alloc: Global, value: &[u8], child: u64) -> Result<Bytes, AllocError>
    ensures value { IfOk result (λ root. root ≡ root_spelling (clusters_of value.now) (last_entry (Some child) ∷ [])) }
    ensures size { IfOk result (λ root. length root ≡ 56) }
{
    levels_are_read();
    let mut top = EntryList::new(alloc);
    top.push(last_entry(alloc, Some(child)))?;
    write_root(alloc, clusters_of(value), top)
}

// The bytes of a node in a block.
#[tactic(auto, using(index_node::proofs::RootSpelled::each_block))]
fn node_bytes(alloc: Global, vcn: u64, entries: EntryList) -> Result<Bytes, AllocError>
    requires { HaveSpelling entries }
    ensures spelled { IfOk result (λ bytes. bytes ≡ node_spelling (new_node vcn entries)) }
    ensures size { IfOk result (λ bytes. length bytes ≡ 4096) }
{
    levels_are_read();
    let mut bytes = vec![in alloc; 0u8; BLOCK_BYTES]?;
    Node::new(vcn, entries).write(&mut bytes);
    Ok(Bytes::from(bytes))
}

// The levels of the index that lies there.
fn levels_there<V: View>(
    draft: &mut Draft<'_, V>,
    alloc: Global,
    dir: &DirPlace,
    root: &[Entry],
) -> Result<u32, RaiseFault>
    ensures value { IfSome (V.content draft.old.view.now) (λ c. IfOk result (λ h. h ≡ height_of (node_of_block (drafted draft.old.touched.items c) (place_of dir.now)) root.now)) }
    ensures full { IfErr result (OnFull (λ used. ⊥)) }
    ensures deep { IfErr result (OnDeep (λ height. ⊥)) }
    ensures touched { draft.new.touched.items ≡ draft.old.touched.items }
    ensures asks { AsksView V.content V.kept V.faults raise_cause draft.old.view.now draft.new.view.now result }
    ensures reference { draft.new.view.ghost_name ≡ draft.old.view.ghost_name }
{
    match height_of(alloc, draft, dir, root) {
        Ok(height) => Ok(height),
        Err(ViewFault::Fault) => Err(RaiseFault::Fault),
        Err(ViewFault::Memory) => Err(RaiseFault::Memory),
    }
}

// A level more below the root with these entries.
fn level_below(
    alloc: Global,
    dir: &DirPlace,
    entries: EntryList,
    first: u64,
) -> Result<Level, AllocError>
    requires { HaveSpelling entries }
    ensures root { IfOk result (λ level. level.root ≡ root_spelling (clusters_of dir.now.root) (last_entry (Some first) ∷ [])) }
    ensures small { IfOk result (λ level. length level.root ≡ 56) }
    ensures node { IfOk result (λ level. level.node ≡ node_spelling (new_node first entries)) }
    ensures long { IfOk result (λ level. length level.node ≡ 4096) }
{
    let root = top_root(alloc, dir.root.as_slice(), first)?;
    let node = node_bytes(alloc, first, entries)?;
    Ok(Level { root, node })
}

// A level more of the index that lies there, below the root with these entries.
fn level_with<V: View>(
    draft: &mut Draft<'_, V>,
    alloc: Global,
    file: &FileRec,
    dir: &DirPlace,
    entries: EntryList,
    first: u64,
) -> Result<Level, RaiseFault>
    requires place { place_of dir.now ≡ index_place 8 file.now }
    requires root { root_value file.now ≡ Some dir.now.root }
    requires entries { root_at dir.now.root ≡ Ok entries }
    requires first { first ≡ level_vcn file.now }
    ensures level { IfOk result (λ level. IfSome (V.content draft.old.view.now) (λ c. IsLevel (drafted draft.old.touched.items c) file.now dir.now.root level.root level.node)) }
    ensures small { IfOk result (λ level. length level.root ≡ 56) }
    ensures long { IfOk result (λ level. length level.node ≡ 4096) }
    ensures full { IfErr result (OnFull (λ used. ⊥)) }
    ensures deep { IfErr result (OnDeep (λ height. IfSome (V.content draft.old.view.now) (λ c. IsDeep c file.now draft.old.touched.items height))) }
    ensures touched { draft.new.touched.items ≡ draft.old.touched.items }
    ensures asks { AsksView V.content V.kept V.faults raise_cause draft.old.view.now draft.new.view.now result }
    ensures reference { draft.new.view.ghost_name ≡ draft.old.view.ghost_name }
{
    levels_are_read();
    if !have_spelling(&entries) {
        return Err(RaiseFault::Unplanned);
    }
    let height = levels_there(draft, alloc, dir, entries.as_slice())?;
    if MOST_LEVELS <= height {
        return Err(RaiseFault::Deep { height });
    }
    let level = level_below(alloc, dir, entries, first)?;
    Ok(level)
}

/// A level more of the index of a directory with this record, whose node gets the first VCN behind
/// its blocks. It reads each node, and takes time linear in their bytes.
///
/// - [`RaiseFault::Deep`]: the index has so many levels, sixteen.
/// - [`RaiseFault::Unplanned`]: the root's entries have no room in a block, or break a rule.
/// - [`RaiseFault::Fault`]: the view failed, and counts it.
/// - [`RaiseFault::Memory`]: want of memory.
pub fn level_of<V: View>(
    draft: &mut Draft<'_, V>,
    alloc: Global,
    file: &FileRec,
    dir: &DirPlace,
    first: u64,
) -> Result<Level, RaiseFault>
    requires place { place_of dir.now ≡ index_place 8 file.now }
    requires root { root_value file.now ≡ Some dir.now.root }
    requires first { first ≡ level_vcn file.now }
    ensures level { IfOk result (λ level. IfSome (V.content draft.old.view.now) (λ c. IsLevel (drafted draft.old.touched.items c) file.now dir.now.root level.root level.node)) }
    ensures small { IfOk result (λ level. length level.root ≡ 56) }
    ensures long { IfOk result (λ level. length level.node ≡ 4096) }
    ensures full { IfErr result (OnFull (λ used. ⊥)) }
    ensures deep { IfErr result (OnDeep (λ height. IfSome (V.content draft.old.view.now) (λ c. IsDeep c file.now draft.old.touched.items height))) }
    ensures touched { draft.new.touched.items ≡ draft.old.touched.items }
    ensures asks { AsksView V.content V.kept V.faults raise_cause draft.old.view.now draft.new.view.now result }
    ensures reference { draft.new.view.ghost_name ≡ draft.old.view.ghost_name }
{
    match read_root(alloc, dir) {
        Ok(entries) => level_with(draft, alloc, file, dir, entries, first),
        Err(TreeFault::Node { .. }) => Err(RaiseFault::Unplanned),
        Err(TreeFault::Present) => Err(RaiseFault::Unplanned),
        Err(TreeFault::Absent) => Err(RaiseFault::Unplanned),
        Err(TreeFault::Deep { .. }) => Err(RaiseFault::Unplanned),
        Err(TreeFault::View(_)) => Err(RaiseFault::Memory),
    }
}
