//! The nodes of a directory's index with the name of a new file.
ghost use Rattle.std.specs.Prelude.{◌≡◌, ◌<◌, ◌≤◌, ◌^◌, true, IfErr, IfOk, IfSome, Ok, length};
ghost use Rattle.block_view.specs.Views.{AsksView};
ghost use Rattle.utf16_name.specs.Lawful.{IsName};
ghost use Rattle.record_model.specs.Values.{is_file_name};
ghost use Rattle.index_plan.specs.Lists.{own_key};
ghost use Rattle.index_tree.specs.Places.{place_of};
ghost use Rattle.index_change.specs.NodePlans.{PlansNodes, TakesFront};
ghost use Rattle.plan_draft.specs.Drafts.{drafted};
ghost use Rattle.new_files.specs.NewFiles.{new_key};
ghost use Rattle.made_trees.specs.made_files.Made.{made_key};
ghost use Rattle.place_makes.specs.Faults.{place_cause, OnFull};

use crate::fault::PlaceFault;
use block_view::{View, ViewFault};
use file_makes::{DirPlace, NewFile, NodesPlan, new_file_reads};
use host_base::FileRef;
use index_change::{TreeFault, plan_nodes};
use index_model::Key;
use new_files::new_key;
use plan_draft::Draft;
use record_model::Entry;
use std::alloc::{AllocError, Global};
use upcase_order::Upcase;
use utf16_name::Name;

// A name keeps the rules of names.
fn names_are_lawful(name: &Name)
    ensures { IsName name.now }
{
    name.units();
}

// The key of a new file, which is a lawful one.
fn key_of(
    alloc: Global,
    file: FileRef,
    parent: FileRef,
    name: &Name,
    stamp: u64,
) -> Result<Key, AllocError>
    requires number { file.number < 2 ^ 32 }
    requires directory { parent.number < 2 ^ 48 }
    ensures value { IfOk result (λ key. key ≡ new_key file parent name.now stamp) }
    ensures lawful { IfOk result (λ key. is_file_name key.value ≡ true) }
{
    names_are_lawful(name);
    new_file_reads();
    new_key(alloc, file, parent, name, stamp)
}

// The entry of the new file in the index of its directory.
fn entry_of(alloc: Global, made: &NewFile) -> Result<Entry, AllocError>
    requires number { made.now.file.number < 2 ^ 32 }
    requires directory { made.now.parent.number < 2 ^ 48 }
    ensures key { IfOk result (λ entry. own_key entry ≡ made_key made.now) }
    ensures lawful { IfOk result (λ entry. is_file_name entry.key ≡ true) }
{
    let key = key_of(alloc, made.file, made.parent, &made.name, made.stamp)?;
    Ok(Entry {
        child: key.child,
        key: key.value,
        down: None,
    })
}

/// The nodes of the index that lies there with the entry of the new file; the VCNs may be taken.
///
/// - [`PlaceFault::Unplanned`]: what was read is part of no state.
/// - [`PlaceFault::Fault`]: the view failed, and counts it.
/// - [`PlaceFault::Memory`]: want of memory.
pub fn planned<V: View>(
    draft: &mut Draft<'_, V>,
    alloc: Global,
    up: &Upcase,
    dir: &DirPlace,
    made: &NewFile,
    fresh: &[u64],
) -> Result<NodesPlan, PlaceFault>
    requires number { made.now.file.number < 2 ^ 32 }
    requires directory { made.now.parent.number < 2 ^ 48 }
    requires enough { 17 ≤ length fresh.now }
    ensures planned { IfSome (V.content draft.old.view.now) (λ c. IfOk result (λ nodes. PlansNodes (drafted draft.old.touched.items c) (place_of dir.now) up.now dir.now.root dir.now.used (made_key made.now) fresh.now (Ok nodes))) }
    ensures front { IfOk result (TakesFront fresh.now) }
    ensures full { IfErr result (OnFull (λ used. ⊥)) }
    ensures touched { draft.new.touched.items ≡ draft.old.touched.items }
    ensures asks { AsksView V.content V.kept V.faults place_cause draft.old.view.now draft.new.view.now result }
    ensures reference { draft.new.view.ghost_name ≡ draft.old.view.ghost_name }
{
    let entry = entry_of(alloc, made)?;
    match plan_nodes(alloc, draft, dir, up, &entry, fresh) {
        Ok(nodes) => Ok(nodes),
        Err(TreeFault::View(ViewFault::Fault)) => Err(PlaceFault::Fault),
        Err(TreeFault::View(ViewFault::Memory)) => Err(PlaceFault::Memory),
        Err(TreeFault::Node { .. }) => Err(PlaceFault::Unplanned),
        Err(TreeFault::Present) => Err(PlaceFault::Unplanned),
        Err(TreeFault::Absent) => Err(PlaceFault::Unplanned),
        Err(TreeFault::Deep { .. }) => Err(PlaceFault::Unplanned),
    }
}
