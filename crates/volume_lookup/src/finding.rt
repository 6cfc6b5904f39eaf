//! The search for a name in a directory's index.
ghost use Rattle.std.specs.Prelude.{◌≡◌, Ok, IfSome};
ghost use Rattle.host_base.specs.Answers.{Gives, GivesOrFails};
ghost use Rattle.block_view.specs.Views.{AsksView};
ghost use Rattle.volume_tree.specs.index_model.Walks.{find_of};
ghost use Rattle.directory_index.specs.index_tree.Places.{place_of};
ghost use Rattle.volume_tree.specs.volume_map.Maps.{volume_in};
ghost use Rattle.tree_lookup.specs.Asked.{lookup_cause};
ghost use Rattle.volume_lookup.specs.Found.{or_none, index_at, link_found};
ghost use Rattle.volume_lookup.specs.Answers.{rooted_of, answer_of};

use crate::choosing::choose;
use block_view::{View, ViewFault};
use directory_index::{DirPlace, TreeFault, find, index_place};
use file_tree::{Link, LinkList};
use record_rules::file_at;
use std::alloc::Global;
use tree_lookup::LookupFault;
use utf16_name::Name;
use volume_tree::{Upcase, VolumeMap};

// Where the index of the directory with this number lies.
#[tactic(auto, unfolding(crate::specs::Found::index_at))]
fn index_at(alloc: Global, map: &VolumeMap, directory: u64) -> Result<DirPlace, LookupFault>
    ensures { Gives rooted_of lookup_cause result (index_at (volume_in map.now) directory) }
{
    let Some(file) = file_at(&map.files, directory) else {
        return Err(LookupFault::Broken);
    };
    match index_place(alloc, map.per_cluster, file)? {
        Some(dir) => Ok(dir),
        None => Err(LookupFault::Broken),
    }
}

// What a search of an index comes to.
fn answer_of(found: Result<LinkList, TreeFault>) -> Result<LinkList, LookupFault>
    ensures { result ≡ answer_of found }
{
    match found {
        Ok(links) => Ok(links),
        Err(TreeFault::Node { .. }) => Err(LookupFault::Broken),
        Err(TreeFault::Present) => Err(LookupFault::Broken),
        Err(TreeFault::Absent) => Err(LookupFault::Broken),
        Err(TreeFault::Deep { .. }) => Err(LookupFault::Broken),
        Err(TreeFault::View(ViewFault::Fault)) => Err(LookupFault::Outside),
        Err(TreeFault::View(ViewFault::Memory)) => Err(LookupFault::Memory),
    }
}

// The links of the index at this place that have the same name.
fn found<V: View>(
    alloc: Global,
    view: &mut V,
    up: &Upcase,
    dir: &DirPlace,
    part: &Name,
) -> Result<LinkList, LookupFault>
    ensures value { IfSome (V.content view.old) (λ c. GivesOrFails (λ links. links) lookup_cause result (or_none (find_of c (place_of dir.now) up.now part.now dir.now.root))) }
    ensures asks { AsksView V.content V.kept V.faults lookup_cause view.old view.new result }
{
    answer_of(find(alloc, view, dir, up, part))
}

/// The link that this part leads to in the index of the directory with this number. It reads the
/// nodes on the way to the name and those that hold the same name, each once.
#[tactic(auto, unfolding(crate::specs::Found::link_found))]
pub fn link_found<V: View>(
    alloc: Global,
    view: &mut V,
    map: &VolumeMap,
    up: &Upcase,
    directory: u64,
    part: &Name,
) -> Result<Option<Link>, LookupFault>
    ensures value { IfSome (V.content view.old) (λ c. GivesOrFails (λ link. link) lookup_cause result (link_found c (volume_in map.now) up.now directory part.now)) }
    ensures asks { AsksView V.content V.kept V.faults lookup_cause view.old view.new result }
{
    let dir = index_at(alloc, map, directory)?;
    let links = found(alloc, view, up, &dir, part)?;
    Ok(choose(links.as_slice(), part.units())?)
}
