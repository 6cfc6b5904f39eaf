//! The long names of a directory's index.
ghost use Rattle.std.specs.Prelude.{◌≡◌, IfOk, IfSome};
ghost use Rattle.host_base.specs.Answers.{GivesOrFails};
ghost use Rattle.block_view.specs.Views.{AsksView};
ghost use Rattle.volume_tree.specs.volume_map.Maps.{volume_in};
ghost use Rattle.lookup_laws.specs.Names.{long_units};
ghost use Rattle.tree_lookup.specs.Asked.{lookup_cause};
ghost use Rattle.volume_lookup.specs.Found.{links_held, names_held};
ghost use Rattle.volume_lookup.specs.Answers.{walk_answer};

use block_view::View;
use directory_index::{IndexFault, index_links};
use file_tree::{Link, LinkList, SHORT};
use record_rules::file_at;
use std::alloc::{AllocError, Global};
use tree_lookup::{LookupFault, NameList};
use volume_tree::{Upcase, VolumeMap};

// What a walk over an index comes to.
fn walk_answer(walked: Result<Option<LinkList>, IndexFault>) -> Result<LinkList, LookupFault>
    ensures { result ≡ walk_answer walked }
{
    match walked {
        Ok(Some(links)) => Ok(links),
        Ok(None) => Err(LookupFault::Broken),
        Err(IndexFault::View) => Err(LookupFault::Outside),
        Err(IndexFault::Memory) => Err(LookupFault::Memory),
    }
}

// The links of the index of the directory with this number.
#[tactic(auto, unfolding(crate::specs::Found::links_held))]
fn links_held<V: View>(
    alloc: Global,
    view: &mut V,
    map: &VolumeMap,
    up: &Upcase,
    directory: u64,
) -> Result<LinkList, LookupFault>
    ensures value { IfSome (V.content view.old) (λ c. GivesOrFails (λ links. links) lookup_cause result (links_held c (volume_in map.now) up.now directory)) }
    ensures asks { AsksView V.content V.kept V.faults lookup_cause view.old view.new result }
{
    let Some(file) = file_at(&map.files, directory) else {
        return Err(LookupFault::Broken);
    };
    walk_answer(index_links(alloc, view, map.per_cluster, up, file))
}

// The names of these links but the short ones.
fn long_units(alloc: Global, links: &[Link]) -> Result<NameList, AllocError>
    ensures { IfOk result (λ names. names ≡ long_units links.now) }
{
    let mut names = NameList::new(alloc);
    for link in links {
        if link.space != SHORT {
            names.push(link.name.clone()?)?;
        }
    }
    Ok(names)
}

/// The long names of the index of the directory with this number, in its order. It reads each block
/// of the index once.
#[tactic(auto, unfolding(crate::specs::Found::names_held))]
pub fn names_held<V: View>(
    alloc: Global,
    view: &mut V,
    map: &VolumeMap,
    up: &Upcase,
    directory: u64,
) -> Result<NameList, LookupFault>
    ensures value { IfSome (V.content view.old) (λ c. GivesOrFails (λ names. names) lookup_cause result (names_held c (volume_in map.now) up.now directory)) }
    ensures asks { AsksView V.content V.kept V.faults lookup_cause view.old view.new result }
{
    let links = links_held(alloc, view, map, up, directory)?;
    Ok(long_units(alloc, links.as_slice())?)
}
