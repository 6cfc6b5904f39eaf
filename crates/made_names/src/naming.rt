//! The name of a file that is made.
ghost use Rattle.std.specs.Prelude.{◌≡◌, ◌<◌, ◌-◌, ◌^◌, true, [], ◌∷◌, IfOk, OnOk, length, slice_index};
ghost use Rattle.tree_laws.specs.state_model.Loads.{table_in};
ghost use Rattle.tree_laws.specs.state_model.Trees.{is_in_system};
ghost use Rattle.volume_tree.specs.Named.{AreNamesOf};
ghost use Rattle.made_names.specs.Made.{HasPlaces, PutsName};

use host_base::Memory;
use record_rules::{Climber, FileRec};
use state_model::{Link, LinkList};
use std::alloc::Global;
use volume_tree::Names;

/// The name of a file that is to be made, and what is said of the file then: all for which memory is
/// wanted, so that it is put without.
#[derive(Drop)]
pub struct NewName {
    number: u64,
    links: LinkList,
    parent: u64,
    in_system: bool,
}

// A list of one link.
fn list_of(alloc: Global, link: Link) -> Result<LinkList, Memory>
    ensures { IfOk result (λ links. links ≡ link ∷ []) }
{
    let mut links = LinkList::new(alloc);
    links.push(link)?;
    Ok(links)
}

// Whether one name more can be counted in the file with this number.
fn can_count(counts: &[usize], number: u64) -> bool
    ensures within { result ≡ true → number < length counts.now }
    ensures few { result ≡ true → slice_index counts.now number < 2 ^ 64 - 1 }
{
    match counts.get(number as usize) {
        Some(count) => *count < usize::MAX,
        None => false,
    }
}

impl NewName {
    /// The name `link` of the file with this number, which is to be made. `records` has the record in
    /// use of each number, if there is one, and `names` are the names of these. The error is want of
    /// memory, which comes too where no count has room for one name more. It takes constant time.
    #[tactic(auto, using(crate::proofs::Telling::places))]
    pub fn new(
        alloc: Global,
        records: &[Option<FileRec>],
        names: &Names,
        number: u64,
        link: Link,
    ) -> Result<NewName, Memory>
        requires named { AreNamesOf names.now records.now }
        requires within { number < length records.now }
        ensures number { IfOk result (λ new. new.number ≡ number) }
        ensures links { IfOk result (λ new. new.links ≡ link ∷ []) }
        ensures parent { IfOk result (λ new. new.parent ≡ link.parent.number) }
        ensures in_system { IfOk result (λ new. new.in_system ≡ is_in_system (table_in records.now) (length records.now) link.parent.number) }
        ensures places { OnOk result (HasPlaces number link.parent.number names.now) }
    {
        let parent = link.parent.number;
        if !can_count(&names.counts, parent) {
            return Err(Memory);
        }
        let climber = Climber::new(records, &names.ways);
        Ok(NewName {
            number,
            links: list_of(alloc, link)?,
            parent,
            in_system: climber.is_in_system(parent),
        })
    }

    /// Puts the name: the file has it, one name more stands in its directory, and the way up from it
    /// is that directory's. It takes no memory, and constant time.
    pub fn put(self, names: &mut Names)
        requires places { HasPlaces self.number self.parent names.old }
        ensures puts { PutsName self.number self.links self.parent self.in_system names.old names.new }
    {
        let NewName {
            number,
            links,
            parent,
            in_system,
        } = self;
        names.links[number as usize] = links;
        names.counts[parent as usize] += 1;
        names
            .ways
            .put(number as usize, Some(parent), true, in_system);
    }
}
