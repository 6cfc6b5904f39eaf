//! The names of all files, and the way up from them.
ghost use Rattle.std.specs.Prelude.{◌≡◌, ◌<◌, ◌++◌, ◌&&◌, ◌==◌, not, nat_lt, IfOk, OnOk, length, map, slice_set};
ghost use Rattle.std.specs.List.{range_with_len, list_any};
ghost use Rattle.state_model.specs.file_tree.declared.link.Link.{Link as the_link};
ghost use Rattle.state_model.specs.file_tree.Walks.{root, first_user_record};
ghost use Rattle.state_model.specs.Trees.{all_links, first_parent, parent_at, leads, is_in_system, is_system};
ghost use Rattle.state_model.specs.Loads.{table_in};
ghost use Rattle.record_rules.specs.Links.{links_in};
ghost use Rattle.record_rules.specs.Ways.{AreWaysOf};

use crate::linking::{links_at, links_of};
use crate::passing::{Question, climb_all};
use file_record::{FileRec, Memory};
use state_model::{FIRST_USER_RECORD, Link, LinkList, ROOT};
use std::alloc::{AllocError, Global};

// Appends copies of the links.
fn append(links: &mut LinkList, more: &[Link]) -> Result<(), AllocError>
    ensures { OnOk result (links.new ≡ links.old ++ more.now) }
{
    for link in more {
        links.push(link.clone()?)?;
    }
    Ok(())
}

/// The names of all files, by the files' numbers (Linux-NTFS documentation, "$FILE_NAME").
/// `records` has the record in use of each number, if there is one. The error is want of memory. It
/// takes time and memory linear in the records.
#[tactic(auto, using(crate::proofs::Ascents::flat_map_more), unfolding(state_model::specs::Trees::all_links))]
pub fn all_links(alloc: Global, records: &[Option<FileRec>]) -> Result<LinkList, Memory>
    ensures value { IfOk result (λ links. links ≡ all_links (table_in records.now) (length records.now)) }
{
    let mut links = LinkList::new(alloc);
    for number in 0..records.len() {
        let more = links_at(alloc, records, number as u64)?;
        append(&mut links, more.as_slice())?;
    }
    Ok(links)
}

// The directory of the first link.
fn first_parent(links: &[Link]) -> Option<u64>
    ensures { result ≡ first_parent links.now }
{
    let link = links.first()?;
    Some(link.parent.number)
}

// The directory of the file's first name.
#[tactic(auto, using(crate::proofs::Links::links_found), unfolding(state_model::specs::Trees::parent_at))]
fn parent_at(records: &[Option<FileRec>], links: &[LinkList], number: u64) -> Option<u64>
    requires { links.now ≡ links_in records.now }
    ensures { result ≡ parent_at (table_in records.now) number }
{
    first_parent(links_of(links, number))
}

// The directory of each file's first name, by the file's number.
#[tactic(auto, using(crate::proofs::Ascents::map_more))]
fn parents_of(
    alloc: Global,
    records: &[Option<FileRec>],
    links: &[LinkList],
) -> Result<Vec<Option<u64>>, AllocError>
    requires { links.now ≡ links_in records.now }
    ensures { IfOk result (λ parents. parents.items ≡ map (parent_at (table_in records.now)) (range_with_len 0 (length records.now))) }
{
    let mut parents = Vec::new(alloc);
    for number in 0..records.len() {
        parents.push(parent_at(records, links, number as u64))?;
    }
    Ok(parents)
}

/// What the ways up from a volume's files say, by the files' numbers: the directory of each file's
/// first name, whether the way from there reaches the root, and whether a directory of the volume
/// itself stands on it.
#[derive(Drop)]
pub struct Ways {
    parents: Vec<Option<u64>>,
    rooted: Vec<bool>,
    in_system: Vec<bool>,
}

impl Ways {
    /// The ways up from these records: the record in use of each number, if there is one. `links`
    /// are the names of each file. The error is want of memory. It takes time and memory linear in
    /// the records: on the ways up from all of them it passes each record once.
    #[tactic(auto, using(crate::proofs::Climbs::are_rooted, crate::proofs::Climbs::are_in_system))]
    pub fn new(
        alloc: Global,
        records: &[Option<FileRec>],
        links: &[LinkList],
    ) -> Result<Self, Memory>
        requires { links.now ≡ links_in records.now }
        ensures value { IfOk result (λ ways. AreWaysOf ways records.now) }
    {
        let parents = parents_of(alloc, records, links)?;
        let rooted = climb_all(alloc, Question::Rooted, &parents)?;
        let in_system = climb_all(alloc, Question::InSystem, &parents)?;
        Ok(Ways {
            parents,
            rooted,
            in_system,
        })
    }

    /// Puts what the way up from the file with this number says in the place of what it said: the
    /// directory of its first name, whether the way from there reaches the root, and whether a
    /// directory of the volume itself stands on it. It takes constant time.
    pub fn put(&mut self, number: usize, parent: Option<u64>, rooted: bool, in_system: bool)
        requires parents { number < length self.old.parents.items }
        requires rooted { number < length self.old.rooted.items }
        requires in_system { number < length self.old.in_system.items }
        ensures parents { self.new.parents.items ≡ slice_set self.old.parents.items number parent }
        ensures rooted { self.new.rooted.items ≡ slice_set self.old.rooted.items number rooted }
        ensures in_system { self.new.in_system.items ≡ slice_set self.old.in_system.items number in_system }
    {
        self.parents[number] = parent;
        self.rooted[number] = rooted;
        self.in_system[number] = in_system;
    }
}

/// Records, with what the way up from each says.
#[derive(Clone, Copy)]
pub struct Climber<'a> {
    /// The record in use of each number, if there is one.
    pub records: &'a [Option<FileRec>],
    ways: &'a Ways,
    ghost climbed: { AreWaysOf ways.now records.now },
}

// Whether a number past so many records is that of a directory of the volume itself, other than the
// root, where there are records at all.
fn is_own_past(count: usize, number: u64) -> bool
    ensures { result ≡ (nat_lt 0 count && (not (number == root) && nat_lt number first_user_record)) }
{
    0 < count && number != ROOT && number < FIRST_USER_RECORD
}

impl<'a> Climber<'a> {
    /// These records, the record in use of each number, if there is one, with the ways up from
    /// them. It takes constant time.
    pub fn new(records: &'a [Option<FileRec>], ways: &'a Ways) -> Self
        requires { AreWaysOf ways.now records.now }
        ensures records { result.records.now ≡ records.now }
    {
        Climber { records, ways }
    }

    /// The number of the directory of the file's first name, if it has a name. It takes constant
    /// time.
    #[tactic(auto)]
    pub fn parent(&self, number: u64) -> Option<u64>
        ensures value { result ≡ parent_at (table_in self.now.records.now) number }
    {
        match self.ways.parents.get(number as usize) {
            Some(parent) => *parent,
            None => None,
        }
    }

    /// Whether the way up from the directory with this number, by the first name of each file on it
    /// (Linux-NTFS documentation, "$FILE_NAME"), reaches the root. It takes constant time.
    #[tactic(auto)]
    pub fn leads(&self, number: u64) -> bool
        ensures value { result ≡ leads (table_in self.now.records.now) (length self.now.records.now) number }
    {
        match self.ways.rooted.get(number as usize) {
            Some(rooted) => *rooted,
            None => number == ROOT,
        }
    }

    /// Whether on the way up from the directory with this number, itself among it, stands a
    /// directory of the volume itself, other than the root. It takes constant time.
    #[tactic(auto)]
    pub fn is_in_system(&self, directory: u64) -> bool
        ensures { result ≡ is_in_system (table_in self.now.records.now) (length self.now.records.now) directory }
    {
        match self.ways.in_system.get(directory as usize) {
            Some(in_system) => *in_system,
            None => is_own_past(self.records.len(), directory),
        }
    }

    // Whether one of these names stands below a directory of the volume itself.
    fn is_any_in_system(&self, links: &[Link]) -> bool
        ensures { result ≡ list_any (λ (l : the_link). is_in_system (table_in self.now.records.now) (length self.now.records.now) l.parent.number) links.now }
    {
        links
            .iter()
            .any(|link| self.is_in_system(link.parent.number))
    }

    /// Whether the file with this number is one of the volume itself, or one of the names `links`
    /// stands below a directory of the volume itself, other than the root. It takes time linear in
    /// these names.
    #[tactic(auto, unfolding(state_model::specs::Trees::is_system))]
    pub fn is_system(&self, number: u64, links: &[Link]) -> bool
        ensures value { result ≡ is_system (table_in self.now.records.now) (length self.now.records.now) number links.now }
    {
        number < FIRST_USER_RECORD || self.is_any_in_system(links)
    }
}
