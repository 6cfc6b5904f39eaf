ghost use Rattle.std.specs.Prelude.{◌≡◌, ◌&&◌, ℕ, List, true, false, not, nat_lt, replicate, set, slice_index_or, IfOk, OnOk, Ok};
ghost use Rattle.std.specs.Ordering.{nat_cmp};
ghost use Rattle.std.specs.BTreeSet.{contains};
ghost use Rattle.volume_model.specs.host_base.Answers.{Gives};
ghost use Rattle.index_model.specs.Indexes.{Place, entry_link, precedes};
ghost use Rattle.index_model.specs.Walks.{nothing_met, entered, keyed, with_link, final, follows, named_event, found_event, all_judged};
ghost use Rattle.index_tree.specs.Marks.{marks_of};
ghost use Rattle.index_tree.specs.Places.{place_of};
ghost use Rattle.index_tree.specs.Faults.{tree_cause};

use crate::fault::TreeFault;
use crate::place::DirPlace;
use index_model::Side;
use index_node::{Entry, FileNameValue, NamedValue, ValueFault};
use std::alloc::{AllocError, Global};
use std::collections::BTreeSet;
use std::marker::Model;
use volume_model::{Link, LinkList, Upcase};

/// What a walk has met so far: the links of keys, and the numbers of the blocks that were met.
#[derive(Drop)]
pub struct Met {
    links: LinkList,
    numbers: BTreeSet<u64>,
    // The blocks of the place.
    count: u64,
}

impl Model for Met {
    ghost use Rattle.index_model.specs.Walks.{Met as MetOf};

    ghost Value = { MetOf };

    ghost use Rattle.index_tree.specs.Marks.{marks_of};

    ghost view = { λ m. record { links = m.links; marks = marks_of m.numbers m.count } };
}

/// The link that an entry holds; the last entry of a node holds none, and so does one whose key is
/// no file-name value. The error is want of memory. Linear in the bytes of the key.
#[tactic(auto, unfolding(index_model::specs::Indexes::entry_link))]
pub fn entry_link(alloc: Global, entry: &Entry) -> Result<Option<Link>, AllocError>
    ensures { IfOk result (λ link. link ≡ entry_link entry.now) }
{
    let child = entry.child;
    match FileNameValue::read(alloc, entry.key.as_slice()) {
        Ok(value) => {
            let FileNameValue {
                parent,
                name,
                space,
                ..
            } = value;
            Ok(Some(Link {
                parent,
                name,
                space,
                child,
            }))
        }
        Err(ValueFault::Length { .. }) => Ok(None),
        Err(ValueFault::Shape) => Ok(None),
        Err(ValueFault::Memory) => Err(AllocError),
    }
}

// Whether a link may stand before another one by the order of names.
fn precedes(up: &Upcase, before: &Link, link: &Link) -> bool
    ensures { result ≡ precedes up.now before.now link.now }
{
    !up.order(before.name.units(), link.name.units()).is_gt()
}

// Whether a link may stand behind these by the order of names.
#[tactic(auto, using(crate::proofs::Finals::final_last))]
fn follows(up: &Upcase, links: &[Link], link: &Link) -> bool
    ensures { result ≡ follows up.now (final links.now) link.now }
{
    match links.last() {
        None => true,
        Some(before) => precedes(up, before, link),
    }
}

// No block yet.
fn no_numbers(alloc: Global) -> BTreeSet<u64>
    ensures { (count : ℕ) → marks_of result count ≡ replicate count false }
{
    BTreeSet::new(alloc)
}

// Whether a block below the count wasn't met.
fn is_unmet(numbers: &BTreeSet<u64>, count: u64, number: u64) -> bool
    ensures { result ≡ (nat_lt number count && not (contains nat_cmp numbers.now number)) }
{
    number < count && !numbers.contains(&number)
}

// The same by the marks.
fn is_new(numbers: &BTreeSet<u64>, count: u64, number: u64) -> bool
    ensures { result ≡ not (slice_index_or (marks_of numbers.now count) number true) }
{
    is_unmet(numbers, count, number)
}

// Marks a block as met.
fn mark(numbers: &mut BTreeSet<u64>, number: u64) -> Result<(), AllocError>
    ensures { OnOk result ((count : ℕ) → marks_of numbers.new count ≡ set (marks_of numbers.old count) number true) }
{
    numbers.insert(number)?;
    Ok(())
}

impl Met {
    /// Nothing yet, in an index at this place.
    pub fn new(alloc: Global, dir: &DirPlace) -> Met
        ensures { result ≡ nothing_met (place_of dir.now) }
    {
        Met {
            links: LinkList::new(alloc),
            numbers: no_numbers(alloc),
            count: dir.blocks.len(),
        }
    }

    /// The links.
    pub fn into_links(self) -> LinkList
        ensures { result ≡ self.links }
    {
        self.links
    }

    /// Meets the child of a node, in time logarithmic in the blocks that were met. `Node` with rule
    /// 7 comes where its VCN lies outside the allocation or was met before.
    pub fn enter(&mut self, dir: &DirPlace, vcn: u64, child: u64) -> Result<(), TreeFault>
        ensures { Gives (λ _. self.new) tree_cause result (entered (place_of dir.now) self.old vcn child) }
    {
        let number = dir.number_of(child);
        if dir.node_block(child).is_none() || !is_new(&self.numbers, self.count, number) {
            return Err(TreeFault::Node { vcn, rule: 7 });
        }
        mark(&mut self.numbers, number)?;
        Ok(())
    }

    /// Meets a key of a node. `Node` with rule 8 comes where it stands before the last one that was
    /// met, by the order of names.
    pub fn name(&mut self, up: &Upcase, vcn: u64, link: Link) -> Result<(), TreeFault>
        ensures { Gives (λ _. self.new) tree_cause result (keyed up.now self.old vcn link) }
    {
        if !follows(up, self.links.as_slice(), &link) {
            return Err(TreeFault::Node { vcn, rule: 8 });
        }
        self.add(link)
    }

    /// Meets the key of an entry of a node, where it has one.
    pub fn key(
        &mut self,
        alloc: Global,
        up: &Upcase,
        vcn: u64,
        entry: &Entry,
    ) -> Result<(), TreeFault>
        ensures { (p : Place) → Gives (λ _. self.new) tree_cause result (all_judged p up.now self.old (named_event vcn (entry_link entry.now))) }
    {
        match entry_link(alloc, entry)? {
            None => Ok(()),
            Some(link) => self.name(up, vcn, link),
        }
    }

    /// Takes the link of an entry of a node, where its name is the one that is sought.
    pub fn find(&mut self, side: Side, link: Option<Link>) -> Result<(), TreeFault>
        ensures { (p : Place) (upper : List ℕ) → Gives (λ _. self.new) tree_cause result (all_judged p upper self.old (found_event side link)) }
    {
        match link {
            None => Ok(()),
            Some(link) => match side {
                Side::Unnamed => Ok(()),
                Side::Before => Ok(()),
                Side::Same => self.add(link),
                Side::Behind => Ok(()),
            },
        }
    }

    /// One link more.
    pub fn add(&mut self, link: Link) -> Result<(), TreeFault>
        ensures { Gives (λ _. self.new) tree_cause result (Ok (with_link self.old link)) }
    {
        self.links.push(link)?;
        Ok(())
    }
}
