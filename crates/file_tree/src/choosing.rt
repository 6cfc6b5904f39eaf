ghost use Rattle.std.specs.Prelude.{◌≡◌, OnOk, OnErr, find};
ghost use Rattle.std.specs.List.Sorted.{IsPermutation, IsSortedBy};
ghost use Rattle.std.specs.Option.{option_copied, option_map, option_or};
ghost use Rattle.file_tree.specs.declared.link.Link.{Link as the_link};
ghost use Rattle.file_tree.specs.Trees.{first_of_two, first_in_order, stands_before};
ghost use Rattle.file_tree.specs.Names.{name_order, same_units};

use crate::link::Link;
use crate::ordering::compare_names;
use std::alloc::AllocError;
use std::cmp::Ordering;

// Of two links the one whose name comes first.
fn first_of_two<'a>(upper: &[u16], link: &'a Link, other: Option<&'a Link>) -> &'a Link
    ensures { result.now ≡ first_of_two upper.now link.now (option_copied other.entry) }
{
    match other {
        Some(other)
            if compare_names(upper, link.name.units(), other.name.units()) == Ordering::Greater => {
            other
        }
        _ => link,
    }
}

// The link whose name comes first in order, gone through from the end.
fn first_in_order<'a>(upper: &[u16], links: &'a [Link]) -> Option<&'a Link>
    ensures { option_copied result ≡ first_in_order upper.now links.now }
{
    let mut first = None;
    for i in 0..links.len() {
        first = Some(first_of_two(upper, &links[links.len() - 1 - i], first));
    }
    first
}

fn equal_link<'a>(links: &'a [Link], part: &[u16]) -> Option<&'a Link>
    ensures { option_copied result ≡ find (λ l. same_units l.name part.now) links.now }
{
    links.iter().find(|link| link.name.units() == part)
}

/// The link that this part names, where these are the links of the same name: the one whose units
/// are equal, else the first in order. It takes time linear in the links.
pub fn chosen_link<'a>(upper: &[u16], same: &'a [Link], part: &[u16]) -> Option<&'a Link>
    ensures value { option_copied result ≡ option_or (find (λ l. same_units l.name part.now) same.now) (first_in_order upper.now same.now) }
{
    if let Some(link) = equal_link(same, part) {
        return Some(link);
    }
    first_in_order(upper, same)
}

/// The number of the file that this part names, where these are the links of the same name. It
/// takes time linear in the links.
pub fn chosen(upper: &[u16], same: &[Link], part: &[u16]) -> Option<u64>
    ensures value { result ≡ option_map (λ (l : the_link). l.child.number) (option_or (find (λ l. same_units l.name part.now) same.now) (first_in_order upper.now same.now)) }
{
    let link = chosen_link(upper, same, part)?;
    Some(link.child.number)
}

fn compare(upper: &[u16], a: &Link, b: &Link) -> Ordering
    ensures { result ≡ name_order upper.now a.now.name b.now.name }
{
    compare_names(upper, a.name.units(), b.name.units())
}

/// Puts links into the order of their names, in near-linear time. The error is want of memory, and
/// leaves the links.
pub fn sort_links(upper: &[u16], links: &mut Vec<Link>) -> Result<(), AllocError>
    ensures value { OnOk result (IsPermutation links.old.items links.new.items × IsSortedBy (stands_before upper.now) links.new.items) }
    ensures err { OnErr result (links.new.items ≡ links.old.items) }
{
    links.sort_by(|a, b| compare(upper, a, b))
}
