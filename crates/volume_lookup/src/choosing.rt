//! The link that a part leads to, among those of the same name.
ghost use Rattle.std.specs.Prelude.{◌≡◌, IfOk, find};
ghost use Rattle.std.specs.Option.{option_copied};
ghost use Rattle.file_tree.specs.Names.{same_units};
ghost use Rattle.lookup_laws.specs.Names.{chosen_of, front_link};

use file_tree::Link;
use std::alloc::AllocError;

fn equal_link<'a>(links: &'a [Link], part: &[u16]) -> Option<&'a Link>
    ensures { option_copied result ≡ find (λ l. same_units l.name part.now) links.now }
{
    links.iter().find(|link| link.name.units() == part)
}

fn front_link(links: &[Link]) -> Option<&Link>
    ensures { option_copied result ≡ front_link links.now }
{
    links.first()
}

#[tactic(auto, unfolding(lookup_laws::specs::Names::chosen_of))]
fn chosen_of<'a>(found: &'a [Link], part: &[u16]) -> Option<&'a Link>
    ensures { option_copied result ≡ chosen_of part.now found.now }
{
    if let Some(link) = equal_link(found, part) {
        return Some(link);
    }
    front_link(found)
}

fn copy_of(link: Option<&Link>) -> Result<Option<Link>, AllocError>
    ensures { IfOk result (λ copy. copy ≡ option_copied link.entry) }
{
    match link {
        Some(link) => Ok(Some(link.clone()?)),
        None => Ok(None),
    }
}

/// Of links with the same name, in order, the one of equal units, else the first. The error is want
/// of memory. It takes time linear in the links.
pub fn choose(found: &[Link], part: &[u16]) -> Result<Option<Link>, AllocError>
    ensures { IfOk result (λ link. link ≡ chosen_of part.now found.now) }
{
    copy_of(chosen_of(found, part))
}
