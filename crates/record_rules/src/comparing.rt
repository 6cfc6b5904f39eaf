//! A list of names beside the names that stand in a directory.
ghost use Rattle.std.specs.Prelude.{◌≡◌, length};
ghost use Rattle.std.specs.List.{list_all, list_any};
ghost use Rattle.state_model.specs.Rules.{same_link, is_name_in, names_in, is_index};
ghost use Rattle.state_model.specs.Loads.{table_in};
ghost use Rattle.record_rules.specs.Links.{links_in};

use crate::linking::links_of;
use crate::rising::is_rising;
use file_record::{FileRec, FileRef, is_same_reference};
use state_model::{Link, LinkList, is_same_link};

fn contains_link(links: &[Link], link: &Link) -> bool
    ensures { result ≡ list_any (same_link link.now) links.now }
{
    links.iter().any(|other| is_same_link(link, other))
}

// Whether the link is a name in this directory of the file that it names. Only that file's names
// are gone through.
#[tactic(auto, using(crate::proofs::Links::links_found), unfolding(state_model::specs::Rules::is_name_in))]
fn is_name_in(
    records: &[Option<FileRec>],
    links: &[LinkList],
    directory: FileRef,
    link: &Link,
) -> bool
    requires { links.now ≡ links_in records.now }
    ensures { result ≡ is_name_in (table_in records.now) directory link.now }
{
    is_same_reference(link.parent, directory)
        && contains_link(links_of(links, link.child.number), link)
}

fn are_names_in(
    records: &[Option<FileRec>],
    links: &[LinkList],
    directory: FileRef,
    held: &[Link],
) -> bool
    requires { links.now ≡ links_in records.now }
    ensures { result ≡ list_all (is_name_in (table_in records.now) directory) held.now }
{
    held.iter()
        .all(|link| is_name_in(records, links, directory, link))
}

/// Whether the names `held` are those of this directory, in order by the table `upper`, which gives
/// each UTF-16 unit its upper-case unit (Linux-NTFS documentation, "$INDEX_ROOT"). `records` has
/// the record in use of each number, if there is one, `links` the names of each file, and `count`
/// is how many names stand in the directory. It takes time linear in the names `held` and in all
/// names of the files that they name.
#[tactic(auto, unfolding(state_model::specs::Rules::is_index))]
pub fn is_index(
    upper: &[u16],
    records: &[Option<FileRec>],
    links: &[LinkList],
    directory: FileRef,
    count: usize,
    held: &[Link],
) -> bool
    requires table { links.now ≡ links_in records.now }
    requires counted { count ≡ names_in (table_in records.now) directory (length records.now) }
    ensures value { result ≡ is_index upper.now (table_in records.now) (length records.now) directory held.now }
{
    is_rising(upper, held) && are_names_in(records, links, directory, held) && held.len() == count
}
