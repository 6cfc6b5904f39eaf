//! What is asked of the names of one file.
ghost use Rattle.std.specs.Prelude.{◌≡◌, count_by};
ghost use Rattle.std.specs.List.{list_all, list_any};
ghost use Rattle.state_model.specs.Files.{links_at};
ghost use Rattle.state_model.specs.Rules.{is_partner, has_partner, is_short_in, is_only_short, long_count, keeps_names, keeps_1};
ghost use Rattle.state_model.specs.Loads.{table_in};

use crate::fields::{has_type, is_directory_record};
use file_record::{FileRec, FileRef, file_at, is_same_reference};
use state_model::{FIRST_USER_RECORD, Link, SHORT, STANDARD_INFORMATION, WIN32};

fn long_count(links: &[Link]) -> usize
    ensures { result ≡ long_count links.now }
{
    links.iter().filter(|link| link.space != SHORT).count()
}

fn is_partner(short: &Link, link: &Link) -> bool
    ensures { result ≡ is_partner short.now link.now }
{
    link.space == WIN32 && is_same_reference(link.parent, short.parent)
}

// Whether one of the names is the Win32 name of this short name.
fn holds_partner(links: &[Link], short: &Link) -> bool
    ensures { result ≡ list_any (is_partner short.now) links.now }
{
    links.iter().any(|link| is_partner(short, link))
}

// Whether a short name has its Win32 name beside it.
#[tactic(auto, unfolding(state_model::specs::Rules::has_partner))]
fn has_partner(links: &[Link], link: &Link) -> bool
    ensures { result ≡ has_partner links.now link.now }
{
    link.space != SHORT || holds_partner(links, link)
}

fn have_partners(links: &[Link]) -> bool
    ensures { result ≡ list_all (has_partner links.now) links.now }
{
    links.iter().all(|link| has_partner(links, link))
}

// How many short names stand in this directory.
fn short_count(links: &[Link], parent: FileRef) -> usize
    ensures { result ≡ count_by (is_short_in parent) links.now }
{
    links
        .iter()
        .filter(|other| other.space == SHORT && is_same_reference(other.parent, parent))
        .count()
}

// Whether a short name is the only one of its directory.
#[tactic(auto, unfolding(state_model::specs::Rules::is_only_short))]
fn is_only_short(links: &[Link], link: &Link) -> bool
    ensures { result ≡ is_only_short links.now link.now }
{
    link.space != SHORT || short_count(links, link.parent) == 1
}

fn are_only_short(links: &[Link]) -> bool
    ensures { result ≡ list_all (is_only_short links.now) links.now }
{
    links.iter().all(|link| is_only_short(links, link))
}

#[tactic(auto, unfolding(state_model::specs::Rules::keeps_names))]
fn keeps_names(number: u64, file: &FileRec, links: &[Link]) -> bool
    ensures { result ≡ keeps_names number file.now links.now }
{
    let long = long_count(links);
    let is_user = FIRST_USER_RECORD <= number;
    let is_directory = is_directory_record(file);
    (!is_user || 1 <= long)
        && (!is_directory || long == 1)
        && (!(is_user && !is_directory) || has_type(STANDARD_INFORMATION, file))
        && have_partners(links)
        && are_only_short(links)
}

/// Whether the names of the file with this number are lawful, if there is one; `links` are its
/// names.
#[tactic(auto, unfolding(state_model::specs::Rules::keeps_1, state_model::specs::Files::links_at))]
pub fn keeps_names_at(records: &[Option<FileRec>], links: &[Link], number: u64) -> bool
    requires { links.now ≡ links_at (table_in records.now) number }
    ensures { result ≡ keeps_1 (table_in records.now) number }
{
    match file_at(records, number) {
        Some(file) => keeps_names(number, file, links),
        None => true,
    }
}
