//! The names of each file, read once.
ghost use Rattle.std.specs.Prelude.{◌≡◌, [], IfOk, slice_index_or};
ghost use Rattle.state_model.specs.Files.{links_at};
ghost use Rattle.state_model.specs.Loads.{table_in};
ghost use Rattle.record_rules.specs.Links.{links_in};

use crate::names::record_links;
use file_record::{FileRec, Memory, file_at};
use state_model::{Link, LinkList};
use std::alloc::{AllocError, Global};

/// The names of the file with this number. The error is want of memory.
#[tactic(auto, unfolding(state_model::specs::Files::links_at))]
pub fn links_at(alloc: Global, records: &[Option<FileRec>], number: u64) -> Result<LinkList, Memory>
    ensures { IfOk result (λ links. links ≡ links_at (table_in records.now) number) }
{
    match file_at(records, number) {
        Some(file) => record_links(alloc, number, file),
        None => Ok(LinkList::new(alloc)),
    }
}

/// The names of each file, by its number; there are none where there is no such file. `records` has
/// the record in use of each number, if there is one. The error is want of memory. It takes time
/// and memory linear in the records.
#[tactic(auto, using(crate::proofs::Links::links_more), unfolding(crate::specs::Links::links_in))]
pub fn links_in(alloc: Global, records: &[Option<FileRec>]) -> Result<Vec<LinkList>, Memory>
    ensures value { IfOk result (λ links. links.items ≡ links_in records.now) }
{
    let mut links = Vec::new(alloc);
    for number in 0..records.len() {
        links
            .push(links_at(alloc, records, number as u64)?)
            .map_err(AllocError::from)?;
    }
    Ok(links)
}

/// The names of the file with this number, of the names of each; past the last there are none. It
/// takes constant time.
pub fn links_of(links: &[LinkList], number: u64) -> &[Link]
    ensures value { result.now ≡ slice_index_or links.now number [] }
{
    match links.get(number as usize) {
        Some(links) => links.as_slice(),
        None => &[],
    }
}
