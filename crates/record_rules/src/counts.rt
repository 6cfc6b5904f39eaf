//! How many names stand in each file.
ghost use Rattle.std.specs.Prelude.{◌≡◌, ◌<◌, ◌+◌, ℕ, [], ◌∷◌, IfOk, OnOk, length, replicate, slice_index};
ghost use Rattle.record_rules.specs.Counts.{count_at, names_at, has_reference};
ghost use Rattle.state_model.specs.Loads.{table_in};
ghost use Rattle.record_rules.specs.Links.{links_in};

use file_record::{FileRec, FileRef, Memory, file_at};
use state_model::{Link, LinkList};
use std::alloc::Global;

// Whether the file with this number has this sequence.
#[tactic(auto, unfolding(crate::specs::Counts::has_reference))]
fn has_reference(records: &[Option<FileRec>], file: FileRef) -> bool
    ensures { result ≡ has_reference (table_in records.now) file }
{
    match file_at(records, file.number) {
        Some(record) => file.seq == record.head().seq,
        None => false,
    }
}

// One more. The error is want of memory, since more names than a count holds would want more than
// there is.
fn one_more(count: usize) -> Result<usize, Memory>
    ensures { IfOk result (λ more. more ≡ count + 1) }
{
    count.checked_add(1).ok_or(Memory)
}

// Counts a name for the file that it stands in, if that is counted.
#[tactic(auto, using(crate::proofs::Tallies::tallied, crate::proofs::Tallies::not_tallied, crate::proofs::Tallies::not_reached))]
fn count_link(records: &[Option<FileRec>], counts: &mut [usize], link: &Link) -> Result<(), Memory>
    ensures { OnOk result ((n : ℕ) → n < length counts.old → slice_index counts.new n ≡ slice_index counts.old n + count_at (table_in records.now) n (link.now ∷ [])) }
{
    let at = link.parent.number as usize;
    if has_reference(records, link.parent) && at < counts.len() {
        counts[at] = one_more(counts[at])?;
    }
    Ok(())
}

// Counts names for the files that they stand in.
#[tactic(auto, using(crate::proofs::Tallies::count_more, crate::proofs::Tallies::count_none))]
fn count_links(
    records: &[Option<FileRec>],
    counts: &mut [usize],
    links: &[Link],
) -> Result<(), Memory>
    ensures { OnOk result ((n : ℕ) → n < length counts.old → slice_index counts.new n ≡ slice_index counts.old n + count_at (table_in records.now) n links.now) }
{
    for link in links {
        count_link(records, counts, link)?;
    }
    Ok(())
}

// Counts the names of each file for the files that they stand in. `links` are the names of each
// file.
#[tactic(auto, using(crate::proofs::Tallies::names_more, crate::proofs::Tallies::names_none, crate::proofs::Links::links_within, crate::proofs::Links::length_links))]
fn count_all(
    records: &[Option<FileRec>],
    counts: &mut [usize],
    links: &[LinkList],
) -> Result<(), Memory>
    requires table { links.now ≡ links_in records.now }
    requires zeros { counts.old ≡ replicate (length records.now) 0 }
    ensures { OnOk result ((n : ℕ) → n < length records.now → slice_index counts.new n ≡ names_at (table_in records.now) n (length records.now)) }
{
    for list in links {
        count_links(records, counts, list.as_slice())?;
    }
    Ok(())
}

// So many zeros.
fn zeros(alloc: Global, count: usize) -> Result<Vec<usize>, Memory>
    ensures { IfOk result (λ zeros. zeros.items ≡ replicate count 0) }
{
    let zeros = vec![in alloc; 0usize; count]?;
    Ok(zeros)
}

/// How many names stand in each file, by its number; a name whose reference has another sequence
/// isn't counted. `records` has the record in use of each number, if there is one, and `links` the
/// names of each file. The error is want of memory. It is one pass over the names.
#[tactic(auto, using(crate::proofs::Tallies::written))]
pub fn counts_in(
    alloc: Global,
    records: &[Option<FileRec>],
    links: &[LinkList],
) -> Result<Vec<usize>, Memory>
    requires { links.now ≡ links_in records.now }
    ensures size { IfOk result (λ counts. length counts.items ≡ length records.now) }
    ensures counted { IfOk result (λ counts. (n : ℕ) → n < length records.now → slice_index counts.items n ≡ names_at (table_in records.now) n (length records.now)) }
{
    let mut counts = zeros(alloc, records.len())?;
    count_all(records, counts.as_mut_slice(), links)?;
    Ok(counts)
}
