//! Rule 10: each entry of an attribute list names a record that holds the attribute.
ghost use Rattle.std.specs.Prelude.{◌≡◌, ◌<◌, map, length, IfOk};
ghost use Rattle.std.specs.List.{list_all, list_any};
ghost use Rattle.state_model.specs.Files.{file_at};
ghost use Rattle.state_model.specs.Loads.{names_attr, belongs_to, holds_named, is_held, holds_all, table_in};
ghost use Rattle.volume_map.specs.Lists.{read_of, breaks_by, ten_at, tens_of};

use crate::list_read::ListRead;
use file_record::{FileRec, file_at, record_at, reference};
use record_model::{Attr, ListEntry};
use std::alloc::{AllocError, Global};
use stream_map::first_vcn;
use volume_model::is_same_reference;

/// Whether the entry names the attribute by type, name, id and first VCN.
pub fn names_attr(entry: &ListEntry, attr: &Attr) -> bool
    ensures { result ≡ names_attr entry.now attr.now }
{
    attr.head.kind == entry.kind
        && attr.name == entry.name
        && attr.head.id == entry.id
        && first_vcn(attr) == entry.first
}

fn names_any(entry: &ListEntry, attrs: &[Attr]) -> bool
    ensures { result ≡ list_any (names_attr entry.now) attrs.now }
{
    attrs.iter().any(|attr| names_attr(entry, attr))
}

fn belongs_to(number: u64, file: &FileRec, holder: u64, record1: &FileRec) -> bool
    ensures { result ≡ belongs_to number file.now holder record1.now }
{
    holder == number || is_same_reference(record1.head().base, reference(number, file))
}

// Whether the record that the entry names holds the attribute, and belongs to the file.
#[tactic(auto, unfolding(state_model::specs::Loads::is_held))]
fn is_held(records: &[Option<FileRec>], number: u64, file: &FileRec, entry: &ListEntry) -> bool
    ensures { result ≡ is_held (table_in records.now) number file.now entry.now }
{
    let Some(holder) = record_at(records, entry.holder.number) else {
        return false;
    };
    holder.head().seq == entry.holder.seq
        && belongs_to(number, file, entry.holder.number, holder)
        && names_any(entry, holder.attrs().as_slice())
}

fn all_held(records: &[Option<FileRec>], number: u64, file: &FileRec, entries: &[ListEntry]) -> bool
    ensures { result ≡ list_all (is_held (table_in records.now) number file.now) entries.now }
{
    entries
        .iter()
        .all(|entry| is_held(records, number, file, entry))
}

// Whether the file with this number breaks rule 10, by what was read of its list.
fn breaks_by(records: &[Option<FileRec>], number: u64, list: &ListRead) -> bool
    ensures { result ≡ breaks_by (table_in records.now) number (read_of list.now) (file_at (table_in records.now) number) }
{
    let Some(file) = file_at(records, number) else {
        return false;
    };
    !(list.whole && all_held(records, number, file, &list.entries))
}

// The same by the lists of all.
#[tactic(auto, using(crate::proofs::Numbered::read_there), unfolding(crate::specs::Lists::ten_at))]
fn ten_at(records: &[Option<FileRec>], lists: &[ListRead], number: usize) -> bool
    requires { number < length lists.now }
    ensures { result ≡ ten_at (table_in records.now) (map read_of lists.now) number }
{
    breaks_by(records, number as u64, &lists[number])
}

/// Whether each file breaks rule 10, by the lists of all, in time linear in the entries.
pub fn tens_of(
    alloc: Global,
    records: &[Option<FileRec>],
    lists: &[ListRead],
) -> Result<Vec<bool>, AllocError>
    ensures value { IfOk result (λ tens. tens.items ≡ tens_of (table_in records.now) (map read_of lists.now) (length lists.now)) }
{
    let mut tens = Vec::new(alloc);
    for number in 0..lists.len() {
        tens.push(ten_at(records, lists, number))?;
    }
    Ok(tens)
}
