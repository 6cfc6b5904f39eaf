//! The attributes of other records that the lists of files name.
ghost use Rattle.std.specs.Prelude.{◌≡◌, ◌++◌, ◌∷◌, [], if◌then◌else◌, ◌+◌, ◌<◌, ℕ, map, filter, length, IfOk, OnOk, IfSome, slice_index_or, replicate};
ghost use Rattle.std.specs.List.{list_any};
ghost use Rattle.std.specs.Option.{option_copied};
ghost use Rattle.state_model.specs.Loads.{is_named_in, names_attr, table_in};
ghost use Rattle.volume_map.specs.Lists.{read_of, read_at, named_of, named_at, owner_if, owner_of, owner_at, with_named, extra_at, extras_of};

use crate::holding::names_attr;
use crate::list_read::ListRead;
use file_record::{FileRec, file_at, record_at, reference};
use record_model::{Attr, AttrList, ListEntry, OwnForm};
use std::alloc::{AllocError, Global};
use volume_model::is_same_reference;

// The file, other than itself, that the record of that number refers to.
#[tactic(auto, unfolding(crate::specs::Lists::owner_at))]
fn owner_at(records: &[Option<FileRec>], number: u64) -> Option<u64>
    ensures value { result ≡ owner_at (table_in records.now) number }
{
    let base = record_at(records, number)?.head().base;
    let file = file_at(records, base.number)?;
    if number != base.number && is_same_reference(base, reference(base.number, file)) {
        Some(base.number)
    } else {
        None
    }
}

fn is_named_in(number: u64, holder: &FileRec, attr: &Attr, entry: &ListEntry) -> bool
    ensures { result ≡ is_named_in number holder.now attr.now entry.now }
{
    entry.holder.number == number
        && entry.holder.seq == holder.head().seq
        && names_attr(entry, attr)
}

fn is_named(number: u64, holder: &FileRec, attr: &Attr, entries: &[ListEntry]) -> bool
    ensures { result ≡ list_any (is_named_in number holder.now attr.now) entries.now }
{
    entries
        .iter()
        .any(|entry| is_named_in(number, holder, attr, entry))
}

fn copy_form(form: &OwnForm) -> Result<OwnForm, AllocError>
    ensures { IfOk result (λ copy. copy ≡ form.now) }
{
    match form {
        OwnForm::Resident { value, indexed } => Ok(OwnForm::Resident {
            value: value.clone()?,
            indexed: *indexed,
        }),
        OwnForm::Mapped { sizes, pairs } => Ok(OwnForm::Mapped {
            sizes: *sizes,
            pairs: pairs.clone()?,
        }),
    }
}

/// A copy of the attribute. The error is want of memory.
pub fn copy_attr(attr: &Attr) -> Result<Attr, AllocError>
    ensures { IfOk result (λ copy. copy ≡ attr.now) }
{
    Ok(Attr {
        head: attr.head,
        name: attr.name.clone()?,
        form: copy_form(&attr.form)?,
    })
}

// Appends a copy of the attribute, where it is named.
fn push_if(named: bool, attr: &Attr, extra: &mut AttrList) -> Result<(), AllocError>
    ensures { OnOk result (extra.new ≡ extra.old ++ (if named then attr.now ∷ [] else [])) }
{
    if named {
        extra.push(copy_attr(attr)?)?;
    }
    Ok(())
}

// Appends the attributes of a record that entries name, in time linear in both.
#[tactic(auto, using(crate::proofs::Numbered::filter_begins, crate::proofs::Numbered::filter_more, crate::proofs::Numbered::filter_ends))]
fn push_named(
    number: u64,
    holder: &FileRec,
    entries: &[ListEntry],
    extra: &mut AttrList,
) -> Result<(), AllocError>
    ensures { OnOk result (extra.new ≡ extra.old ++ filter (λ a. list_any (is_named_in number holder.now a) entries.now) holder.now.attrs) }
{
    for attr in holder.attrs().as_slice() {
        push_if(is_named(number, holder, attr, entries), attr, extra)?;
    }
    Ok(())
}

// Adds the attributes of the record of that number which the list of its file names.
fn add_named(
    records: &[Option<FileRec>],
    lists: &[ListRead],
    number: u64,
    owner: u64,
    extra: &mut AttrList,
) -> Result<(), AllocError>
    requires { owner < length lists.now }
    ensures { OnOk result (extra.new ≡ extra.old ++ named_of (read_at (map read_of lists.now) owner) number (table_in records.now number)) }
{
    let Some(holder) = record_at(records, number) else {
        return Ok(());
    };
    push_named(number, holder, &lists[owner as usize].entries, extra)
}

// Adds what the record of that number brings to the file that it refers to, if there is one.
#[tactic(auto, using(crate::proofs::Owners::owner_there))]
fn add_record(
    records: &[Option<FileRec>],
    lists: &[ListRead],
    number: u64,
    extras: &mut [AttrList],
) -> Result<(), AllocError>
    requires lists { length lists.now ≡ length records.now }
    requires extras { length extras.old ≡ length records.now }
    ensures { OnOk result (extras.new ≡ with_named (map read_of lists.now) number (table_in records.now number) (owner_at (table_in records.now) number) extras.old) }
{
    let Some(owner) = owner_at(records, number) else {
        return Ok(());
    };
    add_named(records, lists, number, owner, &mut extras[owner as usize])
}

// So many lists with no attribute.
fn empty_lists(alloc: Global, count: usize) -> Result<Vec<AttrList>, AllocError>
    ensures { IfOk result (λ extras. extras.items ≡ replicate count []) }
{
    let mut extras = Vec::new(alloc);
    for _ in 0..count {
        extras.push(AttrList::new(alloc))?;
    }
    Ok(extras)
}

// Adds what each record brings.
#[tactic(auto, using(crate::proofs::Owners::extras_length))]
fn add_all(
    records: &[Option<FileRec>],
    lists: &[ListRead],
    extras: &mut [AttrList],
) -> Result<(), AllocError>
    requires lists { length lists.now ≡ length records.now }
    requires extras { extras.old ≡ extras_of (map read_of lists.now) (table_in records.now) 0 (length records.now) }
    ensures { OnOk result (extras.new ≡ extras_of (map read_of lists.now) (table_in records.now) (length records.now) (length records.now)) }
{
    for number in 0..records.len() {
        add_record(records, lists, number as u64, extras)?;
    }
    Ok(())
}

/// The attributes of other records that the list of each file names, by the numbers of these
/// records; `lists` has the list of each record. Linear in the records, and for each attribute of a
/// record that refers to a file in the entries of that file's list.
pub fn extras_of(
    alloc: Global,
    records: &[Option<FileRec>],
    lists: &[ListRead],
) -> Result<Vec<AttrList>, AllocError>
    requires { length lists.now ≡ length records.now }
    ensures value { IfOk result (λ extras. extras.items ≡ extras_of (map read_of lists.now) (table_in records.now) (length records.now) (length records.now)) }
{
    let mut extras = empty_lists(alloc, records.len())?;
    add_all(records, lists, extras.as_mut_slice())?;
    Ok(extras)
}
