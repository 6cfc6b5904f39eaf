//! Records that get attributes, and records as they are written.
ghost use Rattle.std.specs.Prelude.{◌≡◌, ◌≤◌, ◌<◌, ◌^◌, [], ◌∷◌, IfOk, OnOk, is_some, length};
ghost use Rattle.made_data.specs.Ids.{is_lesser, is_before, place_of, has_id, first_free, or_zero, free_id, new_id, with_next_id, with_id, with_attr};
ghost use Rattle.data_plan.specs.draft_records.Records.{name_count, with_links, with_normal, written_record};

use data_plan::{FileRec, normal_attr, push_copies};
use record_model::{Attr, FILE_NAME, Head, RecHead};
use std::alloc::{AllocError, Global};

// The last id of an attribute.
const LAST_ID: u16 = 0xFFFF;

// Whether the name is lesser.
fn is_lesser(name: &[u16], other: &[u16]) -> bool
    ensures { result ≡ is_lesser name.now other.now }
{
    name.cmp(other).is_lt()
}

// Whether an attribute stands before those of this type and name.
#[tactic(auto, unfolding(crate::specs::Ids::is_before))]
fn is_before(kind: u32, name: &[u16], attr: &Attr) -> bool
    ensures { result ≡ is_before kind name.now attr.now }
{
    attr.head.kind < kind || attr.head.kind == kind && is_lesser(attr.name.as_slice(), name)
}

// How many attributes stand before the first that isn't before those of this type and name.
fn place_of(kind: u32, name: &[u16], attrs: &[Attr]) -> usize
    ensures place { result ≡ place_of kind name.now attrs.now }
    ensures inside { result ≤ length attrs.now }
{
    let mut at = 0;
    for attr in attrs {
        if !is_before(kind, name, attr) {
            return at;
        }
        at += 1;
    }
    at
}

// Whether an attribute has this id.
#[tactic(auto, unfolding(crate::specs::Ids::has_id))]
fn has_id(attrs: &[Attr], id: u16) -> bool
    ensures { result ≡ has_id attrs.now id }
{
    attrs.iter().any(|attr| attr.head.id == id)
}

// The least id below this one that no attribute has.
#[tactic(auto, unfolding(crate::specs::Ids::first_free))]
fn first_free(attrs: &[Attr], count: u16) -> Option<u16>
    ensures { result ≡ first_free attrs.now count }
{
    (0..count).find(|id| !has_id(attrs, *id))
}

// The least id that no attribute has.
fn free_id(attrs: &[Attr]) -> u16
    requires { length attrs.now ≤ 2 ^ 10 }
    ensures { result ≡ free_id attrs.now }
{
    match first_free(attrs, attrs.len() as u16 + 1) {
        Some(id) => id,
        None => 0,
    }
}

// The id of a new attribute.
fn new_id(file: &FileRec) -> u16
    requires { length file.now.attrs ≤ 2 ^ 10 }
    ensures { result ≡ new_id file.now }
{
    let next = file.head().next_id;
    if next == LAST_ID {
        free_id(file.attrs().as_slice())
    } else {
        next
    }
}

// The header after an id was taken.
fn with_next_id(head: RecHead) -> RecHead
    ensures { result ≡ with_next_id head }
{
    RecHead {
        next_id: head.next_id.saturating_add(1),
        ..head
    }
}

// The attribute with this id.
fn with_id(id: u16, attr: Attr) -> Attr
    ensures { result ≡ with_id id attr }
{
    let Attr { head, name, form } = attr;
    Attr {
        head: Head { id, ..head },
        name,
        form,
    }
}

/// The record with this attribute more (Linux-NTFS documentation, "FILE Record", "Attribute
/// Header"), in its place by types and then by the units of names, with the header's next id for an
/// attribute, or the least one that is free where these have come to their end; the attribute's own
/// id doesn't count. The record has at most 1,024 attributes; it may use more than 1,024 bytes. The
/// error is want of memory. It takes time and memory linear in the record, and where ids have come to
/// their end the square of its attributes' number.
pub fn with_attr(alloc: Global, attr: Attr, file: &FileRec) -> Result<FileRec, AllocError>
    requires few { length file.now.attrs ≤ 2 ^ 10 }
    ensures value { IfOk result (λ r. r ≡ with_attr attr file.now) }
{
    let attrs = file.attrs().as_slice();
    let place = place_of(attr.head.kind, attr.name.as_slice(), attrs);
    let (front, back) = attrs.split_at(place);
    let mut out = FileRec::empty(alloc, with_next_id(file.head()));
    push_copies(alloc, front, &mut out)?;
    out.push(with_id(new_id(file), attr))?;
    push_copies(alloc, back, &mut out)?;
    Ok(out)
}

// How many of the attributes are names.
fn name_count(attrs: &[Attr]) -> usize
    ensures { result ≡ name_count attrs.now }
{
    attrs
        .iter()
        .filter(|attr| attr.head.kind == FILE_NAME)
        .count()
}

// A normal copy of the attribute at the record's end.
fn push_normal(alloc: Global, attr: &Attr, to: &mut FileRec) -> Result<(), AllocError>
    ensures { OnOk result (to.new ≡ with_normal to.old (attr.now ∷ [])) }
{
    let Ok(copy) = normal_attr(alloc, attr) else {
        return Err(AllocError);
    };
    to.push(copy)?;
    Ok(())
}

// Normal copies of the attributes, at the record's end.
fn push_all_normal(alloc: Global, attrs: &[Attr], to: &mut FileRec) -> Result<(), AllocError>
    ensures { OnOk result (to.new ≡ with_normal to.old attrs.now) }
{
    for attr in attrs {
        push_normal(alloc, attr, to)?;
    }
    Ok(())
}

// The header's fields with this count of links.
fn with_links(head: RecHead, links: u16) -> RecHead
    ensures { result ≡ with_links head links }
{
    RecHead { links, ..head }
}

// The record with normal attributes, and with the count of links of before.
fn normal_record(alloc: Global, file: &FileRec) -> Result<FileRec, AllocError>
    ensures { IfOk result (λ r. r ≡ with_normal (record { head = file.now.head; attrs = [] }) file.now.attrs) }
{
    let mut new = FileRec::empty(alloc, file.head());
    push_all_normal(alloc, file.attrs().as_slice(), &mut new)?;
    Ok(new)
}

/// The record as it is written, whatever it uses: its attributes normal, with mapping pairs filled up
/// to a multiple of 8 bytes, and its count of links that of its names (Linux-NTFS documentation,
/// "FILE Record", "$FILE_NAME"). The error is want of memory. It takes time and memory linear in the
/// record.
pub fn written(alloc: Global, file: &FileRec) -> Result<FileRec, AllocError>
    requires few { length file.now.attrs < 2 ^ 16 }
    ensures value { IfOk result (λ r. r ≡ written_record file.now) }
{
    let mut new = normal_record(alloc, file)?;
    let links = name_count(file.attrs().as_slice());
    new.set_head(with_links(file.head(), links as u16));
    Ok(new)
}
