//! Standard information that comes.
ghost use Rattle.std.specs.Prelude.{◌≡◌, ◌≤◌, ◌^◌, insert, IfOk, length};
ghost use Rattle.disk_model.specs.Bytes.{zeros};
ghost use Rattle.record_times.specs.Times.{place_of_type, has_id, first_free, or_zero, free_id, new_id, with_next_id, new_value, new_info};

use host_base::Bytes;
use plan_changes::{FileRec, FixedValue, push_copies};
use record_model::{Attr, Head, OwnForm, RecHead, STANDARD_INFORMATION, StdInfo};
use std::alloc::{AllocError, Global};
use utf16_name::Units;

// The bytes of new standard information.
const INFO_BYTES: usize = 0x48;

// The last id of an attribute.
const LAST_ID: u16 = 0xFFFF;

// How many attributes stand before the first whose type isn't below this one.
fn place_of_type(kind: u32, attrs: &[Attr]) -> usize
    ensures place { result ≡ place_of_type kind attrs.now }
    ensures inside { result ≤ length attrs.now }
{
    let mut at = 0;
    for attr in attrs {
        if attr.head.kind >= kind {
            return at;
        }
        at += 1;
    }
    at
}

// Whether an attribute has this id.
#[tactic(auto, unfolding(crate::specs::Times::has_id))]
fn has_id(attrs: &[Attr], id: u16) -> bool
    ensures { result ≡ has_id attrs.now id }
{
    attrs.iter().any(|attr| attr.head.id == id)
}

// The least id below this one that no attribute has.
#[tactic(auto, unfolding(crate::specs::Times::first_free))]
fn first_free(attrs: &[Attr], count: u16) -> Option<u16>
    ensures { result ≡ first_free attrs.now count }
{
    (0..count).find(|id| !has_id(attrs, *id))
}

// The least id that no attribute has.
fn free_id(attrs: &[Attr]) -> u16
    requires { length attrs.now ≤ 2 ^ 10 }
    ensures { result ≡ free_id attrs.now }
{
    match first_free(attrs, attrs.len() as u16 + 1) {
        Some(id) => id,
        None => 0,
    }
}

// The id of a new attribute.
fn new_id(file: &FileRec) -> u16
    requires { length file.now.attrs ≤ 2 ^ 10 }
    ensures { result ≡ new_id file.now }
{
    let next = file.head().next_id;
    if next == LAST_ID {
        free_id(file.attrs().as_slice())
    } else {
        next
    }
}

// The header after an id was taken.
fn with_next_id(head: RecHead) -> RecHead
    ensures { result ≡ with_next_id head }
{
    RecHead {
        next_id: head.next_id.saturating_add(1),
        ..head
    }
}

// So many zeros.
#[tactic(auto, unfolding(disk_model::specs::Bytes::zeros))]
fn zeroed(alloc: Global, count: usize) -> Result<Vec<u8>, AllocError>
    ensures value { IfOk result (λ bytes. bytes.items ≡ zeros count) }
    ensures size { IfOk result (λ bytes. length bytes.items ≡ count) }
{
    vec![in alloc; 0u8; count]
}

// The value of new standard information.
#[tactic(auto, unfolding(crate::specs::Times::new_value))]
fn new_value(alloc: Global, stamp: u64) -> Result<Bytes, AllocError>
    ensures { IfOk result (λ value. value ≡ new_value stamp) }
{
    let info = StdInfo {
        created: 0,
        modified: stamp,
        changed: stamp,
        read_at: 0,
        flags: 0,
    };
    let mut value = zeroed(alloc, INFO_BYTES)?;
    info.write(&mut value);
    Ok(Bytes::from(value))
}

// New standard information.
fn new_info(alloc: Global, id: u16, stamp: u64) -> Result<Attr, AllocError>
    ensures { IfOk result (λ attr. attr ≡ new_info id stamp) }
{
    Ok(Attr {
        head: Head {
            kind: STANDARD_INFORMATION,
            flags: 0,
            id,
        },
        name: Units::new(alloc),
        form: OwnForm::Resident {
            value: new_value(alloc, stamp)?,
            indexed: 0,
        },
    })
}

/// The record with standard information more, zeros but for these times, in its place by types.
pub fn with_info(alloc: Global, stamp: u64, file: &FileRec) -> Result<FileRec, AllocError>
    requires { length file.now.attrs ≤ 2 ^ 10 }
    ensures { IfOk result (λ r. r ≡ record { head = with_next_id file.now.head; attrs = insert file.now.attrs (place_of_type 0x10 file.now.attrs) (new_info (new_id file.now) stamp) }) }
{
    let attrs = file.attrs().as_slice();
    let (front, back) = attrs.split_at(place_of_type(STANDARD_INFORMATION, attrs));
    let new = new_info(alloc, new_id(file), stamp)?;
    let mut out = FileRec::empty(alloc, with_next_id(file.head()));
    push_copies(alloc, front, &mut out)?;
    out.push(new)?;
    push_copies(alloc, back, &mut out)?;
    Ok(out)
}
