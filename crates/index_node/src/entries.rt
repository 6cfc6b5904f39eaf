ghost use Rattle.std.specs.Prelude.{◌≡◌, ◌+◌, ◌*◌, ◌<◌, ◌≤◌, true, false, length, IfOk};
ghost use Rattle.disk_model.specs.Numbers.{field};
ghost use Rattle.record_model.specs.Values.{is_file_name};
ghost use Rattle.record_model.specs.Nodes.{child_flag, is_last, has_entry_length, has_key, has_entry, down_of, entry_of};

use disk_model::{Bytes, FileRef, u16_at, u64_at};
use record_model::{Entry, EntryFlags, FileNameValue, ValueFault};
use std::alloc::{AllocError, Global};
use std_values::NamedValue;

// Reading of one entry (Linux-NTFS documentation, "Index Entry"): first whether the bytes begin
// with a lawful one, and then the entry of its own bytes.

// The first bytes of an entry, before its key.
const HEAD: usize = 0x10;

/// 1 where the entry has a child.
pub fn child_flag(e: &[u8]) -> u16
    requires { 0x10 ≤ length e.now }
    ensures { result ≡ child_flag e.now }
{
    u16::from(EntryFlags::has_child(u16_at(e, 0x0c)))
}

/// Whether the entry is the last of its node.
pub fn is_last(e: &[u8]) -> bool
    requires { 0x10 ≤ length e.now }
    ensures { result ≡ is_last e.now }
{
    EntryFlags::has_last(u16_at(e, 0x0c))
}

// The bytes beside the key.
fn fixed_bytes(e: &[u8]) -> usize
    requires { 0x10 ≤ length e.now }
    ensures { result ≡ 0x10 + 8 * child_flag e.now }
{
    HEAD + 8 * usize::from(child_flag(e))
}

// Whether a key is a file-name value. The error is want of memory.
#[tactic(auto, using(crate::proofs::Keys::lawful))]
fn is_file_name(alloc: Global, key: &[u8]) -> Result<bool, AllocError>
    ensures { IfOk result (λ lawful. lawful ≡ is_file_name key.now) }
{
    let fault = match FileNameValue::read(alloc, key) {
        Ok(_) => return Ok(true),
        Err(fault) => fault,
    };
    match fault {
        ValueFault::Length { .. } => Ok(false),
        ValueFault::Shape => Ok(false),
        ValueFault::Memory => Err(AllocError),
    }
}

// Whether the length of an entry at the front of these bytes is lawful.
#[tactic(auto, unfolding(record_model::specs::Nodes::has_entry_length))]
fn has_entry_length(bytes: &[u8]) -> bool
    requires { 0x10 ≤ length bytes.now }
    ensures { result ≡ has_entry_length bytes.now }
{
    let length = usize::from(u16_at(bytes, 0x08));
    fixed_bytes(bytes) <= length && length % 8 == 0 && length <= bytes.len()
}

// Whether the key of an entry with a lawful length is lawful. The error is want of memory.
#[tactic(auto, using(crate::proofs::Keys::bounds), unfolding(record_model::specs::Nodes::has_key))]
fn has_key(alloc: Global, bytes: &[u8]) -> Result<bool, AllocError>
    requires front { 0x10 ≤ length bytes.now }
    requires sized { has_entry_length bytes.now ≡ true }
    ensures { IfOk result (λ lawful. lawful ≡ has_key bytes.now) }
{
    if is_last(bytes) {
        return Ok(true);
    }
    let key = usize::from(u16_at(bytes, 0x0a));
    if HEAD + key + 8 * usize::from(child_flag(bytes)) > usize::from(u16_at(bytes, 0x08)) {
        return Ok(false);
    }
    let later = bytes.split_at(HEAD).1;
    is_file_name(alloc, later.split_at(key).0)
}

/// Whether these bytes begin with an entry whose length and key are lawful. The error is want of
/// memory.
pub fn has_entry(alloc: Global, bytes: &[u8]) -> Result<bool, AllocError>
    requires { 0x10 ≤ length bytes.now }
    ensures { IfOk result (λ lawful. lawful ≡ has_entry bytes.now) }
{
    if !has_entry_length(bytes) {
        return Ok(false);
    }
    has_key(alloc, bytes)
}

// The VCN of an entry's child, where it has one.
#[tactic(auto, unfolding(record_model::specs::Nodes::down_of))]
fn down_of(e: &[u8]) -> Option<u64>
    requires { 0x10 ≤ length e.now }
    ensures { result ≡ down_of e.now }
{
    if child_flag(e) == 1 {
        Some(u64_at(e, e.len() - 8))
    } else {
        None
    }
}

/// The entry that its own bytes stand for. The error is want of memory.
#[tactic(auto, using(crate::proofs::Keys::bounds), unfolding(record_model::specs::Nodes::entry_of))]
pub fn entry_of(alloc: Global, e: &[u8]) -> Result<Entry, AllocError>
    requires front { 0x10 ≤ length e.now }
    requires own_length { field 0x08 2 e.now ≡ length e.now }
    requires key { has_key e.now ≡ true }
    ensures { IfOk result (λ entry. entry ≡ entry_of e.now) }
{
    let down = down_of(e);
    if is_last(e) {
        return Ok(Entry {
            child: FileRef { number: 0, seq: 0 },
            key: Bytes::new(alloc),
            down,
        });
    }
    let later = e.split_at(HEAD).1;
    let key = later.split_at(usize::from(u16_at(e, 0x0a))).0;
    Ok(Entry {
        child: FileRef::unpack(u64_at(e, 0x00)),
        key: Bytes::copy_of(alloc, key)?,
        down,
    })
}
