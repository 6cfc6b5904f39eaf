ghost use Rattle.std.specs.Prelude.{◌≡◌, ◌≤◌, ℕ, List, length, IsTrue, IfOk, IfSome};
ghost use Rattle.record_model.specs.ListEntries.{name_end, entry_of};
ghost use Rattle.stream_map.specs.ListFronts.{front_of, has_entry_in, first_entry};

use disk_model::{u8_at, u16_at, u32_at, u64_at};
use record_model::{ListEntry, units_at};
use state_model::FileRef;
use std::alloc::{AllocError, Global};

/// So many bytes have each field of an entry, and its name, which begins before byte 256 and has at
/// most 255 units.
pub const FRONT_BYTES: usize = 0x300;

/// The entry at the front of bytes, and how many of them it takes.
#[derive(Debug, Drop)]
pub struct FirstEntry {
    pub entry: ListEntry,
    pub length: u16,
}

// Where the entry's name ends; one of no units has no place.
fn name_end(front: &[u8]) -> u16
    requires { length front.now ≡ FRONT_BYTES }
    ensures value { result ≡ name_end front.now }
    ensures within { result ≤ 0x2FD }
{
    let count = u16::from(u8_at(front, 0x06));
    if count == 0 {
        0
    } else {
        u16::from(u8_at(front, 0x07)) + 2 * count
    }
}

#[tactic(auto, unfolding(crate::specs::ListFronts::has_entry_in))]
fn has_entry(front: &[u8], left: u64) -> bool
    requires { length front.now ≡ FRONT_BYTES }
    ensures value { result ≡ has_entry_in front.now left }
    ensures name { name_end front.now ≤ 0x300 }
{
    let length = u16_at(front, 0x04);
    let end = name_end(front);
    0x1a <= length && end <= length && u64::from(length) <= left
}

#[tactic(auto, unfolding(record_model::specs::ListEntries::entry_of))]
fn entry_of(alloc: Global, front: &[u8]) -> Result<ListEntry, AllocError>
    requires { length front.now ≡ FRONT_BYTES }
    ensures value { IfOk result (λ entry. entry ≡ entry_of front.now) }
{
    let name = units_at(
        alloc,
        usize::from(u8_at(front, 0x07)),
        usize::from(u8_at(front, 0x06)),
        front,
    )?;
    Ok(ListEntry {
        kind: u32_at(front, 0x00),
        name,
        id: u16_at(front, 0x18),
        first: u64_at(front, 0x08),
        holder: FileRef::unpack(u64_at(front, 0x10)),
    })
}

/// The entry at the front of the bytes of an attribute list of which `left` are left (Linux-NTFS
/// documentation, "$ATTRIBUTE_LIST"). `front` has the first [`FRONT_BYTES`] of them, and zeros
/// behind the last one. There is none where it has no room for its first 26 bytes and its name, or
/// runs past the list. Linear in the units of its name; the error is want of memory.
#[tactic(auto, using(crate::proofs::ListFronts::length_in))]
pub fn first_entry(alloc: Global, front: &[u8], left: u64) -> Result<Option<FirstEntry>, AllocError>
    requires { length front.now ≡ FRONT_BYTES }
    ensures value { IfOk result (λ found. (bytes : List ℕ) → front.now ≡ front_of bytes → left ≡ length bytes → found ≡ first_entry bytes) }
    ensures inside { IfOk result (λ found. IfSome found (λ first. (0x1A ≤ first.length) × (first.length ≤ left))) }
{
    if !has_entry(front, left) {
        return Ok(None);
    }
    let entry = entry_of(alloc, front)?;
    Ok(Some(FirstEntry {
        entry,
        length: u16_at(front, 0x04),
    }))
}
