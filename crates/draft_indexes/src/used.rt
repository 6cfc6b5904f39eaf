//! The bitmap that says which blocks of an index are in use.
ghost use Rattle.std.specs.Prelude.{◌≡◌, ℕ, ◌+◌, ◌≤◌, ◌<◌, ◌^◌, if◌then◌else◌, IfOk, length, max};
ghost use Rattle.bit_set.specs.Words.{byte_bit};
ghost use Rattle.draft_indexes.specs.Growing.{is_used, low_bits, bytes_of_bits};

use host_base::Bytes;
use std::alloc::{AllocError, Global};

// Whether this bit is set; past the bytes none is.
fn is_set(bytes: &[u8], at: u64) -> bool
    ensures { result ≡ byte_bit bytes.now at }
{
    match bytes.get((at / 8) as usize) {
        Some(byte) => *byte >> (at % 8) & 1 == 1,
        None => false,
    }
}

// Whether the block with this number is in use, or among those that come.
#[tactic(auto, unfolding(crate::specs::Growing::is_used))]
fn is_used(bits: &[u8], first: u64, end: u64, number: u64) -> bool
    ensures { result ≡ is_used first end bits.now number }
{
    (first <= number && number < end) || is_set(bits, number)
}

// This low bit of a byte, if it is set.
fn low_bit(set: bool, place: u64) -> u8
    requires { place < 8 }
    ensures { result ≡ (if set then 2 ^ place else 0) }
{
    if set { 1 << place } else { 0 }
}

// The bits of the eight blocks from this one on, the first one's low.
fn used_byte(bits: &[u8], first: u64, end: u64, at: u64) -> u8
    requires { at < 2 ^ 48 }
    ensures { result ≡ low_bits (λ k. is_used first end bits.now (at + k)) 8 }
{
    let mut byte = 0;
    for k in 0..8 {
        byte += low_bit(is_used(bits, first, end, at + k), k);
    }
    byte
}

// The bitmap of at least so many bytes, with the bits of the blocks from `first` on, below `end`.
pub fn used_bytes(
    alloc: Global,
    bits: &[u8],
    first: u64,
    end: u64,
    size: u64,
) -> Result<Bytes, AllocError>
    requires short { length bits.now ≤ 2 ^ 15 }
    requires size { size ≤ 2 ^ 16 }
    ensures value { IfOk result (λ bytes. bytes ≡ bytes_of_bits (is_used first end bits.now) (max (length bits.now) size)) }
    ensures short { IfOk result (λ bytes. length bytes ≤ 2 ^ 16) }
{
    let count = (bits.len() as u64).max(size);
    let mut bytes = Vec::with_capacity(alloc, count as usize)?;
    for j in 0..count {
        bytes.push(used_byte(bits, first, end, 8 * j))?;
    }
    Ok(Bytes::from(bytes))
}
