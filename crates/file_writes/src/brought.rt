//! The bytes that an operation brings, and those of a value after it.
ghost use Rattle.std.specs.Prelude.{◌≡◌, ◌+◌, ◌<◌, ◌^◌, ◌++◌, if◌then◌else◌, nat_lt, replicate, length, take, drop, IfOk};
ghost use Rattle.tree_model.specs.Effects.{put_at, zeros_up_to, bytes_after};
ghost use Rattle.tree_model.specs.Steps.{IsWithinBounds};
ghost use Rattle.file_puts.specs.plan_changes.Bytes.{place_of, put_of};
ghost use Rattle.file_puts.specs.Puts.{with_bytes};

use file_tree::Node;
use std::alloc::{AllocError, Global};
use tree_model::Op;

// So many equal bytes.
fn equal_bytes(alloc: Global, count: u64, byte: u8) -> Result<Vec<u8>, AllocError>
    ensures { IfOk result (λ list. list.items ≡ replicate count byte) }
{
    vec![in alloc; byte; count as usize]
}

// The bytes before a place.
#[tactic(auto, using(std::proofs::lemmas::List::take_min))]
fn front(bytes: &[u8], place: u64) -> &[u8]
    ensures { result.now ≡ take place bytes.now }
{
    let whole = bytes.len() as u64;
    bytes.split_at(place.min(whole) as usize).0
}

// The bytes from a place on.
#[tactic(auto, using(tree_model::proofs::Filling::drop_min))]
fn rest(bytes: &[u8], place: u64) -> &[u8]
    ensures { result.now ≡ drop place bytes.now }
{
    let whole = bytes.len() as u64;
    bytes.split_at(place.min(whole) as usize).1
}

// The first initialised bytes, and zeros from there on up to a place.
#[tactic(auto, unfolding(tree_model::specs::Effects::zeros_up_to))]
fn zeros_up_to(alloc: Global, bytes: &[u8], valid: u64, place: u64) -> Result<Vec<u8>, AllocError>
    ensures { IfOk result (λ list. list.items ≡ zeros_up_to bytes.now valid place) }
{
    let mut list = Vec::from_slice(alloc, front(bytes, place.min(valid)))?;
    let zeros = equal_bytes(alloc, place.saturating_sub(valid), 0)?;
    list.extend_from_slice(&zeros)?;
    Ok(list)
}

// Bytes at an offset; a gap before them is zeros.
#[tactic(auto, unfolding(tree_model::specs::Effects::put_at))]
fn put_at(
    alloc: Global,
    bytes: &[u8],
    valid: u64,
    offset: u64,
    more: &[u8],
) -> Result<Vec<u8>, AllocError>
    requires { offset + length more.now < 2 ^ 64 }
    ensures { IfOk result (λ list. list.items ≡ put_at bytes.now valid offset more.now) }
{
    let mut list = zeros_up_to(alloc, bytes, valid, offset)?;
    list.extend_from_slice(more)?;
    list.extend_from_slice(rest(bytes, offset + more.len() as u64))?;
    Ok(list)
}

// The bytes of a value that comes to have another size.
fn resized(alloc: Global, value: &[u8], node: &Node, size: u64) -> Result<Vec<u8>, AllocError>
    ensures { IfOk result (λ list. list.items ≡ (if nat_lt size node.now.size then take size value.now else zeros_up_to value.now node.now.valid size)) }
{
    if size < node.size {
        Vec::from_slice(alloc, front(value, size))
    } else {
        zeros_up_to(alloc, value, node.valid, size)
    }
}

/// The bytes of a file after an operation, where it has these before. The error is want of memory.
pub fn bytes_after(alloc: Global, op: &Op, node: &Node, value: &[u8]) -> Result<Vec<u8>, AllocError>
    requires bounds { IsWithinBounds op.now }
    ensures { IfOk result (λ list. list.items ≡ bytes_after op.now (with_bytes value.now node.now)) }
{
    match op {
        Op::Write { offset, bytes, .. } => {
            put_at(alloc, value, node.valid, *offset, bytes.as_slice())
        }
        Op::Fill {
            offset,
            count,
            byte,
            ..
        } => {
            let more = equal_bytes(alloc, *count, *byte)?;
            put_at(alloc, value, node.valid, *offset, &more)
        }
        Op::Truncate { size, .. } => resized(alloc, value, node, *size),
        _ => Vec::from_slice(alloc, value),
    }
}

/// Where the bytes that an operation puts begin.
pub fn place_of(op: &Op, node: &Node) -> u64
    ensures { result ≡ place_of op.now node.now }
{
    match op {
        Op::Write { offset, .. } => (*offset).min(node.valid),
        Op::Fill { offset, .. } => (*offset).min(node.valid),
        _ => node.valid,
    }
}

// So many zeros, and bytes behind them.
fn behind_zeros(alloc: Global, count: u64, more: &[u8]) -> Result<Vec<u8>, AllocError>
    ensures { IfOk result (λ list. list.items ≡ replicate count 0 ++ more.now) }
{
    let mut list = equal_bytes(alloc, count, 0)?;
    list.extend_from_slice(more)?;
    Ok(list)
}

/// The bytes that an operation puts: zeros up to its offset, and those that it brings. The error is
/// want of memory.
pub fn put_of(alloc: Global, op: &Op, node: &Node) -> Result<Vec<u8>, AllocError>
    ensures { IfOk result (λ list. list.items ≡ put_of op.now node.now) }
{
    match op {
        Op::Write { offset, bytes, .. } => {
            behind_zeros(alloc, offset.saturating_sub(node.valid), bytes.as_slice())
        }
        Op::Fill {
            offset,
            count,
            byte,
            ..
        } => {
            let more = equal_bytes(alloc, *count, *byte)?;
            behind_zeros(alloc, offset.saturating_sub(node.valid), &more)
        }
        Op::Truncate { size, .. } => equal_bytes(alloc, size.saturating_sub(node.valid), 0),
        _ => Ok(Vec::new(alloc)),
    }
}
