//! The bytes of a file after an operation.
ghost use Rattle.std.specs.Prelude.{◌≡◌, ◌++◌, ◌+◌, ◌<◌, ◌^◌, if◌then◌else◌, nat_lt, replicate, min, length, take, drop, OnOk, IfOk};
ghost use Rattle.tree_model.specs.Effects.{put_at, zeros_up_to, bytes_after, valid_after};
ghost use Rattle.tree_model.specs.Steps.{IsWithinBounds};

use crate::script::Op;
use file_tree::{Bytes, Node};
use std::alloc::{AllocError, Global};

fn push_equal(list: &mut Vec<u8>, count: u64, byte: u8) -> Result<(), AllocError>
    ensures { OnOk result (list.new.items ≡ list.old.items ++ replicate count byte) }
{
    for i in 0..count {
        let _ = i;
        list.push(byte)?;
    }
    Ok(())
}

// The bytes before a place.
#[tactic(auto, using(std::proofs::lemmas::List::take_min))]
fn front(bytes: &[u8], place: u64) -> &[u8]
    ensures { result.now ≡ take place bytes.now }
{
    let whole = bytes.len() as u64;
    bytes.split_at(place.min(whole) as usize).0
}

/// The bytes from a place on.
#[tactic(auto, using(crate::proofs::Filling::drop_min))]
pub fn rest(bytes: &[u8], place: u64) -> &[u8]
    ensures { result.now ≡ drop place bytes.now }
{
    let whole = bytes.len() as u64;
    bytes.split_at(place.min(whole) as usize).1
}

// The first initialised bytes, and zeros from there on up to a place.
#[tactic(auto, unfolding(crate::specs::Effects::zeros_up_to))]
fn zeros_up_to(alloc: Global, bytes: &[u8], valid: u64, place: u64) -> Result<Vec<u8>, AllocError>
    ensures { IfOk result (λ list. list.items ≡ zeros_up_to bytes.now valid place) }
{
    let mut list = Vec::from_slice(alloc, front(bytes, place.min(valid)))?;
    push_equal(&mut list, place.saturating_sub(valid), 0)?;
    Ok(list)
}

// Bytes at an offset; a gap before them is zeros.
#[tactic(auto, unfolding(crate::specs::Effects::put_at))]
fn put_at(
    alloc: Global,
    bytes: &[u8],
    valid: u64,
    offset: u64,
    more: &[u8],
) -> Result<Vec<u8>, AllocError>
    requires { offset + length more.now < 2 ^ 64 }
    ensures { IfOk result (λ list. list.items ≡ put_at bytes.now valid offset more.now) }
{
    let mut list = zeros_up_to(alloc, bytes, valid, offset)?;
    list.extend_from_slice(more)?;
    list.extend_from_slice(rest(bytes, offset + more.len() as u64))?;
    Ok(list)
}

// So many equal bytes.
fn equal_bytes(alloc: Global, count: u64, byte: u8) -> Result<Vec<u8>, AllocError>
    ensures { IfOk result (λ list. list.items ≡ replicate count byte) }
{
    let mut list = Vec::new(alloc);
    push_equal(&mut list, count, byte)?;
    Ok(list)
}

fn cut(alloc: Global, node: &Node, size: u64) -> Result<Vec<u8>, AllocError>
    ensures { IfOk result (λ list. list.items ≡ (if nat_lt size node.now.size then take size node.now.bytes else zeros_up_to node.now.bytes node.now.valid size)) }
{
    if size < node.size {
        Vec::from_slice(alloc, front(node.bytes.as_slice(), size))
    } else {
        zeros_up_to(alloc, node.bytes.as_slice(), node.valid, size)
    }
}

/// The bytes of a file after an operation. The error is want of memory.
pub fn bytes_after(alloc: Global, op: &Op, node: &Node) -> Result<Bytes, AllocError>
    requires bounds { IsWithinBounds op.now }
    ensures { IfOk result (λ bytes. bytes ≡ bytes_after op.now node.now) }
{
    let bytes = node.bytes.as_slice();
    let list = match op {
        Op::Write {
            offset,
            bytes: more,
            ..
        } => put_at(alloc, bytes, node.valid, *offset, more.as_slice())?,
        Op::Fill {
            offset,
            count,
            byte,
            ..
        } => {
            let more = equal_bytes(alloc, *count, *byte)?;
            put_at(alloc, bytes, node.valid, *offset, &more)?
        }
        Op::Truncate { size, .. } => cut(alloc, node, *size)?,
        _ => return node.bytes.clone(),
    };
    Ok(Bytes::from(list))
}

/// How many bytes are initialised then.
pub fn valid_after(op: &Op, node: &Node) -> u64
    requires bounds { IsWithinBounds op.now }
    ensures { result ≡ valid_after op.now node.now }
{
    match op {
        Op::Write { offset, bytes, .. } => node.valid.max(*offset + bytes.len() as u64),
        Op::Fill { offset, count, .. } => node.valid.max(*offset + *count),
        Op::Truncate { size, .. } if *size < node.size => node.valid.min(*size),
        Op::Truncate { size, .. } => *size,
        _ => node.valid,
    }
}
