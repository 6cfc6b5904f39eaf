//! Indexes of a few names in memory: the bytes of their nodes, a view of their blocks, and where
//! they lie.
ghost use Rattle.std.specs.Prelude.{◌≡◌, length, IfOk};
ghost use Rattle.disk_model.specs.declared.block.BlockKind.TheVariants.{Index as index_block};

use block_view::{Block, BlockKind, Held, MemoryView};
use file_tree::LinkList;
use host_base::Bytes;
use index_tree::{BlockList, DirPlace};
use std::alloc::{AllocError, Global};

/// The byte of a child that says that there is none.
pub const NO: u8 = 0xff;

/// A key of the file with this number, with a name of one unit, and its child.
#[derive(Drop)]
pub struct Key(pub u8, pub u8, pub u8);

/// A node's keys, and the child of its last entry.
pub struct Spot(pub &'static [Key], pub u8);

/// An index block: the VCN that it has, whether it is torn, and its node.
pub struct Part(pub u8, pub bool, pub Spot);

/// Puts bytes from this place on, as far as there is room.
pub fn put(bytes: &mut [u8], from: usize, new: &[u8]) {
    for (i, byte) in new.iter().enumerate() {
        if i < bytes.len() && from < bytes.len() - i {
            bytes[from + i] = *byte;
        }
    }
}

// Appends an entry: a key of `file`, or the last one where `file` is 0.
fn push_entry(alloc: Global, out: &mut Vec<u8>, key: &Key) -> Result<(), AllocError> {
    let child = u8::from(key.2 != NO);
    let base = if key.0 == 0 { 0x10u8 } else { 0x58u8 };
    let size = if key.2 == NO { base } else { base + 8 };
    let mut entry = vec![in alloc; 0u8; usize::from(size)]?;
    let last = if key.0 == 0 { 2u8 } else { 0u8 };
    put(&mut entry, 0x08, &[size, 0, 0x44, 0, child | last]);
    if key.0 != 0 {
        put(&mut entry, 0x00, &[key.0, 0, 0, 0, 0, 0, 1]);
        put(&mut entry, 0x10, &[5, 0, 0, 0, 0, 0, 5]);
        put(&mut entry, 0x50, &[1, 0, key.1]);
    }
    if key.2 != NO {
        put(&mut entry, usize::from(base), &[key.2]);
    }
    out.extend_from_slice(&entry)
}

// The bytes of a node from its header on; its entries take fewer than 65,520 bytes.
fn node_of(alloc: Global, node: &Spot) -> Result<Vec<u8>, AllocError> {
    let mut out = vec![in alloc; 0u8; 0x10]?;
    let mut children = u8::from(node.1 != NO);
    for key in node.0 {
        children |= u8::from(key.2 != NO);
        push_entry(alloc, &mut out, key)?;
    }
    push_entry(alloc, &mut out, &Key(0, 0, node.1))?;
    let low = (out.len() % 256) as u8;
    let high = (out.len() / 256 % 256) as u8;
    put(
        &mut out,
        0,
        &[0x10, 0, 0, 0, low, high, 0, 0, low, high, 0, 0, children],
    );
    Ok(out)
}

// The body of an index block.
fn body_of(alloc: Global, vcn: u8, node: &[u8]) -> Result<Vec<u8>, AllocError>
    ensures { IfOk result (λ body. length body.items ≡ 4096) }
{
    let mut body = vec![in alloc; 0u8; 4096]?;
    put(&mut body, 0x00, b"INDX");
    put(&mut body, 0x10, &[vcn]);
    put(&mut body, 0x18, node);
    Ok(body)
}

/// The block that stands at this place.
pub fn block(i: usize) -> Block
    ensures { result.kind ≡ index_block }
{
    Block {
        first: (i as u64).wrapping_mul(8),
        kind: BlockKind::Index,
    }
}

/// The view of an index of these blocks whose call with this number fails.
pub fn view_of(alloc: Global, parts: &[Part], failing: u64) -> Result<MemoryView, AllocError> {
    let mut held = Vec::new(alloc);
    for (i, part) in parts.iter().enumerate() {
        let body = body_of(alloc, part.0, &node_of(alloc, &part.2)?)?;
        held.push(Held {
            block: block(i),
            bytes: Bytes::from(body),
            torn: part.1,
        })?;
    }
    Ok(MemoryView::new(held, Vec::from_slice(alloc, &[failing])?))
}

/// The place of an index with this root and so many blocks, two VCNs each.
pub fn place_of(alloc: Global, root: &Spot, count: usize) -> Result<DirPlace, AllocError> {
    let mut value = Vec::from_slice(
        alloc,
        &[0x30, 0, 0, 0, 1, 0, 0, 0, 0, 0x10, 0, 0, 8, 0, 0, 0],
    )?;
    value.extend_from_slice(&node_of(alloc, root)?)?;
    let mut blocks = Vec::new(alloc);
    for i in 0..count {
        blocks.push(block(i))?;
    }
    Ok(DirPlace {
        root: Bytes::from(value),
        blocks: BlockList::of_blocks(alloc, blocks),
        step: 2,
        used: 0,
    })
}

/// The files of links, by their numbers.
pub fn files(alloc: Global, links: &LinkList) -> Result<Vec<u64>, AllocError> {
    let mut numbers = Vec::new(alloc);
    for link in links.as_slice() {
        numbers.push(link.child.number)?;
    }
    Ok(numbers)
}
