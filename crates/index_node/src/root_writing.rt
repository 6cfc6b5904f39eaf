ghost use Rattle.std.specs.Prelude.{◌≡◌, ◌+◌, ◌++◌, ◌-◌, ◌≤◌, ◌<◌, IfOk, length};
ghost use Rattle.disk_model.specs.Bytes.{part, written};
ghost use Rattle.record_model.specs.Nodes.{children_of, node_spelling, FitsNode};
ghost use Rattle.index_node.specs.Roots.{root_head, root_spelling, HaveSpelling};

use crate::Node;
use crate::root_spelling::children_of;
use disk_model::{Bytes, put_bytes, put_u32};
use record_model::EntryList;
use std::alloc::{AllocError, Global};

// Where a root's entries begin.
const HEAD: usize = 0x20;

// Where a block's entries begin.
const BLOCK_HEAD: usize = 0x40;

// Puts the first 0x20 bytes.
fn put_head(out: &mut [u8], clusters: u8, used: u32, flag: u8)
    requires { 0x20 ≤ length out.old }
    ensures { out.new ≡ written 0 (root_head clusters used flag) out.old }
{
    put_u32(out, 0x00, 0x30);
    put_u32(out, 0x04, 1);
    put_u32(out, 0x08, 4096);
    put_bytes(out, 0x0c, &[clusters, 0, 0, 0]);
    put_u32(out, 0x10, 0x10);
    put_u32(out, 0x14, used);
    put_u32(out, 0x18, used);
    put_bytes(out, 0x1c, &[flag, 0, 0, 0]);
}

// The node as a block's body.
fn body_of(alloc: Global, node: &Node) -> Result<Vec<u8>, AllocError>
    requires { FitsNode node.now }
    ensures { IfOk result (λ body. body.items ≡ node_spelling node.now) }
{
    let mut body = vec![in alloc; 0u8; 4096]?;
    node.write(&mut body);
    Ok(body)
}

// Puts a root whose entries have these bytes.
#[tactic(auto, using(crate::proofs::RootSpelled::root_put))]
fn put_root(out: &mut [u8], clusters: u8, flag: u8, entries: &[u8])
    requires room { 0x20 + length entries.now ≡ length out.old }
    requires small { length entries.now ≤ 8192 }
    ensures { out.new ≡ root_head clusters (0x10 + length entries.now) flag ++ entries.now }
{
    put_head(out, clusters, 0x10 + entries.len() as u32, flag);
    put_bytes(out, HEAD, entries);
}

// A root whose entries have so many bytes, which lie in a block's body.
fn root_of(
    alloc: Global,
    clusters: u8,
    flag: u8,
    bytes: usize,
    body: &[u8],
) -> Result<Vec<u8>, AllocError>
    requires inside { 0x40 + bytes ≤ length body.now }
    requires small { bytes ≤ 8192 }
    ensures { IfOk result (λ value. value.items ≡ root_head clusters (0x10 + bytes) flag ++ part 0x40 bytes body.now) }
{
    let mut value = vec![in alloc; 0u8; HEAD + bytes]?;
    let entries = body.split_at(BLOCK_HEAD).1.split_at(bytes).0;
    put_root(value.as_mut_slice(), clusters, flag, entries);
    Ok(value)
}

/// The value of an index root with these entries (Linux-NTFS documentation, "$INDEX_ROOT"), for
/// index blocks of 4,096 bytes that have so many clusters, as byte 0x0C says. The last
/// entry has no key. The error is want of memory. Linear in the bytes.
pub fn write_root(alloc: Global, clusters: u8, entries: EntryList) -> Result<Bytes, AllocError>
    requires { HaveSpelling entries }
    ensures value { IfOk result (λ value. value ≡ root_spelling clusters entries) }
{
    let node = Node::new(0, entries);
    let body = body_of(alloc, &node)?;
    let bytes = node.used() as usize - 0x28;
    let flag = children_of(node.entries().as_slice());
    let value = root_of(alloc, clusters, flag, bytes, &body)?;
    Ok(Bytes::from(value))
}
