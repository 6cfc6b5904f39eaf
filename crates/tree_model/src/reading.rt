//! What a read of a node's bytes is answered.
ghost use Rattle.std.specs.Prelude.{◌≡◌, false, length, List, IfOk, IfSome};
ghost use Rattle.file_tree.specs.declared.node.Node.{Node as the_node};
ghost use Rattle.file_tree.specs.declared.link.Link.{Link as the_link};
ghost use Rattle.tree_model.specs.Fronts.{front_of, count_read, bytes_read};
ghost use Rattle.tree_model.specs.Refusals.{fixed_list, fixed_read, read_rows, first_of};
ghost use Rattle.tree_model.specs.Steps.{is_given_up};

use crate::file_bytes::rest;
use crate::file_rows::is_system_kind;
use crate::reply::Reply;
use crate::stepping::is_directory_kind;
use file_tree::{Bytes, Kind, Node, Why};
use std::alloc::{AllocError, Global};

fn fixed_list(kind: Kind) -> Option<Reply>
    ensures value { result ≡ fixed_list kind }
    ensures given { IfSome result (λ row. is_given_up row ≡ false) }
{
    match kind {
        Kind::Opaque => Some(Reply::FixedBy { why: Why::List }),
        _ => None,
    }
}

fn fixed_read(why: Option<Why>, kind: Kind) -> Option<Reply>
    ensures value { result ≡ fixed_read why kind }
    ensures given { IfSome result (λ row. is_given_up row ≡ false) }
{
    match why {
        Some(Why::List) => fixed_list(kind),
        Some(Why::Reparse) => Some(Reply::FixedBy { why: Why::Reparse }),
        Some(Why::Encrypted) => Some(Reply::FixedBy {
            why: Why::Encrypted,
        }),
        Some(Why::Compressed) => Some(Reply::FixedBy {
            why: Why::Compressed,
        }),
        _ => None,
    }
}

/// What refuses a read of this node, behind the walk: its kind and what fixes it say so, whatever
/// tree it is a node of.
#[tactic(auto, unfolding(crate::specs::Refusals::is_system_node))]
pub fn read_refusal(node: &Node) -> Option<Reply>
    ensures value { (nodes : List the_node) (links : List the_link) → result ≡ first_of (read_rows nodes links node.now) }
    ensures given { IfSome result (λ row. is_given_up row ≡ false) }
{
    if is_directory_kind(node.kind) {
        return Some(Reply::IsDirectory);
    }
    if is_system_kind(node.kind) {
        return Some(Reply::System);
    }
    fixed_read(node.why, node.kind)
}

/// Of so many bytes from an offset on, how many stand below a size.
pub fn count_read(size: u64, offset: u64, count: u64) -> u64
    ensures { result ≡ count_read size offset count }
{
    count.min(size.saturating_sub(offset))
}

/// Makes `out` these bytes from an offset on, and zeros behind the last one.
pub fn front_into(bytes: &[u8], offset: u64, out: &mut [u8])
    ensures { out.new ≡ front_of bytes.now offset (length out.old) }
{
    let rest = rest(bytes, offset);
    let count = rest.len().min(out.len());
    let (front, behind) = out.split_at_mut(count);
    front.copy_from_slice(rest.split_at(count).0);
    behind.fill(0);
}

/// The bytes of a node from an offset on, at most so many, up to its size. The error is want of
/// memory.
pub fn bytes_read(alloc: Global, node: &Node, offset: u64, count: u64) -> Result<Bytes, AllocError>
    ensures { IfOk result (λ bytes. bytes ≡ bytes_read node.now offset count) }
{
    let count = count_read(node.size, offset, count);
    let mut list = vec![in alloc; 0u8; count as usize]?;
    front_into(node.bytes.as_slice(), offset, &mut list);
    Ok(Bytes::from(list))
}
