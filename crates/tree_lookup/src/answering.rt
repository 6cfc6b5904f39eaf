//! What an operation that only looks is answered.
ghost use Rattle.std.specs.Prelude.{◌≡◌, ℕ, true, false, IfOk, IfSome};
ghost use Rattle.file_tree.specs.Trees.{is_directory};
ghost use Rattle.file_tree.specs.Walks.{has_bad_part};
ghost use Rattle.tree_model.specs.declared.script.Op.TheVariants as op_of;
ghost use Rattle.tree_model.specs.Steps.{is_look, is_given_up, stat_of, Lists, Replies, RepliesBy, IsStep};
ghost use Rattle.tree_model.specs.Refusals.{first_of, read_rows};
ghost use Rattle.tree_lookup.specs.Asked.{AnswersOrFails, AsksTree};
ghost use Rattle.tree_lookup.specs.Answered.{IsRead, LooksAt};

use crate::fault::LookupFault;
use crate::looking::Lookup;
use crate::walking::{reached, reached_directory};
use file_tree::check;
use host_base::Bytes;
use std::alloc::Global;
use tree_model::{Node, Op, Path, Reply, Units, count_read, read_refusal};

/// Whether a part of the path is no name.
#[tactic(auto, unfolding(file_tree::specs::Walks::has_bad_part))]
pub fn has_bad_part(path: &[Units]) -> bool
    ensures { result ≡ has_bad_part path.now }
{
    path.iter().any(|part| check(part.as_slice()).is_some())
}

// What is told of a node.
#[tactic(auto, unfolding(tree_model::specs::Steps::stat_of))]
fn stat_of<L: Lookup>(alloc: Global, tree: &mut L, node: &Node) -> Result<Reply, LookupFault>
    ensures value { IfSome (L.tree tree.old) (λ t. AnswersOrFails result (λ reply. reply ≡ stat_of t.links node.now)) }
    ensures given { IfOk result (λ reply. is_given_up reply ≡ false) }
    ensures asks { AsksTree L.tree L.upper L.kept L.faults tree.old tree.new result }
{
    Ok(Reply::Stat {
        number: node.number,
        seq: node.seq,
        kind: node.kind,
        links: tree.long_names_of(alloc, node.number)?,
        size: node.size,
        clusters: node.clusters,
        created: node.created,
        modified: node.modified,
        changed: node.changed,
        read_at: node.read_at,
    })
}

fn stat<L: Lookup>(alloc: Global, tree: &mut L, path: &Path) -> Result<Reply, LookupFault>
    ensures value { IfSome (L.tree tree.old) (λ t. AnswersOrFails result (λ reply. Replies (L.upper tree.old) t.nodes t.links (op_of.Stat path.now) reply)) }
    ensures given { IfOk result (λ reply. is_given_up reply ≡ false) }
    ensures asks { AsksTree L.tree L.upper L.kept L.faults tree.old tree.new result }
{
    if has_bad_part(path.as_slice()) {
        return Ok(Reply::BadName);
    }
    match reached(alloc, tree, path.as_slice())? {
        Ok(node) => stat_of(alloc, tree, &node),
        Err(reply) => Ok(reply),
    }
}

// The long names of a directory, as a reply.
fn names_in<L: Lookup>(alloc: Global, tree: &mut L, directory: u64) -> Result<Reply, LookupFault>
    requires directory { IfSome (L.tree tree.old) (λ t. is_directory t.nodes directory ≡ true) }
    ensures value { IfSome (L.tree tree.old) (λ t. AnswersOrFails result (λ reply. Lists (L.upper tree.old) t.links directory reply)) }
    ensures given { IfOk result (λ reply. is_given_up reply ≡ false) }
    ensures asks { AsksTree L.tree L.upper L.kept L.faults tree.old tree.new result }
{
    Ok(Reply::Names {
        names: tree.listing(alloc, directory)?,
    })
}

fn list<L: Lookup>(alloc: Global, tree: &mut L, path: &Path) -> Result<Reply, LookupFault>
    ensures value { IfSome (L.tree tree.old) (λ t. AnswersOrFails result (λ reply. Replies (L.upper tree.old) t.nodes t.links (op_of.List path.now) reply)) }
    ensures given { IfOk result (λ reply. is_given_up reply ≡ false) }
    ensures asks { AsksTree L.tree L.upper L.kept L.faults tree.old tree.new result }
{
    if has_bad_part(path.as_slice()) {
        return Ok(Reply::BadName);
    }
    match reached_directory(alloc, tree, path.as_slice())? {
        Ok(node) => names_in(alloc, tree, node.number),
        Err(reply) => Ok(reply),
    }
}

// Bytes of a node from an offset on, up to its size, as a reply.
fn bytes_from<L: Lookup>(
    alloc: Global,
    tree: &mut L,
    node: &Node,
    offset: u64,
    count: u64,
) -> Result<Reply, LookupFault>
    ensures value { IfSome (L.tree tree.old) (λ t. AnswersOrFails result (λ reply. IsRead t.nodes node.now offset count reply)) }
    ensures given { IfOk result (λ reply. is_given_up reply ≡ false) }
    ensures asks { AsksTree L.tree L.upper L.kept L.faults tree.old tree.new result }
{
    let count = count_read(node.size, offset, count);
    let mut list = vec![in alloc; 0u8; count as usize]?;
    tree.front(alloc, node.number, offset, &mut list)?;
    Ok(Reply::Bytes {
        bytes: Bytes::from(list),
    })
}

// What is replied to a read of this node, behind the walk.
fn read_there<L: Lookup>(
    alloc: Global,
    tree: &mut L,
    node: &Node,
    offset: u64,
    count: u64,
) -> Result<Reply, LookupFault>
    ensures value { IfSome (L.tree tree.old) (λ t. AnswersOrFails result (λ reply. RepliesBy (first_of (read_rows t.nodes t.links node.now)) (IsRead t.nodes node.now offset count reply) reply)) }
    ensures given { IfOk result (λ reply. is_given_up reply ≡ false) }
    ensures asks { AsksTree L.tree L.upper L.kept L.faults tree.old tree.new result }
{
    match read_refusal(node) {
        Some(reply) => Ok(reply),
        None => bytes_from(alloc, tree, node, offset, count),
    }
}

fn read<L: Lookup>(
    alloc: Global,
    tree: &mut L,
    path: &Path,
    offset: u64,
    count: u64,
) -> Result<Reply, LookupFault>
    ensures value { IfSome (L.tree tree.old) (λ t. AnswersOrFails result (λ reply. Replies (L.upper tree.old) t.nodes t.links (op_of.Read path.now offset count) reply)) }
    ensures given { IfOk result (λ reply. is_given_up reply ≡ false) }
    ensures asks { AsksTree L.tree L.upper L.kept L.faults tree.old tree.new result }
{
    if has_bad_part(path.as_slice()) {
        return Ok(Reply::BadName);
    }
    match reached(alloc, tree, path.as_slice())? {
        Ok(node) => read_there(alloc, tree, &node, offset, count),
        Err(reply) => Ok(reply),
    }
}

/// What is answered to an operation that changes nothing: the first refusal that applies, else what
/// it asks for. It asks the tree two questions for each part of the path, and one or two more.
///
/// - [`LookupFault::Outside`]: what is behind the tree failed, and counts it.
/// - [`LookupFault::Memory`]: there is no memory left.
/// - [`LookupFault::Broken`]: what was read is part of no tree; never where the tree is known.
pub fn looked<L: Lookup>(alloc: Global, tree: &mut L, op: &Op) -> Result<Reply, LookupFault>
    requires looks { is_look op.now ≡ true }
    ensures value { IfSome (L.tree tree.old) (λ t. AnswersOrFails result (λ reply. Replies (L.upper tree.old) t.nodes t.links op.now reply)) }
    ensures given { IfOk result (λ reply. is_given_up reply ≡ false) }
    ensures asks { AsksTree L.tree L.upper L.kept L.faults tree.old tree.new result }
{
    match op {
        Op::Stat { path } => stat(alloc, tree, path),
        Op::List { path } => list(alloc, tree, path),
        Op::Read {
            path,
            offset,
            count,
        } => read(alloc, tree, path, *offset, *count),
        _ => unreachable!(),
    }
}

/// What is answered to an operation that changes nothing: the first refusal that applies, else what
/// it asks for; `Fault` where what is behind the tree failed, and `Memory` for want of memory. It
/// asks the tree two questions for each part of the path, and one or two more.
pub fn answer<L: Lookup>(alloc: Global, tree: &mut L, op: &Op) -> Reply
    requires looks { is_look op.now ≡ true }
    ensures value { IfSome (L.tree tree.old) (λ t. is_given_up result ≡ false → Replies (L.upper tree.old) t.nodes t.links op.now result) }
    ensures step { IfSome (L.tree tree.old) (λ t. (stamp : ℕ) → IsStep (L.upper tree.old) op.now stamp result t t) }
    ensures looks { LooksAt L.tree L.upper L.kept L.faults tree.old tree.new result }
{
    match looked(alloc, tree, op) {
        Ok(reply) => reply,
        Err(LookupFault::Memory) => Reply::Memory,
        Err(LookupFault::Outside) => Reply::Fault,
        Err(LookupFault::Broken) => Reply::Fault,
    }
}
