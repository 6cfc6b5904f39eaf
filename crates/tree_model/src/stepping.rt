ghost use Rattle.std.specs.Prelude.{◌≡◌, true, ◌≢◌, ◌<◌, ◌^◌, ◌+◌, List, IfOk, length};
ghost use Rattle.file_tree.specs.host_base.Answers.{Gives};
ghost use Rattle.file_tree.specs.Trees.{is_directory, is_directory_kind};
ghost use Rattle.file_tree.specs.declared.node.Node.{Node as the_node};
ghost use Rattle.file_tree.specs.declared.link.Link.{Link as the_link};
ghost use Rattle.tree_model.specs.Fronts.{bytes_read};
ghost use Rattle.tree_model.specs.Refusals.{first_of, read_rows};
ghost use Rattle.tree_model.specs.Walks.{entered, reached, reached_directory};
ghost use Rattle.file_tree.specs.Walks.{has_bad_part};
ghost use Rattle.tree_model.specs.Steps.{is_look, stat_of, reply_cause, Lists, Replies, RepliesBy, IsWithinBounds, HasStep, IsStep};

use crate::filing::change;
use crate::making::create;
use crate::path::Path;
use crate::plain::Plain;
use crate::reading::{bytes_read, read_refusal};
use crate::reply::Reply;
use crate::script::Op;
use file_tree::{Kind, Memory, Node, ROOT, Tree, Units, check};
use std::alloc::{AllocError, Global};

impl From<AllocError> for Reply {
    ghost use Rattle.std.specs.Prelude.{◌≡◌};
    ghost use Rattle.tree_model.specs.declared.reply.Reply.TheVariants.{Memory as no_memory};

    ghost from_gives = { λ _ e. e ≡ no_memory };

    fn from(_: AllocError) -> Self {
        Reply::Memory
    }
}

/// Whether it is the kind of a directory.
pub fn is_directory_kind(kind: Kind) -> bool
    ensures { result ≡ is_directory_kind kind }
{
    kind == Kind::Directory
}

#[tactic(auto, unfolding(file_tree::specs::Trees::is_directory))]
fn is_directory(tree: &Plain, number: u64) -> bool
    ensures { result ≡ is_directory tree.now.tree.now.nodes number }
{
    match tree.node(number) {
        Some(node) => is_directory_kind(node.kind),
        None => false,
    }
}

// The number that a part leads to.
#[tactic(auto, unfolding(crate::specs::Walks::entered))]
fn entered(alloc: Global, tree: &Plain, at: u64, number: u64, part: &[u16]) -> Result<u64, Reply>
    requires { at + 1 < 2 ^ 64 }
    ensures { Gives (λ child. child) reply_cause result (entered tree.now.upper.now tree.now.tree.now.nodes tree.now.tree.now.links at number part.now) }
{
    if !is_directory(tree, number) {
        return Err(Reply::NotDirectory { part: at });
    }
    match tree.child(alloc, number, part)? {
        Some(child) => Ok(child),
        None => Err(Reply::NotFound { part: at + 1 }),
    }
}

/// The node that a path names, or what ends the walk.
#[tactic(auto, unfolding(crate::specs::Walks::reached, crate::specs::Walks::walk))]
pub fn reached<'a>(alloc: Global, tree: &Plain<'a>, path: &[Units]) -> Result<&'a Node, Reply>
    ensures { Gives (λ node. node.now) reply_cause result (reached tree.now.upper.now tree.now.tree.now.nodes tree.now.tree.now.links path.now) }
{
    let mut number = ROOT;
    for (at, part) in path.iter().enumerate() {
        number = entered(alloc, tree, at as u64, number, part.as_slice())?;
    }
    match tree.node(number) {
        Some(node) => Ok(node),
        None => Err(Reply::NotFound {
            part: path.len() as u64,
        }),
    }
}

/// The directory that a path names, or what ends the walk.
#[tactic(auto, unfolding(crate::specs::Walks::reached_directory))]
pub fn reached_directory<'a>(
    alloc: Global,
    tree: &Plain<'a>,
    path: &[Units],
) -> Result<&'a Node, Reply>
    ensures { Gives (λ node. node.now) reply_cause result (reached_directory tree.now.upper.now tree.now.tree.now.nodes tree.now.tree.now.links path.now) }
{
    let node = reached(alloc, tree, path)?;
    if !is_directory_kind(node.kind) {
        return Err(Reply::NotDirectory {
            part: path.len() as u64,
        });
    }
    Ok(node)
}

/// Whether a part of the path is no name.
#[tactic(auto, unfolding(file_tree::specs::Walks::has_bad_part))]
pub fn has_bad_part(path: &[Units]) -> bool
    ensures { result ≡ has_bad_part path.now }
{
    path.iter().any(|part| check(part.as_slice()).is_some())
}

#[tactic(auto, unfolding(crate::specs::Steps::stat_of))]
fn stat_of(tree: &Plain, node: &Node) -> Reply
    ensures { result ≡ stat_of tree.now.tree.now.links node.now }
{
    Reply::Stat {
        number: node.number,
        seq: node.seq,
        kind: node.kind,
        links: tree.long_names_of(node.number),
        size: node.size,
        clusters: node.clusters,
        created: node.created,
        modified: node.modified,
        changed: node.changed,
        read_at: node.read_at,
    }
}

#[tactic(auto, using(crate::proofs::Refusing::refused_by_cause), unfolding(crate::specs::Steps::refusal, crate::specs::Steps::stat_of))]
fn stat(alloc: Global, tree: &Plain, path: &Path) -> Reply
    ensures value { result ≢ Reply.Memory → Replies tree.now.upper.now tree.now.tree.now.nodes tree.now.tree.now.links (Op.Stat path.now) result }
    ensures fault { result ≢ Reply.Fault }
{
    if has_bad_part(path.as_slice()) {
        return Reply::BadName;
    }
    match reached(alloc, tree, path.as_slice()) {
        Ok(node) => stat_of(tree, node),
        Err(reply) => reply,
    }
}

// The long names of a directory, as a reply.
fn names_in(alloc: Global, tree: &Plain, directory: u64) -> Reply
    ensures value { result ≢ Reply.Memory → Lists tree.now.upper.now tree.now.tree.now.links directory result }
    ensures fault { result ≢ Reply.Fault }
{
    match tree.listing(alloc, directory) {
        Ok(names) => Reply::Names { names },
        Err(_) => Reply::Memory,
    }
}

#[tactic(auto, using(crate::proofs::Refusing::refused_by_cause), unfolding(crate::specs::Steps::refusal))]
fn list(alloc: Global, tree: &Plain, path: &Path) -> Reply
    ensures value { result ≢ Reply.Memory → Replies tree.now.upper.now tree.now.tree.now.nodes tree.now.tree.now.links (Op.List path.now) result }
    ensures fault { result ≢ Reply.Fault }
{
    if has_bad_part(path.as_slice()) {
        return Reply::BadName;
    }
    match reached_directory(alloc, tree, path.as_slice()) {
        Ok(node) => names_in(alloc, tree, node.number),
        Err(reply) => reply,
    }
}

// What is answered to a read of this node, behind the walk.
#[tactic(auto, using(crate::proofs::Joining::no_fault))]
fn read_there(alloc: Global, node: &Node, offset: u64, count: u64) -> Reply
    ensures value { result ≢ Reply.Memory → (nodes : List the_node) (links : List the_link) → RepliesBy (first_of (read_rows nodes links node.now)) (result ≡ Reply.Bytes (bytes_read node.now offset count)) result }
    ensures fault { result ≢ Reply.Fault }
{
    if let Some(reply) = read_refusal(node) {
        return reply;
    }
    match bytes_read(alloc, node, offset, count) {
        Ok(bytes) => Reply::Bytes { bytes },
        Err(_) => Reply::Memory,
    }
}

#[tactic(auto, using(crate::proofs::Refusing::walk_ends), unfolding(crate::specs::Steps::refusal))]
fn read(alloc: Global, tree: &Plain, path: &Path, offset: u64, count: u64) -> Reply
    ensures value { result ≢ Reply.Memory → Replies tree.now.upper.now tree.now.tree.now.nodes tree.now.tree.now.links (Op.Read path.now offset count) result }
    ensures fault { result ≢ Reply.Fault }
{
    if has_bad_part(path.as_slice()) {
        return Reply::BadName;
    }
    match reached(alloc, tree, path.as_slice()) {
        Ok(node) => read_there(alloc, node, offset, count),
        Err(reply) => reply,
    }
}

// What is answered to an operation that changes nothing: the first refusal that applies, else what
// it asks for; or `Memory` for want of memory.
fn answer(alloc: Global, tree: &Plain, op: &Op) -> Reply
    requires looks { is_look op.now ≡ true }
    ensures value { result ≢ Reply.Memory → Replies tree.now.upper.now tree.now.tree.now.nodes tree.now.tree.now.links op.now result }
    ensures fault { result ≢ Reply.Fault }
{
    match op {
        Op::Stat { path } => stat(alloc, tree, path),
        Op::List { path } => list(alloc, tree, path),
        Op::Read {
            path,
            offset,
            count,
        } => read(alloc, tree, path, *offset, *count),
        _ => unreachable!(),
    }
}

// The step of an operation that only looks.
fn look(
    alloc: Global,
    tree: &Tree,
    upper: &[u16],
    op: &Op,
    stamp: u64,
) -> Result<(Tree, Reply), Memory>
    requires looks { is_look op.now ≡ true }
    ensures value { IfOk result (λ step. IsStep upper.now op.now stamp step.1 tree.now step.0) }
    ensures given { IfOk result (λ step. (step.1 ≢ Reply.Memory) × (step.1 ≢ Reply.Fault)) }
{
    let _ = stamp;
    match answer(alloc, &Plain { upper, tree }, op) {
        Reply::Memory => Err(Memory),
        reply => Ok((tree.clone()?, reply)),
    }
}

/// One step of the tree, by going through its lists at each question: a plain program to compare
/// others with. It looks, and on a tree without a journal it makes, writes and cuts files. `upper`
/// gives each of the 65,536 units its upper-case unit; `stamp` is the time of the step, in 100 ns
/// since 1601-01-01. The error is want of memory. It copies the tree, and takes time linear in the
/// tree for each part of the path.
#[tactic(auto, using(crate::proofs::Joining::is_step, crate::proofs::Joining::no_memory, crate::proofs::Joining::no_fault))]
pub fn step(
    alloc: Global,
    tree: &Tree,
    upper: &[u16],
    op: &Op,
    stamp: u64,
) -> Result<(Tree, Reply), Memory>
    requires table { length upper.now ≡ 65536 }
    requires early { stamp < 2 ^ 63 }
    requires bounds { IsWithinBounds op.now }
    requires steps { HasStep op.now tree.now }
    ensures value { IfOk result (λ step. IsStep upper.now op.now stamp step.1 tree.now step.0) }
    ensures given { IfOk result (λ step. (step.1 ≢ Reply.Memory) × (step.1 ≢ Reply.Fault)) }
{
    match op {
        Op::Create { path } => create(alloc, tree, upper, path.as_slice(), stamp),
        Op::Write { path, bytes, .. } => {
            let said = Reply::Wrote {
                count: bytes.len() as u64,
            };
            change(alloc, tree, upper, path.as_slice(), op, said, stamp)
        }
        Op::Fill { path, count, .. } => {
            let said = Reply::Wrote { count: *count };
            change(alloc, tree, upper, path.as_slice(), op, said, stamp)
        }
        Op::Truncate { path, size } => {
            let said = Reply::Size { size: *size };
            change(alloc, tree, upper, path.as_slice(), op, said, stamp)
        }
        Op::Stat { .. } | Op::List { .. } | Op::Read { .. } => look(alloc, tree, upper, op, stamp),
        _ => unreachable!(),
    }
}
