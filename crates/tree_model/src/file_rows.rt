//! What refuses an operation on a file.
ghost use Rattle.std.specs.Prelude.{◌≡◌, ◌<◌, ◌≤◌, ◌+◌, [], true, false, None, length, IfOk, IfSome, IfNone};
ghost use Rattle.file_tree.specs.utf16_name.Names.{name_fault};
ghost use Rattle.tree_model.specs.Needs.{changes_file, needed};
ghost use Rattle.file_tree.specs.Trees.{is_directory_kind};
ghost use Rattle.file_tree.specs.declared.node.Node.{Node as the_node};
ghost use Rattle.tree_model.specs.Refusals.{is_dots, new_name, parent_path, is_bad_new_path, parent_of, is_in_system, is_system_kind, is_system_node, fixed_names, has_same_name, written_from, written_to, too_long, table_full, most_records, more_records, no_space, first_of, change_rows, create_rows};
ghost use Rattle.tree_model.specs.Steps.{IsWithinBounds, is_given_up};
ghost use Rattle.tree_model.specs.declared.script.Op.TheVariants.{Create};

use crate::needs::{changes_file, needed_to_change, needed_to_create, reserve_of_change, shrinks};
use crate::plain::same_links;
use crate::reply::Reply;
use crate::script::Op;
use crate::stepping::{has_bad_part, is_directory_kind};
use file_tree::{FIRST_USER_RECORD, Kind, Link, Node, ROOT, Tree, Units, Why};
use std::alloc::{AllocError, Global};

// The most bytes that an operation writes, those of a gap among them.
const MOST_WRITTEN: u64 = 65_536;

// The most records of a file table after it grew.
const MOST_RECORDS: u64 = 1_048_576;

/// How many records the file table grows by.
pub const MORE_RECORDS: u64 = 256;

// A name of dots: the directory itself and the one above it.
fn is_dots(name: &[u16]) -> bool
    ensures { result ≡ is_dots name.now }
{
    match name {
        [a] => *a == 0x2E,
        [a, b] => *a == 0x2E && *b == 0x2E,
        _ => false,
    }
}

/// The last part of a path.
pub fn new_name(path: &[Units]) -> &[u16]
    requires { 0 < length path.now }
    ensures { result.now ≡ new_name path.now }
{
    path[path.len() - 1].as_slice()
}

/// The parts before the last.
pub fn parent_path(path: &[Units]) -> &[Units]
    requires { 0 < length path.now }
    ensures { result.now ≡ parent_path path.now }
{
    path.split_at(path.len() - 1).0
}

/// Whether no new name can stand at this path.
#[tactic(auto, using(crate::proofs::NewFiles::lawful_name), unfolding(crate::specs::Refusals::is_bad_new_path))]
pub fn is_bad_new_path(path: &[Units]) -> bool
    ensures value { result ≡ is_bad_new_path path.now }
    ensures part { result ≡ false → 0 < length path.now }
    ensures lawful { result ≡ false → name_fault (new_name path.now) ≡ None }
{
    path.len() == 0 || has_bad_part(path) || is_dots(new_name(path))
}

// The directory of a file's first name.
#[tactic(auto, unfolding(crate::specs::Refusals::parent_of))]
fn parent_of(links: &[Link], number: u64) -> Option<u64>
    ensures { result ≡ parent_of links.now number }
{
    let link = links.iter().find(|link| link.child.number == number)?;
    Some(link.parent.number)
}

/// Whether a directory of the volume itself stands on the way up from this one, of at most so many
/// steps. It takes time linear in the links for each step.
pub fn is_in_system(links: &[Link], most: usize, number: u64) -> bool
    ensures { result ≡ is_in_system links.now most number }
{
    let mut number = number;
    let mut left = most;
    while left > 0 {
        left -= 1;
        if number == ROOT {
            return false;
        }
        if number < FIRST_USER_RECORD {
            return true;
        }
        match parent_of(links, number) {
            Some(above) => number = above,
            None => return false,
        }
    }
    false
}

/// Whether it is the kind of a file of the volume itself.
pub fn is_system_kind(kind: Kind) -> bool
    ensures { result ≡ is_system_kind kind }
{
    kind == Kind::System
}

#[tactic(auto, unfolding(crate::specs::Refusals::is_system_node))]
fn is_system_node(tree: &Tree, node: &Node) -> bool
    ensures { result ≡ is_system_node tree.now.nodes tree.now.links node.now }
{
    if is_directory_kind(node.kind) {
        let nodes = tree.nodes.as_slice().len();
        is_in_system(tree.links.as_slice(), nodes, node.number)
    } else {
        is_system_kind(node.kind)
    }
}

/// What refuses each name made in or taken from a directory that can't be changed for this reason.
pub fn fixed_names(why: Option<Why>) -> Option<Reply>
    ensures value { result ≡ fixed_names why }
    ensures given { IfSome result (λ row. is_given_up row ≡ false) }
{
    match why {
        Some(Why::List) => Some(Reply::FixedBy { why: Why::List }),
        Some(Why::Reparse) => Some(Reply::FixedBy { why: Why::Reparse }),
        _ => None,
    }
}

fn written_from(op: &Op, node: &Node) -> u64
    ensures { result ≡ written_from op.now node.now }
{
    match op {
        Op::Write { offset, .. } => node.valid.min(*offset),
        Op::Fill { offset, .. } => node.valid.min(*offset),
        _ => node.valid,
    }
}

fn written_to(op: &Op) -> u64
    requires bounds { IsWithinBounds op.now }
    ensures value { (node : the_node) → result ≡ written_to op.now node }
{
    match op {
        Op::Write { offset, bytes, .. } => *offset + bytes.len() as u64,
        Op::Fill { offset, count, .. } => *offset + *count,
        Op::Truncate { size, .. } => *size,
        _ => 0,
    }
}

fn too_long(op: &Op, node: &Node) -> Option<Reply>
    requires bounds { IsWithinBounds op.now }
    ensures value { result ≡ too_long op.now node.now }
    ensures given { IfSome result (λ row. is_given_up row ≡ false) }
{
    let end = written_to(op);
    if !shrinks(op, node) && end.saturating_sub(written_from(op, node)) > MOST_WRITTEN {
        Some(Reply::TooLong { end })
    } else {
        None
    }
}

/// What refuses a new file where no number is spare and the file table can't grow. Of the tree it
/// asks for the count and whether a number is spare.
pub fn table_full(tree: &Tree) -> Option<Reply>
    ensures value { result ≡ table_full tree.now }
    ensures given { IfSome result (λ row. is_given_up row ≡ false) }
    ensures fits { IfNone result (length tree.now.spare ≡ 0 → tree.now.count + more_records ≤ most_records) }
{
    if tree.spare.as_slice().len() == 0 && tree.count > MOST_RECORDS - MORE_RECORDS {
        Some(Reply::MftFull {
            records: tree.count,
        })
    } else {
        None
    }
}

/// What refuses an operation that needs more clusters than are free. Of the tree it asks for the
/// room.
pub fn no_space(tree: &Tree, needed: u64) -> Option<Reply>
    ensures value { result ≡ no_space tree.now needed }
    ensures given { IfSome result (λ row. is_given_up row ≡ false) }
    ensures room { IfNone result (needed ≤ tree.now.room) }
{
    if tree.room < needed {
        Some(Reply::NoSpace {
            room: tree.room,
            needed,
        })
    } else {
        None
    }
}

/// What refuses a change of this file, behind the walk. Of a file that is no directory it asks the
/// tree for the room alone.
pub fn change_refusal(tree: &Tree, op: &Op, node: &Node) -> Option<Reply>
    requires bounds { IsWithinBounds op.now }
    requires journal { tree.now.journal ≡ None }
    ensures value { result ≡ first_of (change_rows tree.now 0 [] op.now node.now) }
    ensures given { IfSome result (λ row. is_given_up row ≡ false) }
    ensures room { IfNone result (changes_file op.now node.now ≡ true → needed tree.now 0 op.now node.now ≤ tree.now.room) }
{
    if is_directory_kind(node.kind) {
        return Some(Reply::IsDirectory);
    }
    if is_system_node(tree, node) {
        return Some(Reply::System);
    }
    if let Some(why) = node.why {
        return Some(Reply::FixedBy { why });
    }
    if !changes_file(op, node) {
        return None;
    }
    if let Some(reply) = too_long(op, node) {
        return Some(reply);
    }
    no_space(
        tree,
        needed_to_change(tree, op, node) + reserve_of_change(op, node),
    )
}

/// Whether a directory has a link of the same name. The error is want of memory.
#[tactic(auto, unfolding(crate::specs::Refusals::has_same_name))]
fn has_same_name(
    alloc: Global,
    upper: &[u16],
    links: &[Link],
    directory: u64,
    name: &[u16],
) -> Result<bool, AllocError>
    ensures { IfOk result (λ has. has ≡ has_same_name upper.now links.now directory name.now) }
{
    let same = same_links(alloc, upper, links, directory, name)?;
    Ok(same.len() > 0)
}

/// What refuses a new file in this directory, behind the walk. The error is want of memory.
#[tactic(auto, using(crate::proofs::FileNeeds::needs_of_create))]
pub fn create_refusal(
    alloc: Global,
    tree: &Tree,
    upper: &[u16],
    path: &[Units],
    directory: &Node,
) -> Result<Option<Reply>, AllocError>
    requires path { 0 < length path.now }
    requires journal { tree.now.journal ≡ None }
    ensures value { IfOk result (λ row. row ≡ first_of (create_rows upper.now tree.now 0 [] (Create path.now) (new_name path.now) directory.now)) }
    ensures given { IfOk result (λ row. IfSome row (λ r. is_given_up r ≡ false)) }
    ensures fits { IfOk result (λ row. IfNone row (length tree.now.spare ≡ 0 → tree.now.count + more_records ≤ most_records)) }
{
    if is_system_node(tree, directory) {
        return Ok(Some(Reply::System));
    }
    if let Some(reply) = fixed_names(directory.why) {
        return Ok(Some(reply));
    }
    let links = tree.links.as_slice();
    if has_same_name(alloc, upper, links, directory.number, new_name(path))? {
        return Ok(Some(Reply::Exists));
    }
    if let Some(reply) = table_full(tree) {
        return Ok(Some(reply));
    }
    Ok(no_space(tree, needed_to_create(tree) + 64))
}
