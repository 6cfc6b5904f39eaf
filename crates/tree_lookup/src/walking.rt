//! The walk of a path from the root, by questions.
ghost use Rattle.std.specs.Prelude.{◌≡◌, ◌+◌, ◌<◌, ◌^◌, Ok, true, false, IfOk, IfErr, IfSome};
ghost use Rattle.host_base.specs.Answers.{GivesOrFails};
ghost use Rattle.file_tree.specs.Trees.{node_at, is_directory, is_directory_kind};
ghost use Rattle.file_tree.specs.Walks.{child_in, is_bad_part, has_bad_part};
ghost use Rattle.tree_model.specs.Steps.{is_given_up};
ghost use Rattle.tree_model.specs.Walks.{some_or, entered, reached, reached_directory};
ghost use Rattle.tree_lookup.specs.Asked.{lookup_cause, AsksTree};
ghost use Rattle.tree_lookup.specs.Answered.{bare_result};

use crate::fault::LookupFault;
use crate::looking::Lookup;
use file_tree::{NameFault, ROOT};
use std::alloc::Global;
use tree_model::{Kind, Name, Node, Reply, Units};

/// Whether it is the kind of a directory.
pub fn is_directory_kind(kind: Kind) -> bool
    ensures { result ≡ is_directory_kind kind }
{
    kind == Kind::Directory
}

#[tactic(auto, unfolding(file_tree::specs::Trees::is_directory, crate::specs::Asked::bare_at))]
fn is_directory<L: Lookup>(alloc: Global, tree: &mut L, number: u64) -> Result<bool, LookupFault>
    ensures value { IfSome (L.tree tree.old) (λ t. GivesOrFails (λ is. is) lookup_cause result (Ok (is_directory t.nodes number))) }
    ensures asks { AsksTree L.tree L.upper L.kept L.faults tree.old tree.new result }
{
    match tree.node(alloc, number)? {
        Some(node) => Ok(is_directory_kind(node.kind)),
        None => Ok(false),
    }
}

// A part that is a name, as one.
fn name_of(alloc: Global, part: &[u16]) -> Result<Name, LookupFault>
    requires { is_bad_part part.now ≡ false }
    ensures name { IfOk result (λ name. name ≡ part.now) }
    ensures fault { IfErr result (λ fault. fault ≡ LookupFault.Memory) }
{
    match Name::checked(alloc, part) {
        Ok(name) => Ok(name),
        Err(NameFault::Memory) => Err(LookupFault::Memory),
        Err(NameFault::BadUnit { .. }) => unreachable!(),
        Err(NameFault::Length { .. }) => unreachable!(),
        Err(NameFault::Text { .. }) => unreachable!(),
    }
}

// The number that a part leads to in a directory, or that it isn't found.
fn child_of<L: Lookup>(
    alloc: Global,
    tree: &mut L,
    at: u64,
    directory: u64,
    part: &Name,
) -> Result<Result<u64, Reply>, LookupFault>
    requires at { at + 1 < 2 ^ 64 }
    requires directory { IfSome (L.tree tree.old) (λ t. is_directory t.nodes directory ≡ true) }
    ensures value { IfSome (L.tree tree.old) (λ t. GivesOrFails (λ child. child) lookup_cause result (Ok (some_or (child_in (L.upper tree.old) t.links directory part.now) (Reply.NotFound (at + 1))))) }
    ensures given { IfOk result (λ child. IfErr child (λ reply. is_given_up reply ≡ false)) }
    ensures asks { AsksTree L.tree L.upper L.kept L.faults tree.old tree.new result }
{
    match tree.link(alloc, directory, part)? {
        Some(link) => Ok(Ok(link.child.number)),
        None => Ok(Err(Reply::NotFound { part: at + 1 })),
    }
}

// The number that a part leads to from the node that the part before it named, or what ends the
// walk there.
#[tactic(auto, unfolding(tree_model::specs::Walks::entered))]
fn entered<L: Lookup>(
    alloc: Global,
    tree: &mut L,
    at: u64,
    number: u64,
    part: &[u16],
) -> Result<Result<u64, Reply>, LookupFault>
    requires at { at + 1 < 2 ^ 64 }
    requires name { is_bad_part part.now ≡ false }
    ensures value { IfSome (L.tree tree.old) (λ t. GivesOrFails (λ child. child) lookup_cause result (Ok (entered (L.upper tree.old) t.nodes t.links at number part.now))) }
    ensures given { IfOk result (λ child. IfErr child (λ reply. is_given_up reply ≡ false)) }
    ensures asks { AsksTree L.tree L.upper L.kept L.faults tree.old tree.new result }
{
    if !is_directory(alloc, tree, number)? {
        return Ok(Err(Reply::NotDirectory { part: at }));
    }
    let name = name_of(alloc, part)?;
    child_of(alloc, tree, at, number, &name)
}

// The node with this number, to which so many parts led.
fn last_node<L: Lookup>(
    alloc: Global,
    tree: &mut L,
    number: u64,
    parts: u64,
) -> Result<Result<Node, Reply>, LookupFault>
    ensures value { IfSome (L.tree tree.old) (λ t. GivesOrFails (λ node. node) lookup_cause result (Ok (bare_result (some_or (node_at t.nodes number) (Reply.NotFound parts))))) }
    ensures given { IfOk result (λ node. IfErr node (λ reply. is_given_up reply ≡ false)) }
    ensures asks { AsksTree L.tree L.upper L.kept L.faults tree.old tree.new result }
{
    match tree.node(alloc, number)? {
        Some(node) => Ok(Ok(node)),
        None => Ok(Err(Reply::NotFound { part: parts })),
    }
}

/// The node that a path of names leads to, without its bytes, or what ends the walk. It asks two
/// questions for each part, and one more.
pub fn reached<L: Lookup>(
    alloc: Global,
    tree: &mut L,
    path: &[Units],
) -> Result<Result<Node, Reply>, LookupFault>
    requires names { has_bad_part path.now ≡ false }
    ensures value { IfSome (L.tree tree.old) (λ t. GivesOrFails (λ node. node) lookup_cause result (Ok (bare_result (reached (L.upper tree.old) t.nodes t.links path.now)))) }
    ensures given { IfOk result (λ node. IfErr node (λ reply. is_given_up reply ≡ false)) }
    ensures asks { AsksTree L.tree L.upper L.kept L.faults tree.old tree.new result }
{
    let mut number = ROOT;
    for (at, part) in path.iter().enumerate() {
        match entered(alloc, tree, at as u64, number, part.as_slice())? {
            Ok(child) => number = child,
            Err(reply) => return Ok(Err(reply)),
        }
    }
    last_node(alloc, tree, number, path.len() as u64)
}

/// The directory that a path of names leads to, without its bytes, or what ends the walk. It asks
/// two questions for each part, and one more.
#[tactic(auto, unfolding(tree_model::specs::Walks::reached_directory))]
pub fn reached_directory<L: Lookup>(
    alloc: Global,
    tree: &mut L,
    path: &[Units],
) -> Result<Result<Node, Reply>, LookupFault>
    requires names { has_bad_part path.now ≡ false }
    ensures value { IfSome (L.tree tree.old) (λ t. GivesOrFails (λ node. node) lookup_cause result (Ok (bare_result (reached_directory (L.upper tree.old) t.nodes t.links path.now)))) }
    ensures given { IfOk result (λ node. IfErr node (λ reply. is_given_up reply ≡ false)) }
    ensures asks { AsksTree L.tree L.upper L.kept L.faults tree.old tree.new result }
{
    match reached(alloc, tree, path)? {
        Err(reply) => Ok(Err(reply)),
        Ok(node) if is_directory_kind(node.kind) => Ok(Ok(node)),
        Ok(_) => Ok(Err(Reply::NotDirectory {
            part: path.len() as u64,
        })),
    }
}
