//! The place where a new file comes.
ghost use Rattle.std.specs.Prelude.{◌≡◌, ℕ, ◌+◌, List, ◌∷◌, [], Ok, None, true, false, is_some, IfOk, IfErr, IfSome};
ghost use Rattle.tree_lookup.specs.file_tree.declared.node.Node.{Node as the_node};
ghost use Rattle.host_base.specs.Answers.{GivesOrFails};
ghost use Rattle.tree_lookup.specs.utf16_name.Names.{name_fault};
ghost use Rattle.tree_lookup.specs.file_tree.Trees.{is_directory, is_directory_kind};
ghost use Rattle.tree_lookup.specs.tree_model.declared.reply.Reply.TheVariants as reply;
ghost use Rattle.tree_lookup.specs.tree_model.declared.script.Op.TheVariants.{Create};
ghost use Rattle.tree_lookup.specs.tree_model.Needs.{needed, reserve};
ghost use Rattle.tree_lookup.specs.tree_model.Refusals.{first_of, where_so, from_there, is_system_node, fixed_names, has_same_name, table_full, no_space, create_rows, is_bad_new_path, parent_path, new_name};
ghost use Rattle.tree_lookup.specs.tree_model.Steps.{is_given_up};
ghost use Rattle.tree_lookup.specs.tree_model.Walks.{reached_directory};
ghost use Rattle.tree_lookup.specs.Asked.{lookup_cause, AnswersOrFails, AsksTree};
ghost use Rattle.change_lookup.specs.Comes.{FindsPlace, IsPlaced, FindsBy, KeepsOn};
ghost use Rattle.change_lookup.specs.Counts.{counts_of};

use crate::census::Census;
use crate::counting::{counts_of, number_to_take};
use crate::found::Found;
use std::alloc::{AllocError, Global};
use tree_lookup::{
    FileRef, Link, LookupFault, Name, NameFault, Node, Reply, Tree, Units, fixed_names,
    is_bad_new_path, needed_to_create, new_name, no_space, parent_path, reached_directory,
    table_full,
};

// A lawful name, as one.
fn name_of(alloc: Global, name: &[u16]) -> Result<Name, LookupFault>
    requires { name_fault name.now ≡ None }
    ensures name { IfOk result (λ n. n ≡ name.now) }
    ensures fault { IfErr result (λ fault. fault ≡ LookupFault.Memory) }
{
    match Name::checked(alloc, name) {
        Ok(name) => Ok(name),
        Err(NameFault::Memory) => Err(LookupFault::Memory),
        Err(NameFault::BadUnit { .. }) => unreachable!(),
        Err(NameFault::Length { .. }) => unreachable!(),
        Err(NameFault::Text { .. }) => unreachable!(),
    }
}

// That the name is taken, by what was found of it.
fn exists_row(found: &Option<Link>) -> Option<Reply>
    ensures value { result ≡ where_so (is_some found.now) reply.Exists }
    ensures given { IfSome result (λ r. is_given_up r ≡ false) }
{
    match found {
        Some(_) => Some(Reply::Exists),
        None => None,
    }
}

// That a directory has the name.
fn taken_row<C: Census>(
    alloc: Global,
    tree: &mut C,
    directory: u64,
    name: &Name,
) -> Result<Option<Reply>, LookupFault>
    requires directory { IfSome (C.tree tree.old) (λ t. is_directory t.nodes directory ≡ true) }
    ensures value { IfSome (C.tree tree.old) (λ t. GivesOrFails (λ row. row) lookup_cause result (Ok (where_so (has_same_name (C.upper tree.old) t.links directory name.now) reply.Exists))) }
    ensures given { IfOk result (λ row. IfSome row (λ r. is_given_up r ≡ false)) }
    ensures asks { AsksTree C.tree C.upper C.kept C.faults tree.old tree.new result }
{
    let found = tree.link(alloc, directory, name)?;
    Ok(exists_row(&found))
}

// What refuses this name in this directory, behind the walk.
fn name_refusal<C: Census>(
    alloc: Global,
    tree: &mut C,
    directory: &Node,
    name: &Name,
) -> Result<Option<Reply>, LookupFault>
    requires kind { IfSome (C.tree tree.old) (λ t. is_directory_kind directory.now.kind ≡ true) }
    requires directory { IfSome (C.tree tree.old) (λ t. is_directory t.nodes directory.now.number ≡ true) }
    ensures value { IfSome (C.tree tree.old) (λ t. GivesOrFails (λ row. row) lookup_cause result (Ok (first_of (where_so (is_system_node t.nodes t.links directory.now) reply.System ∷ fixed_names directory.now.why ∷ where_so (has_same_name (C.upper tree.old) t.links directory.now.number name.now) reply.Exists ∷ [])))) }
    ensures given { IfOk result (λ row. IfSome row (λ r. is_given_up r ≡ false)) }
    ensures asks { AsksTree C.tree C.upper C.kept C.faults tree.old tree.new result }
{
    let system = tree.is_in_system(alloc, directory.number)?;
    if system {
        return Ok(Some(Reply::System));
    }
    match fixed_names(directory.why) {
        Some(reply) => Ok(Some(reply)),
        None => taken_row(alloc, tree, directory.number, name),
    }
}

// What refuses a new file for want of a number or of clusters.
fn room_refusal(counts: &Tree) -> Option<Reply>
    requires journal { counts.now.journal ≡ None }
    ensures value { (path : List (List ℕ)) (node : the_node) → result ≡ first_of (table_full counts.now ∷ no_space counts.now (needed counts.now 0 (Create path) node + reserve (Create path) node) ∷ []) }
    ensures given { IfSome result (λ row. is_given_up row ≡ false) }
{
    match table_full(counts) {
        Some(reply) => Some(reply),
        None => no_space(counts, needed_to_create(counts) + 64),
    }
}

// What a new file of this name comes to for want of a number or of clusters, or where it stands.
fn placed(
    alloc: Global,
    room: u64,
    count: u64,
    least: Option<FileRef>,
    directory: Node,
    name: Name,
) -> Result<Found, AllocError>
    ensures value { (path : List (List ℕ)) (node : the_node) → IfOk result (λ found. FindsBy (first_of (table_full (counts_of room count least) ∷ no_space (counts_of room count least) (needed (counts_of room count least) 0 (Create path) node + reserve (Create path) node) ∷ [])) (IsPlaced (counts_of room count least) directory name found) found) }
    ensures given { IfOk result KeepsOn }
{
    let counts = counts_of(alloc, room, count, least)?;
    match room_refusal(&counts) {
        Some(reply) => Ok(Found::Refused(reply)),
        None => {
            let number = number_to_take(room, count, least);
            Ok(Found::Place {
                directory,
                name,
                number,
            })
        }
    }
}

// What a new file of a lawful name comes to behind the rows of the name.
fn numbered<C: Census>(
    alloc: Global,
    tree: &mut C,
    name: Name,
    directory: Node,
) -> Result<Found, LookupFault>
    requires journal { IfSome (C.tree tree.old) (λ t. t.journal ≡ None) }
    ensures value { (path : List (List ℕ)) → IfSome (C.tree tree.old) (λ t. AnswersOrFails result (λ found. FindsBy (first_of (table_full t ∷ no_space t (needed t 0 (Create path) directory + reserve (Create path) directory) ∷ [])) (IsPlaced t directory name found) found)) }
    ensures given { IfOk result KeepsOn }
    ensures asks { AsksTree C.tree C.upper C.kept C.faults tree.old tree.new result }
{
    let least = tree.least_spare(alloc)?;
    Ok(placed(alloc, tree.room(), tree.count(), least, directory, name)?)
}

// What a new file in this directory comes to, behind the walk.
fn place_there<C: Census>(
    alloc: Global,
    tree: &mut C,
    name: Name,
    directory: Node,
) -> Result<Found, LookupFault>
    requires kind { IfSome (C.tree tree.old) (λ t. is_directory_kind directory.kind ≡ true) }
    requires directory { IfSome (C.tree tree.old) (λ t. is_directory t.nodes directory.number ≡ true) }
    requires journal { IfSome (C.tree tree.old) (λ t. t.journal ≡ None) }
    ensures value { (path : List (List ℕ)) → IfSome (C.tree tree.old) (λ t. AnswersOrFails result (λ found. FindsBy (first_of (create_rows (C.upper tree.old) t 0 [] (Create path) name directory)) (IsPlaced t directory name found) found)) }
    ensures given { IfOk result KeepsOn }
    ensures asks { AsksTree C.tree C.upper C.kept C.faults tree.old tree.new result }
{
    let row = name_refusal(alloc, tree, &directory, &name)?;
    match row {
        Some(reply) => Ok(Found::Refused(reply)),
        None => numbered(alloc, tree, name, directory),
    }
}

/// What a new file at this path comes to. It asks two questions for each part of the path, and four
/// more.
pub fn place_found<C: Census>(
    alloc: Global,
    tree: &mut C,
    path: &[Units],
) -> Result<Found, LookupFault>
    requires journal { IfSome (C.tree tree.old) (λ t. t.journal ≡ None) }
    ensures value { IfSome (C.tree tree.old) (λ t. AnswersOrFails result (λ found. FindsBy (first_of (where_so (is_bad_new_path path.now) reply.BadName ∷ from_there (reached_directory (C.upper tree.old) t.nodes t.links (parent_path path.now)) (create_rows (C.upper tree.old) t 0 [] (Create path.now) (new_name path.now)))) (FindsPlace (C.upper tree.old) t path.now found) found)) }
    ensures given { IfOk result KeepsOn }
    ensures asks { AsksTree C.tree C.upper C.kept C.faults tree.old tree.new result }
{
    if is_bad_new_path(path) {
        return Ok(Found::Refused(Reply::BadName));
    }
    let name = name_of(alloc, new_name(path))?;
    match reached_directory(alloc, tree, parent_path(path))? {
        Ok(directory) => place_there(alloc, tree, name, directory),
        Err(reply) => Ok(Found::Refused(reply)),
    }
}
