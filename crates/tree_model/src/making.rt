//! Steps that make a file, on plain lists.
ghost use Rattle.std.specs.Prelude.{◌≡◌, ◌+◌, ◌<◌, ◌≤◌, ◌^◌, ◌∷◌, [], ◌==◌, false, not, None, Some, IfOk, IsSomeAnd, List, ℕ, length, filter, if◌then◌else◌};
ghost use Rattle.std.specs.List.Sorted.{IsPermutation};
ghost use Rattle.file_tree.specs.host_base.declared.file_ref.FileRef.{FileRef as the_ref};
ghost use Rattle.file_tree.specs.utf16_name.Names.{name_fault};
ghost use Rattle.file_tree.specs.Trees.{node_at};
ghost use Rattle.tree_model.specs.declared.script.Op.TheVariants.{Create};
ghost use Rattle.tree_model.specs.declared.reply.Reply.TheVariants.{Created, BadName};
ghost use Rattle.tree_model.specs.Needs.{needed};
ghost use Rattle.tree_model.specs.Refusals.{new_name, parent_path, is_bad_new_path, where_so, first_of, from_there, create_rows, most_records, more_records};
ghost use Rattle.tree_model.specs.Effects.{HasCreated, with_node, renewed, new_file, new_link, ref_at, new_numbers, numbers_to_take, count_to_take, least_ref};
ghost use Rattle.tree_model.specs.Steps.{StepsBy, IsCreated, is_given_up};
ghost use Rattle.tree_model.specs.Walks.{reached_directory};

use crate::file_effects::{least_ref, new_file, renewed, with_node};
use crate::file_rows::{MORE_RECORDS, create_refusal, is_bad_new_path, new_name, parent_path};
use crate::needs::needed_to_create;
use crate::plain::Plain;
use crate::reply::Reply;
use crate::stepping::reached_directory;
use file_tree::{
    FIRST_USER_RECORD, FileRef, FileRefList, Link, LinkList, Memory, Name, NameFault, Node,
    NodeList, Tree, Units,
};
use std::alloc::{AllocError, Global};

// The numbers that come where none is spare.
#[tactic(auto, using(crate::proofs::NewFiles::one_number), unfolding(crate::specs::Effects::new_numbers))]
fn new_numbers(alloc: Global, count: u64) -> Result<FileRefList, AllocError>
    requires { count + 256 < 2 ^ 64 }
    ensures { IfOk result (λ list. list ≡ new_numbers count) }
{
    let mut list = FileRefList::new(alloc);
    let first = count.max(FIRST_USER_RECORD);
    for i in 0..count + MORE_RECORDS - first {
        list.push(FileRef {
            number: first + i,
            seq: 1,
        })?;
    }
    Ok(list)
}

// The numbers that a new file may get.
fn numbers_to_take(alloc: Global, tree: &Tree) -> Result<FileRefList, AllocError>
    requires fits { length tree.now.spare ≡ 0 → tree.now.count + more_records ≤ most_records }
    ensures { IfOk result (λ list. list ≡ numbers_to_take tree.now) }
{
    if tree.spare.as_slice().len() == 0 {
        new_numbers(alloc, tree.count)
    } else {
        tree.spare.clone()
    }
}

// How many records the file table has then.
fn count_to_take(tree: &Tree) -> u64
    requires fits { length tree.now.spare ≡ 0 → tree.now.count + more_records ≤ most_records }
    ensures { result ≡ count_to_take tree.now }
{
    if tree.spare.as_slice().len() == 0 {
        tree.count + MORE_RECORDS
    } else {
        tree.count
    }
}

// The references with another number.
fn others(alloc: Global, refs: &[FileRef], number: u64) -> Result<FileRefList, AllocError>
    ensures { IfOk result (λ list. list ≡ filter (λ (r : the_ref). not (r.number == number)) refs.now) }
{
    let mut list = FileRefList::new(alloc);
    for reference in refs {
        if reference.number != number {
            list.push(*reference)?;
        }
    }
    Ok(list)
}

// The references without this number.
#[tactic(auto, using(crate::proofs::ByNumber::ref_gone))]
fn without(alloc: Global, refs: &[FileRef], number: u64) -> Result<FileRefList, AllocError>
    ensures { IfOk result (λ list. (n : ℕ) → ref_at list n ≡ (if n == number then None else ref_at refs.now n)) }
{
    others(alloc, refs, number)
}

// The nodes with a new file, and with its directory changed.
#[tactic(auto, using(crate::proofs::ByNumber::both_put))]
fn nodes_after(
    alloc: Global,
    nodes: &[Node],
    directory: &Node,
    number: FileRef,
    stamp: u64,
) -> Result<NodeList, AllocError>
    ensures { IfOk result (λ list. (n : ℕ) → node_at list n ≡ with_node (new_file number stamp) (with_node (renewed directory.now stamp) (node_at nodes.now)) n) }
{
    let nodes = with_node(alloc, nodes, renewed(directory, stamp)?)?;
    with_node(alloc, nodes.as_slice(), new_file(alloc, number, stamp))
}

// The links with this one among them.
#[tactic(auto, using(crate::proofs::NewFiles::one_more))]
fn with_link(links: &LinkList, link: Link) -> Result<LinkList, AllocError>
    ensures { IfOk result (λ list. IsPermutation (link ∷ links.now) list) }
{
    let mut list = links.clone()?;
    list.push(link)?;
    Ok(list)
}

// The name of a new file in its directory.
#[tactic(auto, using(crate::proofs::NewFiles::is_no_fault))]
fn new_link(alloc: Global, directory: &Node, name: &[u16], number: FileRef) -> Result<Link, Memory>
    requires lawful { name_fault name.now ≡ None }
    ensures { IfOk result (λ link. link ≡ new_link directory.now name.now number) }
{
    match Name::checked(alloc, name) {
        Ok(name) => Ok(Link {
            parent: FileRef {
                number: directory.number,
                seq: directory.seq,
            },
            name,
            space: 0,
            child: number,
        }),
        Err(NameFault::Memory) => Err(Memory),
        Err(_) => unreachable!(),
    }
}

// The tree with a new file at this number.
fn created_tree(
    alloc: Global,
    tree: &Tree,
    directory: &Node,
    name: &[u16],
    numbers: &[FileRef],
    number: FileRef,
    stamp: u64,
) -> Result<Tree, Memory>
    requires fits { length tree.now.spare ≡ 0 → tree.now.count + more_records ≤ most_records }
    requires lawful { name_fault name.now ≡ None }
    requires journal { tree.now.journal ≡ None }
    requires numbers { numbers.now ≡ numbers_to_take tree.now }
    ensures { IfOk result (λ t. (path : List (List ℕ)) → HasCreated tree.now (needed tree.now 0 (Create path) directory.now) stamp directory.now name.now number t) }
{
    let link = new_link(alloc, directory, name, number)?;
    Ok(Tree {
        nodes: nodes_after(alloc, tree.nodes.as_slice(), directory, number, stamp)?,
        links: with_link(&tree.links, link)?,
        spare: without(alloc, numbers, number.number)?,
        count: count_to_take(tree),
        journal: None,
        room: tree.room.saturating_sub(needed_to_create(tree)),
    })
}

// A new file at this number.
fn created_at(
    alloc: Global,
    tree: &Tree,
    path: &[Units],
    directory: &Node,
    numbers: &[FileRef],
    number: FileRef,
    stamp: u64,
) -> Result<(Tree, Reply), Memory>
    requires path { 0 < length path.now }
    requires lawful { name_fault (new_name path.now) ≡ None }
    requires journal { tree.now.journal ≡ None }
    requires fits { length tree.now.spare ≡ 0 → tree.now.count + more_records ≤ most_records }
    requires numbers { numbers.now ≡ numbers_to_take tree.now }
    ensures value { IfOk result (λ s. (s.1 ≡ Created number.number number.seq) × HasCreated tree.now (needed tree.now 0 (Create path.now) directory.now) stamp directory.now (new_name path.now) number s.0) }
    ensures given { IfOk result (λ s. is_given_up s.1 ≡ false) }
{
    let name = new_name(path);
    let new = created_tree(alloc, tree, directory, name, numbers, number, stamp)?;
    Ok((
        new,
        Reply::Created {
            number: number.number,
            seq: number.seq,
        },
    ))
}

// A new file at the least number.
fn created_least(
    alloc: Global,
    tree: &Tree,
    path: &[Units],
    directory: &Node,
    numbers: &[FileRef],
    number: FileRef,
    stamp: u64,
) -> Result<(Tree, Reply), Memory>
    requires path { 0 < length path.now }
    requires lawful { name_fault (new_name path.now) ≡ None }
    requires journal { tree.now.journal ≡ None }
    requires fits { length tree.now.spare ≡ 0 → tree.now.count + more_records ≤ most_records }
    requires numbers { numbers.now ≡ numbers_to_take tree.now }
    requires least { least_ref (numbers_to_take tree.now) ≡ Some number }
    ensures value { IfOk result (λ s. IsSomeAnd (least_ref (numbers_to_take tree.now)) (λ ref. (s.1 ≡ Created ref.number ref.seq) × HasCreated tree.now (needed tree.now 0 (Create path.now) directory.now) stamp directory.now (new_name path.now) ref s.0)) }
    ensures given { IfOk result (λ s. is_given_up s.1 ≡ false) }
{
    created_at(alloc, tree, path, directory, numbers, number, stamp)
}

// A new file in this directory, where nothing refuses it.
#[tactic(auto, using(crate::proofs::NewFiles::some_number))]
fn created(
    alloc: Global,
    tree: &Tree,
    path: &[Units],
    directory: &Node,
    stamp: u64,
) -> Result<(Tree, Reply), Memory>
    requires path { 0 < length path.now }
    requires lawful { name_fault (new_name path.now) ≡ None }
    requires journal { tree.now.journal ≡ None }
    requires fits { length tree.now.spare ≡ 0 → tree.now.count + more_records ≤ most_records }
    ensures value { IfOk result (λ s. IsSomeAnd (least_ref (numbers_to_take tree.now)) (λ ref. (s.1 ≡ Created ref.number ref.seq) × HasCreated tree.now (needed tree.now 0 (Create path.now) directory.now) stamp directory.now (new_name path.now) ref s.0)) }
    ensures given { IfOk result (λ s. is_given_up s.1 ≡ false) }
{
    let list = numbers_to_take(alloc, tree)?;
    let numbers = list.as_slice();
    let Some(number) = least_ref(numbers) else {
        unreachable!()
    };
    created_least(alloc, tree, path, directory, numbers, number, stamp)
}

// A new file, behind the walk.
fn create_there(
    alloc: Global,
    tree: &Tree,
    upper: &[u16],
    path: &[Units],
    directory: &Node,
    stamp: u64,
) -> Result<(Tree, Reply), Memory>
    requires path { 0 < length path.now }
    requires lawful { name_fault (new_name path.now) ≡ None }
    requires journal { tree.now.journal ≡ None }
    ensures value { IfOk result (λ s. StepsBy (first_of (create_rows upper.now tree.now 0 [] (Create path.now) (new_name path.now) directory.now)) (IsSomeAnd (least_ref (numbers_to_take tree.now)) (λ ref. (s.1 ≡ Created ref.number ref.seq) × HasCreated tree.now (needed tree.now 0 (Create path.now) directory.now) stamp directory.now (new_name path.now) ref s.0)) s.1 tree.now s.0) }
    ensures given { IfOk result (λ s. is_given_up s.1 ≡ false) }
{
    match create_refusal(alloc, tree, upper, path, directory)? {
        Some(reply) => Ok((tree.clone()?, reply)),
        None => created(alloc, tree, path, directory, stamp),
    }
}

/// What is answered to a new file at this time, and the tree that it leaves. The error is want of
/// memory.
#[tactic(auto, using(crate::proofs::Refusing::walk_ends, crate::proofs::Refusing::walk_given))]
pub fn create(
    alloc: Global,
    tree: &Tree,
    upper: &[u16],
    path: &[Units],
    stamp: u64,
) -> Result<(Tree, Reply), Memory>
    requires journal { tree.now.journal ≡ None }
    ensures value { IfOk result (λ s. StepsBy (first_of (where_so (is_bad_new_path path.now) BadName ∷ from_there (reached_directory upper.now tree.now.nodes tree.now.links (parent_path path.now)) (create_rows upper.now tree.now 0 [] (Create path.now) (new_name path.now)))) (IsCreated upper.now path.now 0 stamp s.1 tree.now s.0) s.1 tree.now s.0) }
    ensures given { IfOk result (λ s. is_given_up s.1 ≡ false) }
{
    if is_bad_new_path(path) {
        return Ok((tree.clone()?, Reply::BadName));
    }
    match reached_directory(alloc, &Plain { upper, tree }, parent_path(path)) {
        Ok(directory) => create_there(alloc, tree, upper, path, directory, stamp),
        Err(Reply::Memory) => Err(Memory),
        Err(reply) => Ok((tree.clone()?, reply)),
    }
}
