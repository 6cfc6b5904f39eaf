//! What the rows of a change ask of a tree beside its nodes and names.
ghost use Rattle.std.specs.Prelude.{◌≡◌, ◌++◌, [], Some, max, IfOk, OnOk};
ghost use Rattle.std.specs.List.{cons_option};
ghost use Rattle.tree_lookup.specs.file_tree.Walks.{first_user_record};
ghost use Rattle.tree_lookup.specs.tree_model.Effects.{numbers_to_take, least_ref};
ghost use Rattle.change_lookup.specs.Counts.{counts_of};

use std::alloc::{AllocError, Global};
use tree_lookup::{FIRST_USER_RECORD, FileRef, FileRefList, LinkList, NodeList, Tree};

fn push_some(list: &mut FileRefList, number: Option<FileRef>) -> Result<(), AllocError>
    ensures { OnOk result (list.new ≡ list.old ++ cons_option number []) }
{
    match number {
        Some(number) => list.push(number),
        None => Ok(()),
    }
}

// No number or one.
fn list_of(alloc: Global, number: Option<FileRef>) -> Result<FileRefList, AllocError>
    ensures { IfOk result (λ list. list ≡ cons_option number []) }
{
    let mut list = FileRefList::new(alloc);
    push_some(&mut list, number)?;
    Ok(list)
}

/// A tree of nothing but these counts: the free clusters, the records, and the least spare number,
/// if there is one. The error is want of memory.
pub fn counts_of(
    alloc: Global,
    room: u64,
    count: u64,
    least: Option<FileRef>,
) -> Result<Tree, AllocError>
    ensures { IfOk result (λ counts. counts ≡ counts_of room count least) }
{
    Ok(Tree {
        nodes: NodeList::new(alloc),
        links: LinkList::new(alloc),
        spare: list_of(alloc, least)?,
        count,
        journal: None,
        room,
    })
}

// The first number of a user's file from the end of the file table on.
fn first_new(count: u64) -> u64
    ensures { result ≡ max first_user_record count }
{
    count.max(FIRST_USER_RECORD)
}

/// The number that a new file gets: the least spare one, else the first of the records that come.
pub fn number_to_take(room: u64, count: u64, least: Option<FileRef>) -> FileRef
    ensures { least_ref (numbers_to_take (counts_of room count least)) ≡ Some result }
{
    let _ = room;
    match least {
        Some(number) => number,
        None => FileRef {
            number: first_new(count),
            seq: 1,
        },
    }
}
