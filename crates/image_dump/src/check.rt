//! What a check says of a tree.
ghost use Rattle.std.specs.Prelude.{◌≡◌, ◌++◌, IfOk, OnOk, OnErr, string_bytes};
ghost use Rattle.image_dump.specs.Texts.{check_text};

use file_tree::Tree;
use host_base::Memory;
use std::alloc::{AllocError, Global};

#[tactic(auto, unfolding(crate::specs::Texts::check_text))]
fn line_of_tree(alloc: Global, tree: &Tree) -> Result<String, AllocError>
    ensures { IfOk result (λ text. string_bytes text ≡ check_text tree.now) }
{
    let nodes = tree.nodes.as_slice().len();
    let links = tree.links.as_slice().len();
    let room = tree.room;
    match &tree.journal {
        Some(journal) => {
            let (first, next) = (journal.first, journal.next);
            format!(in alloc; "ok nodes {nodes} links {links} room {room} journal {first} {next}\n")
        }
        None => format!(in alloc; "ok nodes {nodes} links {links} room {room} journal -\n"),
    }
}

/// Appends the line `ok nodes N links L room R journal FIRST NEXT`: how many nodes there are, how
/// many links, the long and the short ones, how many free clusters, and the bytes where the journal
/// begins and goes on, or `journal -` at the end where there is none. The error is want of memory,
/// and leaves `out` as it was.
pub fn check_text(tree: &Tree, out: &mut String) -> Result<(), Memory>
    ensures value { OnOk result
        (string_bytes out.new ≡ string_bytes out.old ++ check_text tree.now) }
    ensures unchanged { OnErr result (string_bytes out.new ≡ string_bytes out.old) }
{
    let line = line_of_tree(*out.allocator(), tree)?;
    out.push_str(&line)?;
    Ok(())
}
