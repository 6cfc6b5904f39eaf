//! The file that a path names, to be written or cut.
ghost use Rattle.std.specs.Prelude.{◌≡◌, ◌∷◌, [], None, IfOk, IfSome};
ghost use Rattle.tree_lookup.specs.tree_model.Needs.{changes_file};
ghost use Rattle.tree_lookup.specs.tree_model.Refusals.{first_of, from_there, change_rows};
ghost use Rattle.tree_lookup.specs.tree_model.Steps.{IsWithinBounds};
ghost use Rattle.tree_lookup.specs.tree_model.Walks.{reached, bad_name};
ghost use Rattle.tree_lookup.specs.Asked.{AnswersOrFails, AsksTree};
ghost use Rattle.change_lookup.specs.Comes.{FindsFile, FindsBy, KeepsOn};
ghost use Rattle.change_lookup.specs.declared.found.Found.TheVariants.{File};

use crate::census::Census;
use crate::counting::counts_of;
use crate::found::Found;
use std::alloc::Global;
use tree_lookup::{
    LookupFault, Node, Op, Reply, Units, change_refusal, changes_file, has_bad_part, reached,
};

// What a change of this node comes to, behind the walk.
fn changed_there<C: Census>(
    alloc: Global,
    tree: &mut C,
    op: &Op,
    node: Node,
) -> Result<Found, LookupFault>
    requires bounds { IsWithinBounds op.now }
    requires journal { IfSome (C.tree tree.old) (λ t. t.journal ≡ None) }
    ensures value { IfSome (C.tree tree.old) (λ t. AnswersOrFails result (λ found. FindsBy (first_of (change_rows t 0 [] op.now node)) (found ≡ File node (changes_file op.now node)) found)) }
    ensures given { IfOk result KeepsOn }
    ensures asks { AsksTree C.tree C.upper C.kept C.faults tree.old tree.new result }
{
    let counts = counts_of(alloc, tree.room(), tree.count(), None)?;
    match change_refusal(&counts, op, &node) {
        Some(reply) => Ok(Found::Refused(reply)),
        None => {
            let changes = changes_file(op, &node);
            Ok(Found::File { node, changes })
        }
    }
}

/// What a change of the file at this path comes to. It asks two questions for each part of the
/// path, and one more.
pub fn file_found<C: Census>(
    alloc: Global,
    tree: &mut C,
    op: &Op,
    path: &[Units],
) -> Result<Found, LookupFault>
    requires bounds { IsWithinBounds op.now }
    requires journal { IfSome (C.tree tree.old) (λ t. t.journal ≡ None) }
    ensures value { IfSome (C.tree tree.old) (λ t. AnswersOrFails result (λ found. FindsBy (first_of (bad_name path.now ∷ from_there (reached (C.upper tree.old) t.nodes t.links path.now) (change_rows t 0 [] op.now))) (FindsFile (C.upper tree.old) t path.now op.now found) found)) }
    ensures given { IfOk result KeepsOn }
    ensures asks { AsksTree C.tree C.upper C.kept C.faults tree.old tree.new result }
{
    if has_bad_part(path) {
        return Ok(Found::Refused(Reply::BadName));
    }
    match reached(alloc, tree, path)? {
        Ok(node) => changed_there(alloc, tree, op, node),
        Err(reply) => Ok(Found::Refused(reply)),
    }
}
