//! What an operation that makes, writes or cuts a file comes to.
ghost use Rattle.std.specs.Prelude.{◌≡◌, None, true, IfOk, IfSome};
ghost use Rattle.tree_lookup.specs.tree_model.Steps.{IsWithinBounds};
ghost use Rattle.tree_lookup.specs.Asked.{AnswersOrFails, AsksTree};
ghost use Rattle.change_lookup.specs.Comes.{is_file_change, ComesTo, KeepsOn};

use crate::census::Census;
use crate::files::file_found;
use crate::found::Found;
use crate::places::place_found;
use std::alloc::Global;
use tree_lookup::{LookupFault, Op};

/// What an operation that makes, writes or cuts a file comes to on a tree without a journal: the
/// first row that refuses it, exactly where there is one; else the file that is written or cut, or
/// the place of the new file. It asks two questions for each part of the path and at most four
/// more.
///
/// - [`LookupFault::Outside`]: what is behind the tree failed, and counts it.
/// - [`LookupFault::Memory`]: there is no memory left.
/// - [`LookupFault::Broken`]: what was read is part of no tree; never where the tree is known.
pub fn change_found<C: Census>(alloc: Global, tree: &mut C, op: &Op) -> Result<Found, LookupFault>
    requires changes { is_file_change op.now ≡ true }
    requires bounds { IsWithinBounds op.now }
    requires journal { IfSome (C.tree tree.old) (λ t. t.journal ≡ None) }
    ensures value { IfSome (C.tree tree.old) (λ t. AnswersOrFails result (λ found. ComesTo (C.upper tree.old) op.now t found)) }
    ensures given { IfOk result KeepsOn }
    ensures asks { AsksTree C.tree C.upper C.kept C.faults tree.old tree.new result }
{
    match op {
        Op::Create { path } => place_found(alloc, tree, path.as_slice()),
        Op::Write { path, .. } => file_found(alloc, tree, op, path.as_slice()),
        Op::Fill { path, .. } => file_found(alloc, tree, op, path.as_slice()),
        Op::Truncate { path, .. } => file_found(alloc, tree, op, path.as_slice()),
        _ => unreachable!(),
    }
}
