//! The nodes of a directory's index, laid out and put into a draft.
ghost use Rattle.std.specs.Prelude.{◌≡◌, false, IfOk, IfSome, OnOk};
ghost use Rattle.block_view.specs.Views.{AsksView};
ghost use Rattle.file_puts.specs.index_change.NodePlans.{LaysOut};
ghost use Rattle.file_puts.specs.index_change.Plans.{clusters_of};
ghost use Rattle.file_puts.specs.index_tree.Places.{place_of};
ghost use Rattle.plan_draft.specs.Faults.{fault_cause};
ghost use Rattle.plan_draft.specs.Touching.{touch};
ghost use Rattle.file_makes.specs.Making.{touch_nodes, IsWhole, AreWhole};

use block_view::{Change, View, ViewFault};
use file_puts::{DirPlace, DirPlan, NodesPlan, lay_out};
use plan_draft::Draft;
use std::alloc::Global;

/// The plan of nodes, laid out over what the draft has.
pub fn laid_out<V: View>(
    draft: &mut Draft<'_, V>,
    alloc: Global,
    dir: &DirPlace,
    nodes: NodesPlan,
) -> Result<DirPlan, ViewFault>
    ensures laid { IfOk result (LaysOut (place_of dir.now) (clusters_of dir.now.root) nodes) }
    ensures whole { IfOk result (λ plan. AreWhole plan.changes.items) }
    ensures touched { draft.new.touched.items ≡ draft.old.touched.items }
    ensures asks { AsksView V.content V.kept V.faults fault_cause draft.old.view.now draft.new.view.now result }
    ensures reference { draft.new.view.ghost_name ≡ draft.old.view.ghost_name }
{
    lay_out(alloc, draft, dir, nodes)
}

// Puts the change of a node.
fn put_node<V: View>(
    draft: &mut Draft<'_, V>,
    alloc: Global,
    change: &Change,
) -> Result<(), ViewFault>
    requires { IsWhole change.now }
    ensures put { OnOk result (IfSome (V.content draft.old.view.now) (λ c. draft.new.touched.items ≡ touch change.now.block false change.now.new (c change.now.block) draft.old.touched.items)) }
    ensures asks { AsksView V.content V.kept V.faults fault_cause draft.old.view.now draft.new.view.now result }
    ensures reference { draft.new.view.ghost_name ≡ draft.old.view.ghost_name }
{
    draft.put(alloc, change.block, false, change.new.as_slice())
}

/// Puts the changes of nodes, each the whole body of a block that was there.
pub fn put_nodes<V: View>(
    draft: &mut Draft<'_, V>,
    alloc: Global,
    changes: &[Change],
) -> Result<(), ViewFault>
    requires { AreWhole changes.now }
    ensures put { OnOk result (IfSome (V.content draft.old.view.now) (λ c. draft.new.touched.items ≡ touch_nodes c changes.now draft.old.touched.items)) }
    ensures asks { AsksView V.content V.kept V.faults fault_cause draft.old.view.now draft.new.view.now result }
    ensures reference { draft.new.view.ghost_name ≡ draft.old.view.ghost_name }
{
    for change in changes {
        put_node(draft, alloc, change)?;
    }
    Ok(())
}
