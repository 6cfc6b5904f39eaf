ghost use Rattle.std.specs.Prelude.{◌≡◌, ◌<◌, ◌≤◌, [], IfOk, IfErr, IfSome, length};
ghost use Rattle.index_plan.specs.Faults.{AlongWay, Fails, OnAbsent, OnDeep};
ghost use Rattle.index_plan.specs.Laws.{InsertsInto, LevelFits, NeedsLevel, PlansAlong};
ghost use Rattle.index_plan.specs.Reading.{nodes_of, way_of};
ghost use Rattle.index_plan.specs.Room.{EachFits, RootSized};

use crate::descent::{Test, stop, way};
use crate::draft::Draft;
use crate::fault::PlanFault;
use crate::nodes::Nodes;
use crate::plan::{Rooted, plan_at};
use index_model::Key;
use record_model::{Entry, EntryList};
use std::alloc::Global;

/// The plan of an insertion: of each index that the nodes stand for, it makes the index with one
/// key more, at the place that the test tells. `room` is how many bytes the root's entries may
/// take, and `height` the number of levels of the whole index, which is looked at only where it
/// gets one more: where it isn't known, try 16 first, and count the levels after a `Deep`. Reads
/// each node on the way once, and takes time and memory linear in their bytes.
///
/// - `Node`: the first node on the way that breaks a rule.
/// - `Deep`: one level more is needed, and the height is 16 or more.
/// - `Failed`: a node could not be read.
/// - `Memory`: there is no memory left.
pub fn plan_insert<N: Nodes, T: Test>(
    nodes: &mut N,
    alloc: Global,
    test: &T,
    root: EntryList,
    key: Key,
    draft: Draft,
    room: usize,
    height: u32,
) -> Result<Rooted, PlanFault>
    requires some { 0 < length root }
    requires unwritten { draft.writes ≡ [] }
    requires enough { 17 ≤ length draft.fresh }
    ensures plan { IfOk result (λ planned. IfSome (N.reads nodes.old) (λ reads. InsertsInto (nodes_of reads) (T.goes test.now) key draft.fresh root room planned)) }
    ensures level { IfOk result (λ _. IfSome (N.reads nodes.old) (λ reads. LevelFits (nodes_of reads) (T.goes test.now) key draft.fresh root room height)) }
    ensures fits { IfOk result (λ planned. RootSized root → length key.value ≤ 576 → EachFits planned.plan.writes) }
    ensures taken { IfOk result (λ planned. length key.value ≤ 576 → IfSome (N.reads nodes.old) (λ reads. PlansAlong reads (T.goes test.now) key draft root room planned)) }
    ensures way { IfSome (N.reads nodes.old) (λ reads. AlongWay result (way_of reads (T.goes test.now) root)) }
    ensures deep { IfErr result (λ e. OnDeep e (λ h. (h ≡ height) × (16 ≤ height) × IfSome (N.reads nodes.old) (λ reads. NeedsLevel (nodes_of reads) (T.goes test.now) key draft.fresh root room))) }
    ensures present { IfErr result (λ e. OnAbsent e ⊥) }
    ensures unchanged { N.reads nodes.new ≡ N.reads nodes.old }
    ensures cause { Fails (N.faults nodes.old) (N.faults nodes.new) result }
{
    let at = stop(test, &root);
    let path = way(nodes, alloc, test, &root)?;
    plan_at(
        alloc,
        root,
        at,
        path,
        Entry {
            child: key.child,
            key: key.value,
            down: None,
        },
        draft,
        room,
        height,
    )
}
