ghost use Rattle.std.specs.Prelude.{◌≡◌, ◌<◌, ◌≤◌, [], IfOk, IfErr, IfSome, length};
ghost use Rattle.index_plan.specs.Faults.{AfterSearch, Fails, OnAbsent, OnDeep};
ghost use Rattle.index_plan.specs.Laws.{HasNone, NeedsLevelWithout, RemovesFrom, TakesFewOut};
ghost use Rattle.index_plan.specs.Reading.{nodes_of};
ghost use Rattle.index_plan.specs.Room.{EachFits, RootSized};
ghost use Rattle.index_plan.specs.Seeking.{seek_of};

use crate::draft::Draft;
use crate::fault::PlanFault;
use crate::nodes::Nodes;
use crate::numbers::Numbers;
use crate::place::Place;
use crate::plan::{Rooted, plan_out};
use crate::search::seek_in;
use crate::side::Target;
use index_model::ROOT_VCN;
use record_model::EntryList;
use std::alloc::Global;

/// The plan of a removal: of each index that the nodes stand for, it makes the index without one
/// entry that has the key, and it answers the VCNs of the blocks that are no longer in use.
/// `room` is how many bytes the root's entries may take, and `height` the number of levels of the
/// whole index, as in an insertion. Reads the nodes on one way down, and those between entries of
/// the same name, and takes time and memory linear in their bytes.
///
/// - `Node`: the first node that was read and breaks a rule.
/// - `Absent`: the index has no such key.
/// - `Deep`: one level more is needed, and the height is 16 or more.
/// - `Failed`: a node could not be read.
/// - `Memory`: there is no memory left.
pub fn plan_remove<N: Nodes, T: Target>(
    nodes: &mut N,
    alloc: Global,
    target: &T,
    root: EntryList,
    draft: Draft,
    room: usize,
    height: u32,
) -> Result<(Rooted, Numbers), PlanFault>
    requires unwritten { draft.writes ≡ [] }
    requires enough { 17 ≤ length draft.fresh }
    ensures plan { IfOk result (λ p. IfSome (N.reads nodes.old) (λ reads. RemovesFrom (nodes_of reads) (T.side target.now) draft.fresh root room height p.0 p.1)) }
    ensures fits { IfOk result (λ p. RootSized root → EachFits p.0.plan.writes) }
    ensures taken { IfOk result (λ p. IfSome (N.reads nodes.old) (λ reads. TakesFewOut reads (T.side target.now) draft root room p.0)) }
    ensures absent { IfErr result (λ e. OnAbsent e (IfSome (N.reads nodes.old) (λ reads. HasNone (nodes_of reads) (T.side target.now) root))) }
    ensures sought { IfSome (N.reads nodes.old) (λ reads. AfterSearch result (seek_of reads (T.side target.now) root)) }
    ensures deep { IfErr result (λ e. OnDeep e (λ h. (h ≡ height) × (16 ≤ height) × IfSome (N.reads nodes.old) (λ reads. NeedsLevelWithout (nodes_of reads) (T.side target.now) draft.fresh root room))) }
    ensures unchanged { N.reads nodes.new ≡ N.reads nodes.old }
    ensures cause { Fails (N.faults nodes.old) (N.faults nodes.new) result }
{
    match seek_in(nodes, alloc, target, ROOT_VCN, &root, 15)? {
        None => Err(PlanFault::Absent),
        Some(place) => {
            let Place { at, trail } = place;
            let (path, chain) = trail.into_parts();
            plan_out(alloc, root, at, path, chain, draft, room, height)
        }
    }
}
