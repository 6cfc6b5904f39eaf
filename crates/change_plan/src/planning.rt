//! The plan of an operation, from what it comes to.
ghost use Rattle.std.specs.Prelude.{◌≡◌, None, true, IfOk, IfSome};
ghost use Rattle.block_view.specs.Views.{AsksView};
ghost use Rattle.tree_model.specs.Steps.{IsWithinBounds};
ghost use Rattle.change_lookup.specs.Comes.{KeepsOn};
ghost use Rattle.found_files.specs.volume_map.Maps.{IsMapOf, volume_in};
ghost use Rattle.volume_census.specs.volume_lookup.Known.{known_tree};
ghost use Rattle.change_plan.specs.Faults.{plan_cause};
ghost use Rattle.change_plan.specs.States.{is_data_change};
ghost use Rattle.change_plan.specs.Plans.{IsSound, PlansFrom, KnowsFrom};
ghost use Rattle.change_plan.specs.Drafting.{PlansBy, KnowsBy};

use crate::drafting::{answer, change_reply, file_plan};
use crate::fault::PlanFault;
use crate::finding::found;
use crate::laws::files_are_read;
use crate::plan::ChangePlan;
use block_view::View;
use change_lookup::Found;
use found_files::{VolumeMap, VolumeStreams, changes_are_steps, found_is_there};
use std::alloc::Global;
use tree_model::Op;
use upcase_order::Upcase;
use volume_census::NamedVolume;

// The plan, by what the operation comes to.
fn planned<V: View>(
    alloc: Global,
    view: &mut V,
    map: &VolumeMap,
    streams: &VolumeStreams,
    op: &Op,
    found: Found,
    stamp: u64,
) -> Result<ChangePlan, PlanFault>
    requires changes { is_data_change op.now ≡ true }
    requires bounds { IsWithinBounds op.now }
    requires given { KeepsOn found }
    ensures plans { IfSome (V.content view.old) (PlansBy map.now streams.now op.now found stamp result) }
    ensures known { IfSome (V.content view.old) (KnowsBy map.now streams.now op.now found result) }
    ensures sound { IfOk result (IsSound (V.content view.old) op.now) }
    ensures asks { AsksView V.content V.kept V.faults plan_cause view.old view.new result }
{
    changes_are_steps();
    found_is_there();
    files_are_read();
    match found {
        Found::Refused(reply) => Ok(answer(alloc, reply)),
        Found::File { node, changes } => {
            if changes {
                file_plan(alloc, view, map, streams, op, &node, stamp)
            } else {
                Ok(answer(alloc, change_reply(op)))
            }
        }
        Found::Place { .. } => Err(PlanFault::Unknown),
    }
}

/// The plan of an operation that writes, fills or cuts a file of a loaded volume over a view of its
/// content (Linux-NTFS documentation, "FILE Record", "$DATA", "$Bitmap"): its reply, and the
/// changes of blocks that it makes. The volume has no change journal and eight sectors a cluster;
/// `up` is its table of upper-case units, and `streams` are those of its file table, of the table's
/// mirror and of the bits of its clusters. `stamp` is the time of the change, in units of 100 ns
/// since 1601-01-01. From each content that is a state of the volume the reply and the changes are
/// a step of the operation, and the changes come of a draft that has put what comes of the file's
/// data, by its record or by that with data which is empty, and leads to a state as a plan does.
/// A reply other than that of an operation that is done comes with no changes. Nothing is changed:
/// neither what the view gives nor the map.
///
/// - [`PlanFault::Fault`]: the view failed, and counts it.
/// - [`PlanFault::Memory`]: want of memory.
/// - [`PlanFault::Unknown`]: what was read is part of no state of the volume; never from a content
///   that is one, of at most 2^32 clusters.
///
/// It reads the index blocks on the path and the file's record, and of the file's data the sectors
/// that are changed in part. It takes time and memory linear in these and in the bytes that are
/// written, and for each run that the file takes a search of the bits of the clusters.
pub fn plan_change<V: View>(
    alloc: Global,
    view: &mut V,
    volume: &NamedVolume<'_>,
    up: &Upcase,
    streams: &VolumeStreams,
    op: &Op,
    stamp: u64,
) -> Result<ChangePlan, PlanFault>
    requires changes { is_data_change op.now ≡ true }
    requires bounds { IsWithinBounds op.now }
    requires mapped { IfSome (V.content view.old) (λ c. IsMapOf c volume.now.map.now) }
    requires journal { IfSome (known_tree up.now (volume_in volume.now.map.now) (V.content view.old)) (λ t. t.journal ≡ None) }
    ensures plans { IfSome (V.content view.old) (PlansFrom up.now (volume_in volume.now.map.now) streams.now op.now stamp result) }
    ensures known { IfSome (V.content view.old) (KnowsFrom up.now (volume_in volume.now.map.now) streams.now result) }
    ensures sound { IfOk result (IsSound (V.content view.old) op.now) }
    ensures asks { AsksView V.content V.kept V.faults plan_cause view.old view.new result }
{
    changes_are_steps();
    let found = found(alloc, view, volume, up, op)?;
    planned(alloc, view, volume.map, streams, op, found, stamp)
}
