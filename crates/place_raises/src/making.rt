//! A file that is made in its place below a level more of its directory's index.
ghost use Rattle.std.specs.Prelude.{◌≡◌, ◌+◌, ◌<◌, ◌≤◌, ◌^◌, IfErr, IfSome, OnOk, length};
ghost use Rattle.block_view.specs.Views.{AsksView};
ghost use Rattle.record_streams.specs.Fitting.{FitsButRoom};
ghost use Rattle.place_makes.specs.index_grows.Counted.{IsTooFull};
ghost use Rattle.place_raises.specs.Faults.{raise_cause, OnDeep, OnFull};
ghost use Rattle.place_raises.specs.Raising.{IsDeep, IsRaisedFull, PutsLevel, PutsRaised, level_vcn};

use crate::behind::put_behind;
use crate::fault::RaiseFault;
use crate::planning::{LevelPlan, plan_level};
use crate::raising::raise_as_counted;
use block_view::View;
use file_makes::{FileRec, NewFile, VolumeStreams};
use place_makes::{FreeBits, is_quiet};
use plan_draft::Draft;
use record_model::STANDARD_INFORMATION;
use record_rules::has_type;
use state_model::{ClusterSize, Extents};
use std::alloc::Global;
use upcase_order::Upcase;

// Puts the file behind the blocks and the level that are planned.
fn put_level<V: View, B: FreeBits>(
    draft: &mut Draft<'_, V>,
    alloc: Global,
    per: ClusterSize,
    bits: &mut B,
    counted: &mut B,
    up: &Upcase,
    streams: &VolumeStreams,
    numbers: &Extents,
    made: &NewFile,
    file: &FileRec,
    plan: &LevelPlan,
) -> Result<(), RaiseFault>
    requires per { per ≡ 8 }
    requires bitmap { streams.now.bitmap.initialised < 2 ^ 63 }
    requires size { numbers.now.initialised < 2 ^ 63 }
    requires number { made.now.file.number < 2 ^ 32 }
    requires parent { made.now.parent.number < 2 ^ 48 }
    requires fits { FitsButRoom file.now }
    requires same { B.bits counted.old ≡ B.bits bits.old }
    requires first { plan.now.first ≡ level_vcn file.now }
    requires small { length plan.now.level.root ≡ 56 }
    requires long { length plan.now.level.node ≡ 4096 }
    requires enough { 17 ≤ length plan.now.fresh.items }
    ensures put { OnOk result (IfSome (V.content draft.old.view.now) (λ c. PutsLevel c (B.bits bits.old) streams.now numbers.now up.now made.now file.now plan.now.level.root plan.now.level.node plan.now.fresh.items (1 + length plan.now.nodes.taken.items) draft.old.touched.items draft.new.touched.items)) }
    ensures full { IfErr result (OnFull (IsTooFull (B.bits bits.old) file.now 56 (1 + length plan.now.nodes.taken.items))) }
    ensures deep { IfErr result (OnDeep (λ height. ⊥)) }
    ensures stays { IfErr result (OnFull (λ used. draft.new.touched.items ≡ draft.old.touched.items)) }
    ensures asks { AsksView V.content V.kept V.faults raise_cause draft.old.view.now draft.new.view.now result }
    ensures reference { draft.new.view.ghost_name ≡ draft.old.view.ghost_name }
{
    let taken = plan.nodes.taken.len() as u64;
    let more = 1 + taken;
    let (number, level, first) = (made.parent.number, &plan.level, plan.first);
    let raised = raise_as_counted(
        draft, alloc, per, bits, counted, streams, number, file, level, first, more,
    )?;
    put_behind(
        draft,
        alloc,
        per,
        up,
        streams,
        numbers,
        made,
        &raised,
        &plan.fresh,
    )
}

/// Puts a file that is made in its place below a level more of its directory's index (Linux-NTFS
/// documentation, "FILE Record", "$STANDARD_INFORMATION", "$INDEX_ROOT", "Index Record",
/// "$Bitmap"): the blocks that the level and the name take, and with them the root of one entry
/// alone and the node with the entries that the root had; the times of the directory, whose record
/// is `file` as it is in the draft; and behind them the file, with nodes that are planned there. So
/// a file is made where the root has no room beside the longer streams of the index. `up` is the
/// volume's table of upper-case units, and `numbers` are the clusters of the bitmap of `$MFT`;
/// `bits` are those of the clusters, and `counted` the same once more, which are of no more use
/// afterwards. The volume has `per` sectors a cluster.
///
/// - [`RaiseFault::Full`]: by the count of a step the directory's record would use so many bytes
///   with the blocks that the level and the plan of its nodes take, which are above 1,024; what the
///   draft has put is as it was.
/// - [`RaiseFault::Deep`]: the index has so many levels, sixteen; what the draft has put is as it
///   was.
/// - [`RaiseFault::Unplanned`]: the directory has no standard information; its index has a block
///   that isn't initialised or hasn't a bit; its index has to get a second level, or a bitmap in
///   clusters; or what was read is part of no state.
/// - [`RaiseFault::Fault`]: the view failed, and counts it.
/// - [`RaiseFault::Memory`]: want of memory.
///
/// After an error but the first two the draft is of no more use. It reads all nodes to count the
/// levels, and takes time and memory linear in these, in the directory's record and runs and in the
/// blocks that come, and for each run that the index takes a search of the bits.
pub fn raise_in_place<V: View, B: FreeBits>(
    draft: &mut Draft<'_, V>,
    alloc: Global,
    per: ClusterSize,
    bits: &mut B,
    counted: &mut B,
    up: &Upcase,
    streams: &VolumeStreams,
    numbers: &Extents,
    made: &NewFile,
    file: &FileRec,
) -> Result<(), RaiseFault>
    requires per { per ≡ 8 }
    requires bitmap { streams.now.bitmap.initialised < 2 ^ 63 }
    requires size { numbers.now.initialised < 2 ^ 63 }
    requires number { made.now.file.number < 2 ^ 32 }
    requires parent { made.now.parent.number < 2 ^ 48 }
    requires fits { FitsButRoom file.now }
    requires same { B.bits counted.old ≡ B.bits bits.old }
    ensures put { OnOk result (IfSome (V.content draft.old.view.now) (λ c. PutsRaised c (B.bits bits.old) streams.now numbers.now up.now made.now file.now draft.old.touched.items draft.new.touched.items)) }
    ensures full { IfErr result (OnFull (λ used. IfSome (V.content draft.old.view.now) (λ c. IsRaisedFull c (B.bits bits.old) up.now made.now file.now draft.old.touched.items used))) }
    ensures deep { IfErr result (OnDeep (λ height. IfSome (V.content draft.old.view.now) (λ c. IsDeep c file.now draft.old.touched.items height))) }
    ensures stays { IfErr result (OnFull (λ used. draft.new.touched.items ≡ draft.old.touched.items)) }
    ensures unraised { IfErr result (OnDeep (λ height. draft.new.touched.items ≡ draft.old.touched.items)) }
    ensures asks { AsksView V.content V.kept V.faults raise_cause draft.old.view.now draft.new.view.now result }
    ensures reference { draft.new.view.ghost_name ≡ draft.old.view.ghost_name }
{
    if !has_type(STANDARD_INFORMATION, file) || !is_quiet(alloc, file)? {
        return Err(RaiseFault::Unplanned);
    }
    let plan = plan_level(draft, alloc, per, up, made, file)?;
    put_level(
        draft, alloc, per, bits, counted, up, streams, numbers, made, file, &plan,
    )
}
