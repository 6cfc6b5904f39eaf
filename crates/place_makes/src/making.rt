//! A file that is made in its place.
ghost use Rattle.std.specs.Prelude.{◌≡◌, ◌+◌, ◌<◌, ◌^◌, IfErr, IfOk, IfSome, OnOk, length};
ghost use Rattle.block_view.specs.Views.{AsksView};
ghost use Rattle.record_model.specs.Nodes.{entries_length};
ghost use Rattle.record_model.specs.Records.{used_of};
ghost use Rattle.record_streams.specs.Fitting.{FitsButRoom};
ghost use Rattle.index_tree.specs.Places.{place_of};
ghost use Rattle.volume_model.specs.Indexes.{index_place, root_value};
ghost use Rattle.made_trees.specs.file_makes.Making.{HasRoom, PutsMade};
ghost use Rattle.place_makes.specs.Faults.{place_cause, OnFull};
ghost use Rattle.place_makes.specs.Placing.{IsPlaceFull, PlansPlace, PutsInPlace, PutsMadeIn, PutsNodes, PutsTimed};
ghost use Rattle.index_grows.specs.Counted.{IsTooFull};

use crate::fault::PlaceFault;
use crate::planning::planned;
use crate::roots::root_bytes;
use crate::steady::is_quiet;
use crate::times::put_times;
use crate::vcns::vcns_from;
use block_view::View;
use directory_index::index_place;
use draft_numbers::DraftFault;
use file_makes::{DirPlace, FileRec, NewFile, NodesPlan, VolumeStreams, make_file};
use index_grows::{FreeBits, grow_as_counted};
use plan_draft::Draft;
use record_model::STANDARD_INFORMATION;
use record_rules::has_type;
use record_streams::WrittenRecord;
use state_model::{ClusterSize, Extents};
use std::alloc::Global;
use upcase_order::Upcase;

// An index has fewer blocks than these.
const MOST_BLOCKS: u64 = 1 << 61;

// Puts the file with these nodes behind its directory's times, where the index lies as this record says.
fn put_planned<V: View>(
    draft: &mut Draft<'_, V>,
    alloc: Global,
    per: ClusterSize,
    streams: &VolumeStreams,
    numbers: &Extents,
    made: &NewFile,
    directory: &FileRec,
    dir: &DirPlace,
    nodes: NodesPlan,
) -> Result<(), PlaceFault>
    requires per { per ≡ 8 }
    requires size { numbers.now.initialised < 2 ^ 63 }
    requires number { made.now.file.number < 2 ^ 32 }
    requires parent { made.now.parent.number < 2 ^ 48 }
    requires room { HasRoom directory.now }
    ensures put { OnOk result (IfSome (V.content draft.old.view.now) (λ c. PutsMade c streams.now numbers.now made.now directory.now (place_of dir.now) dir.now.root nodes draft.old.touched.items draft.new.touched.items)) }
    ensures full { IfErr result (OnFull (λ used. ⊥)) }
    ensures asks { AsksView V.content V.kept V.faults place_cause draft.old.view.now draft.new.view.now result }
    ensures reference { draft.new.view.ghost_name ≡ draft.old.view.ghost_name }
{
    match make_file(
        draft, alloc, per, streams, numbers, made, directory, dir, nodes,
    ) {
        Ok(()) => Ok(()),
        Err(DraftFault::Fault) => Err(PlaceFault::Fault),
        Err(DraftFault::Full { .. }) => Err(PlaceFault::Unplanned),
        Err(DraftFault::Memory) => Err(PlaceFault::Memory),
    }
}

/// Puts the file with these nodes, where the directory's index lies as this record says.
///
/// - [`PlaceFault::Unplanned`]: the record has no root, or no room.
/// - [`PlaceFault::Fault`]: the view failed, and counts it.
/// - [`PlaceFault::Memory`]: want of memory.
pub fn put_made<V: View>(
    draft: &mut Draft<'_, V>,
    alloc: Global,
    per: ClusterSize,
    streams: &VolumeStreams,
    numbers: &Extents,
    made: &NewFile,
    directory: &FileRec,
    nodes: NodesPlan,
) -> Result<(), PlaceFault>
    requires per { per ≡ 8 }
    requires size { numbers.now.initialised < 2 ^ 63 }
    requires number { made.now.file.number < 2 ^ 32 }
    requires parent { made.now.parent.number < 2 ^ 48 }
    requires room { HasRoom directory.now }
    ensures put { OnOk result (IfSome (V.content draft.old.view.now) (λ c. PutsMadeIn c streams.now numbers.now made.now directory.now nodes draft.old.touched.items draft.new.touched.items)) }
    ensures full { IfErr result (OnFull (λ used. ⊥)) }
    ensures asks { AsksView V.content V.kept V.faults place_cause draft.old.view.now draft.new.view.now result }
    ensures reference { draft.new.view.ghost_name ≡ draft.old.view.ghost_name }
{
    match index_place(alloc, per, directory)? {
        None => Err(PlaceFault::Unplanned),
        Some(dir) => put_planned(
            draft, alloc, per, streams, numbers, made, directory, &dir, nodes,
        ),
    }
}

// Puts the directory's times, and behind them the file with these nodes.
fn put_timed<V: View>(
    draft: &mut Draft<'_, V>,
    alloc: Global,
    per: ClusterSize,
    streams: &VolumeStreams,
    numbers: &Extents,
    made: &NewFile,
    file: &FileRec,
    nodes: NodesPlan,
) -> Result<(), PlaceFault>
    requires per { per ≡ 8 }
    requires size { numbers.now.initialised < 2 ^ 63 }
    requires number { made.now.file.number < 2 ^ 32 }
    requires parent { made.now.parent.number < 2 ^ 48 }
    requires fits { FitsButRoom file.now }
    ensures put { OnOk result (IfSome (V.content draft.old.view.now) (λ c. PutsTimed c streams.now numbers.now made.now file.now nodes draft.old.touched.items draft.new.touched.items)) }
    ensures full { IfErr result (OnFull (λ used. ⊥)) }
    ensures asks { AsksView V.content V.kept V.faults place_cause draft.old.view.now draft.new.view.now result }
    ensures reference { draft.new.view.ghost_name ≡ draft.old.view.ghost_name }
{
    let (parent, stamp) = (made.parent.number, made.stamp);
    let directory = put_times(draft, alloc, per, streams, parent, stamp, file)?;
    put_made(draft, alloc, per, streams, numbers, made, &directory, nodes)
}

// Puts the file behind the blocks that these nodes take, of which there are some.
fn put_grown<V: View, B: FreeBits>(
    draft: &mut Draft<'_, V>,
    alloc: Global,
    per: ClusterSize,
    bits: &mut B,
    counted: &mut B,
    streams: &VolumeStreams,
    numbers: &Extents,
    made: &NewFile,
    file: &FileRec,
    root: u64,
    nodes: NodesPlan,
) -> Result<(), PlaceFault>
    requires per { per ≡ 8 }
    requires bitmap { streams.now.bitmap.initialised < 2 ^ 63 }
    requires size { numbers.now.initialised < 2 ^ 63 }
    requires number { made.now.file.number < 2 ^ 32 }
    requires parent { made.now.parent.number < 2 ^ 48 }
    requires fits { FitsButRoom file.now }
    requires same { B.bits counted.old ≡ B.bits bits.old }
    requires root { root ≡ 0x20 + entries_length nodes.root }
    requires some { 0 < length nodes.taken.items }
    ensures put { OnOk result (IfSome (V.content draft.old.view.now) (λ c. PutsNodes c (B.bits bits.old) streams.now numbers.now made.now file.now nodes draft.old.touched.items draft.new.touched.items)) }
    ensures full { IfErr result (OnFull (IsTooFull (B.bits bits.old) file.now (0x20 + entries_length nodes.root) (length nodes.taken.items))) }
    ensures stays { IfErr result (OnFull (λ used. draft.new.touched.items ≡ draft.old.touched.items)) }
    ensures asks { AsksView V.content V.kept V.faults place_cause draft.old.view.now draft.new.view.now result }
    ensures reference { draft.new.view.ghost_name ≡ draft.old.view.ghost_name }
{
    let more = nodes.taken.len() as u64;
    let number = made.parent.number;
    let grown = grow_as_counted(
        draft, alloc, per, bits, counted, streams, number, file, root, more,
    )?;
    put_timed(draft, alloc, per, streams, numbers, made, &grown, nodes)
}

// Puts the file with these nodes, behind the blocks that they take.
fn put_nodes<V: View, B: FreeBits>(
    draft: &mut Draft<'_, V>,
    alloc: Global,
    per: ClusterSize,
    bits: &mut B,
    counted: &mut B,
    streams: &VolumeStreams,
    numbers: &Extents,
    made: &NewFile,
    file: &FileRec,
    nodes: NodesPlan,
) -> Result<(), PlaceFault>
    requires per { per ≡ 8 }
    requires bitmap { streams.now.bitmap.initialised < 2 ^ 63 }
    requires size { numbers.now.initialised < 2 ^ 63 }
    requires number { made.now.file.number < 2 ^ 32 }
    requires parent { made.now.parent.number < 2 ^ 48 }
    requires fits { FitsButRoom file.now }
    requires same { B.bits counted.old ≡ B.bits bits.old }
    ensures put { OnOk result (IfSome (V.content draft.old.view.now) (λ c. PutsNodes c (B.bits bits.old) streams.now numbers.now made.now file.now nodes draft.old.touched.items draft.new.touched.items)) }
    ensures full { IfErr result (OnFull (λ used. (0 < length nodes.taken.items) × IsTooFull (B.bits bits.old) file.now (0x20 + entries_length nodes.root) (length nodes.taken.items) used)) }
    ensures stays { IfErr result (OnFull (λ used. draft.new.touched.items ≡ draft.old.touched.items)) }
    ensures asks { AsksView V.content V.kept V.faults place_cause draft.old.view.now draft.new.view.now result }
    ensures reference { draft.new.view.ghost_name ≡ draft.old.view.ghost_name }
{
    if nodes.taken.is_empty() {
        return put_timed(draft, alloc, per, streams, numbers, made, file, nodes);
    }
    let Some(root) = root_bytes(nodes.root.as_slice()) else {
        return Err(PlaceFault::Unplanned);
    };
    put_grown(
        draft, alloc, per, bits, counted, streams, numbers, made, file, root, nodes,
    )
}

/// The place of an index, with the used bytes of this record.
pub fn with_used(found: DirPlace, file: &FileRec) -> DirPlace
    requires { FitsButRoom file.now }
    ensures place { place_of result ≡ place_of found }
    ensures root { result.root ≡ found.root }
    ensures used { result.used ≡ used_of file.now.attrs }
{
    DirPlace {
        root: found.root,
        blocks: found.blocks,
        step: found.step,
        used: file.used(),
    }
}

// The nodes of the index that lies there, planned with the new file.
fn plan_there<V: View>(
    draft: &mut Draft<'_, V>,
    alloc: Global,
    up: &Upcase,
    made: &NewFile,
    file: &FileRec,
    dir: &DirPlace,
) -> Result<NodesPlan, PlaceFault>
    requires number { made.now.file.number < 2 ^ 32 }
    requires parent { made.now.parent.number < 2 ^ 48 }
    requires place { place_of dir.now ≡ index_place 8 file.now }
    requires root { root_value file.now ≡ Some dir.now.root }
    requires used { dir.now.used ≡ used_of file.now.attrs }
    ensures plans { IfOk result (λ nodes. IfSome (V.content draft.old.view.now) (λ c. PlansPlace c up.now made.now file.now draft.old.touched.items nodes)) }
    ensures full { IfErr result (OnFull (λ used. ⊥)) }
    ensures touched { draft.new.touched.items ≡ draft.old.touched.items }
    ensures asks { AsksView V.content V.kept V.faults place_cause draft.old.view.now draft.new.view.now result }
    ensures reference { draft.new.view.ghost_name ≡ draft.old.view.ghost_name }
{
    let count = dir.blocks.len();
    if count >= MOST_BLOCKS {
        return Err(PlaceFault::Unplanned);
    }
    let fresh = vcns_from(alloc, count)?;
    planned(draft, alloc, up, dir, made, &fresh)
}

// The nodes of a directory's index, planned with the new file.
fn plan_place<V: View>(
    draft: &mut Draft<'_, V>,
    alloc: Global,
    per: ClusterSize,
    up: &Upcase,
    made: &NewFile,
    file: &FileRec,
) -> Result<NodesPlan, PlaceFault>
    requires per { per ≡ 8 }
    requires number { made.now.file.number < 2 ^ 32 }
    requires parent { made.now.parent.number < 2 ^ 48 }
    requires fits { FitsButRoom file.now }
    ensures plans { IfOk result (λ nodes. IfSome (V.content draft.old.view.now) (λ c. PlansPlace c up.now made.now file.now draft.old.touched.items nodes)) }
    ensures full { IfErr result (OnFull (λ used. ⊥)) }
    ensures touched { draft.new.touched.items ≡ draft.old.touched.items }
    ensures asks { AsksView V.content V.kept V.faults place_cause draft.old.view.now draft.new.view.now result }
    ensures reference { draft.new.view.ghost_name ≡ draft.old.view.ghost_name }
{
    match index_place(alloc, per, file)? {
        None => Err(PlaceFault::Unplanned),
        Some(found) => {
            let dir = with_used(found, file);
            plan_there(draft, alloc, up, made, file, &dir)
        }
    }
}

/// Puts a file that is made in its place (Linux-NTFS documentation, "FILE Record",
/// "$STANDARD_INFORMATION", "$INDEX_ROOT", "Index Record", "$Bitmap"): the blocks that its
/// directory's index gets for it, the times of the directory, whose record is `file` as it is in the
/// draft, and behind them what [`make_file`] puts. `up` is the volume's table of upper-case units,
/// and `numbers` are the clusters of the bitmap of `$MFT`; `bits` are those of the clusters, and
/// `counted` the same once more, which are of no more use afterwards. The volume has `per` sectors a
/// cluster.
///
/// - [`PlaceFault::Full`]: by the count of a step the directory's record would use so many bytes with
///   the blocks that the plan of its nodes takes, which are above 1,024; what the draft has put is as
///   it was.
/// - [`PlaceFault::Unplanned`]: the directory has no standard information; its index has a block that
///   isn't initialised or hasn't a bit; its index has to get a level for which the record has no room
///   before, or a bitmap in clusters; or what was read is part of no state.
/// - [`PlaceFault::Fault`]: the view failed, and counts it.
/// - [`PlaceFault::Memory`]: want of memory.
///
/// After an error but the first the draft is of no more use. It reads the nodes on the way to the name, and those
/// of the same name, and takes time and memory linear in these, in the directory's record and runs
/// and in the blocks that come, and for each run that the index takes a search of the bits.
pub fn make_in_place<V: View, B: FreeBits>(
    draft: &mut Draft<'_, V>,
    alloc: Global,
    per: ClusterSize,
    bits: &mut B,
    counted: &mut B,
    up: &Upcase,
    streams: &VolumeStreams,
    numbers: &Extents,
    made: &NewFile,
    file: &FileRec,
) -> Result<(), PlaceFault>
    requires per { per ≡ 8 }
    requires bitmap { streams.now.bitmap.initialised < 2 ^ 63 }
    requires size { numbers.now.initialised < 2 ^ 63 }
    requires number { made.now.file.number < 2 ^ 32 }
    requires parent { made.now.parent.number < 2 ^ 48 }
    requires fits { FitsButRoom file.now }
    requires same { B.bits counted.old ≡ B.bits bits.old }
    ensures put { OnOk result (IfSome (V.content draft.old.view.now) (λ c. PutsInPlace c (B.bits bits.old) streams.now numbers.now up.now made.now file.now draft.old.touched.items draft.new.touched.items)) }
    ensures full { IfErr result (OnFull (λ used. IfSome (V.content draft.old.view.now) (λ c. IsPlaceFull c (B.bits bits.old) up.now made.now file.now draft.old.touched.items used))) }
    ensures stays { IfErr result (OnFull (λ used. draft.new.touched.items ≡ draft.old.touched.items)) }
    ensures asks { AsksView V.content V.kept V.faults place_cause draft.old.view.now draft.new.view.now result }
    ensures reference { draft.new.view.ghost_name ≡ draft.old.view.ghost_name }
{
    if !has_type(STANDARD_INFORMATION, file) || !is_quiet(alloc, file)? {
        return Err(PlaceFault::Unplanned);
    }
    let nodes = plan_place(draft, alloc, per, up, made, file)?;
    put_nodes(
        draft, alloc, per, bits, counted, streams, numbers, made, file, nodes,
    )
}
