//! A directory's index that gets blocks and a level more in a draft, as a step counts them.
ghost use Rattle.std.specs.Prelude.{◌≡◌, ◌+◌, ◌<◌, ◌≤◌, ◌^◌, IfErr, IfOk, IfSome, length};
ghost use Rattle.index_edits.specs.Raised.{first_fresh};
ghost use Rattle.block_view.specs.Views.{AsksView};
ghost use Rattle.record_model.specs.Pairs.{cluster_limit};
ghost use Rattle.record_writer.specs.NormalLaws.{FitsByRoom};
ghost use Rattle.record_streams.specs.Fitting.{FitsButRoom};
ghost use Rattle.draft_records.specs.Records.{written_record};
ghost use Rattle.draft_indexes.specs.Growing.{MayGrowBlocks};
ghost use Rattle.made_index.specs.Growing.{MayGrow};
ghost use Rattle.place_makes.specs.index_grows.Counted.{CountsOf, IsTooFull};
ghost use Rattle.place_raises.specs.Faults.{raise_cause, OnDeep, OnFull};
ghost use Rattle.place_raises.specs.Raising.{RaisesCounted, RaisesInto, level_vcn};

use crate::fault::RaiseFault;
use crate::level::Level;
use block_view::View;
use draft_indexes::{IndexBlocks, raise_blocks};
use draft_records::written_file;
use file_makes::{FileRec, VolumeStreams};
use made_index::DataFault;
use place_makes::{FreeBits, count, index_blocks, may_count, may_grow_blocks};
use plan_draft::Draft;
use record_streams::placed_fits;
use state_model::ClusterSize;
use std::alloc::{AllocError, Global};

// The bytes of the value of a root with one entry alone, which has a child.
const ROOT_SIZE: u64 = 56;

// The first block that comes to be initialised.
fn first_fresh(index: &IndexBlocks) -> u64
    requires { index.now.extents.initialised ≤ 2 ^ 40 }
    ensures { result ≡ first_fresh index.now }
{
    (index.extents.initialised + 4095) / 4096
}

// The record as it is written.
fn written(alloc: Global, file: &FileRec) -> Result<FileRec, AllocError>
    requires { FitsByRoom file.now }
    ensures value { IfOk result (λ q. q ≡ written_record file.now) }
    ensures fits { IfOk result FitsButRoom }
{
    let Ok(new) = written_file(alloc, file) else {
        return Err(AllocError);
    };
    Ok(new)
}

// Puts the blocks and the level, and answers the directory's record as it is written.
fn put_raised<V: View, B: FreeBits>(
    draft: &mut Draft<'_, V>,
    alloc: Global,
    per: ClusterSize,
    bits: &mut B,
    streams: &VolumeStreams,
    index: IndexBlocks,
    more: u64,
    level: &Level,
) -> Result<FileRec, RaiseFault>
    requires per { per ≡ 8 }
    requires size { streams.now.bitmap.initialised < 2 ^ 63 }
    requires index { MayGrowBlocks 8 (length (B.bits bits.old)) more index }
    requires small { length level.now.root ≡ 56 }
    requires long { length level.now.node ≡ 4096 }
    ensures put { IfOk result (λ q. IfSome (V.content draft.old.view.now) (λ c. RaisesInto c (B.bits bits.old) streams.now index more level.now.root level.now.node draft.old.touched.items draft.new.touched.items q)) }
    ensures fits { IfOk result FitsButRoom }
    ensures full { IfErr result (OnFull (λ used. ⊥)) }
    ensures deep { IfErr result (OnDeep (λ height. ⊥)) }
    ensures asks { AsksView V.content V.kept V.faults raise_cause draft.old.view.now draft.new.view.now result }
    ensures reference { draft.new.view.ghost_name ≡ draft.old.view.ghost_name }
{
    placed_fits();
    let (bitmap, table, mirror) = (&streams.bitmap, &streams.table, &streams.mirror);
    let root = level.root.as_slice();
    let node = level.node.as_slice();
    let raised = raise_blocks(
        draft, alloc, per, bits, bitmap, table, mirror, index, more, root, node,
    )?;
    Ok(written(alloc, &raised.file)?)
}

// Gives the index so many blocks more with the level, where a step counts them so.
fn raise_counted<V: View, B: FreeBits>(
    draft: &mut Draft<'_, V>,
    alloc: Global,
    per: ClusterSize,
    bits: &mut B,
    streams: &VolumeStreams,
    number: u64,
    file: &FileRec,
    level: &Level,
    first: u64,
    more: u64,
) -> Result<FileRec, RaiseFault>
    requires per { per ≡ 8 }
    requires size { streams.now.bitmap.initialised < 2 ^ 63 }
    requires fits { FitsButRoom file.now }
    requires clusters { length (B.bits bits.old) ≤ cluster_limit }
    requires number { number < 2 ^ 48 }
    requires few { length file.now.attrs + 1 < 2 ^ 10 }
    requires may { MayGrow (length (B.bits bits.old)) file.now }
    requires counts { CountsOf (B.bits bits.old) file.now 56 more }
    requires small { length level.now.root ≡ 56 }
    requires long { length level.now.node ≡ 4096 }
    requires first { first ≡ level_vcn file.now }
    ensures put { IfOk result (λ q. IfSome (V.content draft.old.view.now) (λ c. RaisesCounted c (B.bits bits.old) streams.now number file.now level.now.root level.now.node more draft.old.touched.items draft.new.touched.items q)) }
    ensures fits { IfOk result FitsButRoom }
    ensures full { IfErr result (OnFull (λ used. ⊥)) }
    ensures deep { IfErr result (OnDeep (λ height. ⊥)) }
    ensures asks { AsksView V.content V.kept V.faults raise_cause draft.old.view.now draft.new.view.now result }
    ensures reference { draft.new.view.ghost_name ≡ draft.old.view.ghost_name }
{
    let clusters = bits.len();
    let Some(index) = index_blocks(alloc, number, file)? else {
        return Err(RaiseFault::Unplanned);
    };
    if !may_grow_blocks(clusters, more, &index) {
        return Err(RaiseFault::Unplanned);
    }
    if first_fresh(&index) != first {
        return Err(RaiseFault::Unplanned);
    }
    put_raised(draft, alloc, per, bits, streams, index, more, level)
}

/// Gives a directory's index so many blocks more in a draft, and with them a level, of which the
/// node goes into the first block that comes, as a step of the volume counts them (Linux-NTFS
/// documentation, "$INDEX_ROOT", "$INDEX_ALLOCATION", "$BITMAP"): what [`raise_blocks`] puts, of
/// the directory of this number, whose record is `file`. `first` is how many blocks the index has;
/// `bits` are those of the clusters, and `counted` the same once more, which are of no more use
/// afterwards. The volume has 8 sectors a cluster. The answer is the directory's record as it is
/// written.
///
/// - [`RaiseFault::Full`]: by the count of a step the record would use so many bytes, which are
///   above 1,024; the draft is as it was.
/// - [`RaiseFault::Unplanned`]: the bitmap stands in clusters or has to leave the record; the
///   blocks take no cluster; or what was read is part of no state.
/// - [`RaiseFault::Fault`]: the view failed, and counts it.
/// - [`RaiseFault::Memory`]: want of memory.
///
/// After an error but the first the draft is of no more use. It takes time and memory linear in the
/// record, the runs and the blocks that come, and for each run that the index takes a search of the
/// bits.
pub fn raise_as_counted<V: View, B: FreeBits>(
    draft: &mut Draft<'_, V>,
    alloc: Global,
    per: ClusterSize,
    bits: &mut B,
    counted: &mut B,
    streams: &VolumeStreams,
    number: u64,
    file: &FileRec,
    level: &Level,
    first: u64,
    more: u64,
) -> Result<FileRec, RaiseFault>
    requires per { per ≡ 8 }
    requires size { streams.now.bitmap.initialised < 2 ^ 63 }
    requires fits { FitsButRoom file.now }
    requires same { B.bits counted.old ≡ B.bits bits.old }
    requires small { length level.now.root ≡ 56 }
    requires long { length level.now.node ≡ 4096 }
    requires first { first ≡ level_vcn file.now }
    ensures put { IfOk result (λ q. IfSome (V.content draft.old.view.now) (λ c. RaisesCounted c (B.bits bits.old) streams.now number file.now level.now.root level.now.node more draft.old.touched.items draft.new.touched.items q)) }
    ensures fits { IfOk result FitsButRoom }
    ensures full { IfErr result (OnFull (IsTooFull (B.bits bits.old) file.now 56 more)) }
    ensures deep { IfErr result (OnDeep (λ height. ⊥)) }
    ensures stays { IfErr result (OnFull (λ used. draft.new.touched.items ≡ draft.old.touched.items)) }
    ensures asks { AsksView V.content V.kept V.faults raise_cause draft.old.view.now draft.new.view.now result }
    ensures reference { draft.new.view.ghost_name ≡ draft.old.view.ghost_name }
{
    let clusters = counted.len();
    if !may_count(alloc, clusters, number, file, ROOT_SIZE, more)? {
        return Err(RaiseFault::Unplanned);
    }
    match count(alloc, per, counted, file, ROOT_SIZE, more) {
        Ok(true) => raise_counted(
            draft, alloc, per, bits, streams, number, file, level, first, more,
        ),
        Ok(false) => Err(RaiseFault::Unplanned),
        Err(DataFault::Full { used }) => Err(RaiseFault::Full { used }),
        Err(DataFault::Short { .. }) => Err(RaiseFault::Unplanned),
        Err(DataFault::Memory) => Err(RaiseFault::Memory),
    }
}
