//! A directory's index that gets blocks in a draft, as a step counts them.
ghost use Rattle.std.specs.Prelude.{◌≡◌, ◌+◌, ◌*◌, ◌/◌, ◌<◌, ◌≤◌, ◌^◌, ℕ, true, Ok, IfErr, IfOk, IfSome, length};
ghost use Rattle.block_view.specs.Views.{AsksView};
ghost use Rattle.record_model.specs.Pairs.{cluster_limit, HasSpelling};
ghost use Rattle.record_writer.specs.NormalLaws.{FitsByRoom};
ghost use Rattle.state_model.specs.Loads.{total_clusters};
ghost use Rattle.stream_runs.specs.Runs.{last_cluster};
ghost use Rattle.draft_indexes.specs.Growing.{wanted_clusters, MayGrowBlocks};
ghost use Rattle.record_streams.specs.Fitting.{FitsButRoom};
ghost use Rattle.draft_records.specs.Records.{written_record, written_bytes};
ghost use Rattle.index_grows.specs.Faults.{index_cause};
ghost use Rattle.index_grows.specs.Counted.{CountsOf, OnFull, IsTooFull};
ghost use Rattle.index_grows.specs.Growing.{GrowsInto, GrowsCounted};
ghost use Rattle.directory_growth.specs.Growing.{GrowsLittle};
ghost use Rattle.made_index.specs.Growing.{MayGrow};

use crate::checking::{grows_little, may_grow};
use crate::counting::count;
use crate::fault::IndexFault;
use crate::streams::index_blocks;
use block_view::View;
use draft_indexes::{Draft, FreeBits, IndexBlocks, grow_blocks};
use draft_records::written_file;
use file_puts::{FileRec, VolumeStreams};
use found_files::total_clusters;
use host_base::Memory;
use made_index::DataFault;
use planned_streams::have_spelling;
use record_streams::placed_fits;
use state_model::{ClusterSize, Extents};
use std::alloc::{AllocError, Global};
use stream_runs::last_cluster;

// The most clusters of a volume that a plan deals with, and how many numbers a file may have.
const CLUSTER_LIMIT: u64 = 1 << 32;

const MOST_NUMBERS: u64 = 1 << 48;

// The most blocks that come; bytes of blocks before, and those of them that are initialised; bytes
// of a bitmap; and runs.
const MOST_MORE: u64 = 1 << 14;

const MOST_REAL: u64 = 1 << 30;

const MOST_INITIALISED: u64 = 1 << 40;

const MOST_BITS: usize = 1 << 15;

const MOST_RUNS: u64 = 1 << 16;

// A record has fewer attributes than these with one more.
const MOST_ATTRIBUTES: usize = (1 << 10) - 1;

// How many clusters the blocks lack with so many more.
fn lacking(more: u64, extents: &Extents) -> u64
    requires more { more ≤ 2 ^ 14 }
    requires real { extents.now.real ≤ 2 ^ 30 }
    requires spelled { HasSpelling 0 extents.now.runs }
    ensures value { result ≡ wanted_clusters 8 more extents.now }
    ensures few { result < 2 ^ 32 }
{
    let size = extents.real + 4096 * more;
    ((size + 4095) / 4096).saturating_sub(total_clusters(&extents.runs))
}

// Whether the last of the clusters is below so many.
fn ends_below(clusters: u64, extents: &Extents) -> bool
    ensures { result ≡ true → IfSome (last_cluster extents.now.runs) (λ at. at < clusters) }
{
    match last_cluster(&extents.runs) {
        Some(at) => at < clusters,
        None => true,
    }
}

// Whether the blocks have whole sizes within bounds, and clusters as a plan asks for them.
fn may_place(clusters: u64, extents: &Extents) -> bool
    ensures real { result ≡ true → extents.now.real ≤ 2 ^ 30 }
    ensures whole { result ≡ true → extents.now.real ≡ 4096 * (extents.now.real / 4096) }
    ensures initialised { result ≡ true → extents.now.initialised ≤ 2 ^ 40 }
    ensures spelled { result ≡ true → HasSpelling 0 extents.now.runs }
    ensures last { result ≡ true → IfSome (last_cluster extents.now.runs) (λ at. at < clusters) }
{
    if extents.real > MOST_REAL || extents.initialised > MOST_INITIALISED {
        return false;
    }
    extents.real % 4096 == 0 && have_spelling(&extents.runs) && ends_below(clusters, extents)
}

// Whether the clusters that come aren't too many.
fn has_room_for(wanted: u64, extents: &Extents) -> bool
    requires wanted { wanted < 2 ^ 32 }
    requires spelled { HasSpelling 0 extents.now.runs }
    ensures some { result ≡ true → 0 < wanted }
    ensures total { result ≡ true → total_clusters extents.now.runs + wanted ≤ cluster_limit }
    ensures few { result ≡ true → length extents.now.runs + wanted ≤ 2 ^ 16 }
{
    let total = total_clusters(&extents.runs);
    let runs = extents.runs.len() as u64;
    if total > CLUSTER_LIMIT || runs > MOST_RUNS {
        return false;
    }
    0 < wanted && wanted <= CLUSTER_LIMIT - total && wanted <= MOST_RUNS - runs
}

/// Whether the index may get so many blocks in a draft, for which some clusters come.
pub fn may_grow_blocks(clusters: u64, more: u64, index: &IndexBlocks) -> bool
    requires clusters { clusters ≤ cluster_limit }
    requires number { index.now.number < 2 ^ 48 }
    requires fits { FitsButRoom index.now.file }
    ensures may { result ≡ true → MayGrowBlocks 8 clusters more index.now }
    ensures whole { result ≡ true → index.now.extents.real ≡ 4096 * (index.now.extents.real / 4096) }
    ensures some { result ≡ true → 0 < wanted_clusters 8 more index.now.extents }
{
    if more > MOST_MORE || index.bits.len() > MOST_BITS || !may_place(clusters, &index.extents) {
        return false;
    }
    has_room_for(lacking(more, &index.extents), &index.extents)
}

// The record as it is written.
fn written(alloc: Global, file: &FileRec) -> Result<FileRec, AllocError>
    requires { FitsByRoom file.now }
    ensures value { IfOk result (λ q. q ≡ written_record file.now) }
    ensures fits { IfOk result FitsButRoom }
{
    let Ok(new) = written_file(alloc, file) else {
        return Err(AllocError);
    };
    Ok(new)
}

// Puts the blocks, and answers the directory's record as it is written.
fn put_grown<V: View, B: FreeBits>(
    draft: &mut Draft<'_, V>,
    alloc: Global,
    per: ClusterSize,
    bits: &mut B,
    streams: &VolumeStreams,
    index: IndexBlocks,
    more: u64,
) -> Result<FileRec, IndexFault>
    requires per { per ≡ 8 }
    requires size { streams.now.bitmap.initialised < 2 ^ 63 }
    requires index { MayGrowBlocks 8 (length (B.bits bits.old)) more index }
    ensures put { IfOk result (λ q. IfSome (V.content draft.old.view.now) (λ c. GrowsInto c (B.bits bits.old) streams.now index more draft.old.touched.items draft.new.touched.items q)) }
    ensures fits { IfOk result FitsButRoom }
    ensures full { IfErr result (OnFull (λ used. ⊥)) }
    ensures asks { AsksView V.content V.kept V.faults index_cause draft.old.view.now draft.new.view.now result }
    ensures reference { draft.new.view.ghost_name ≡ draft.old.view.ghost_name }
{
    placed_fits();
    let (bitmap, table, mirror) = (&streams.bitmap, &streams.table, &streams.mirror);
    let grown = grow_blocks(draft, alloc, per, bits, bitmap, table, mirror, index, more)?;
    Ok(written(alloc, &grown.file)?)
}

/// Whether the index may get so many blocks, counted as a step does. The error is want of memory. It
/// takes time linear in the record and its runs.
pub fn may_count(
    alloc: Global,
    clusters: u64,
    number: u64,
    file: &FileRec,
    root: u64,
    more: u64,
) -> Result<bool, Memory>
    requires fits { FitsButRoom file.now }
    ensures clusters { IfOk result (λ may. may ≡ true → clusters ≤ cluster_limit) }
    ensures number { IfOk result (λ may. may ≡ true → number < 2 ^ 48) }
    ensures few { IfOk result (λ may. may ≡ true → length file.now.attrs + 1 < 2 ^ 10) }
    ensures may { IfOk result (λ may. may ≡ true → MayGrow clusters file.now) }
    ensures little { IfOk result (λ may. may ≡ true → GrowsLittle file.now root more) }
{
    if clusters > CLUSTER_LIMIT || number >= MOST_NUMBERS {
        return Ok(false);
    }
    if file.attrs().as_slice().len() >= MOST_ATTRIBUTES || !may_grow(alloc, clusters, file)? {
        return Ok(false);
    }
    grows_little(alloc, file, root, more)
}

// Gives the index so many blocks more, where a step counts them so.
fn grow_counted<V: View, B: FreeBits>(
    draft: &mut Draft<'_, V>,
    alloc: Global,
    per: ClusterSize,
    bits: &mut B,
    streams: &VolumeStreams,
    number: u64,
    file: &FileRec,
    root: u64,
    more: u64,
) -> Result<FileRec, IndexFault>
    requires per { per ≡ 8 }
    requires size { streams.now.bitmap.initialised < 2 ^ 63 }
    requires fits { FitsButRoom file.now }
    requires clusters { length (B.bits bits.old) ≤ cluster_limit }
    requires number { number < 2 ^ 48 }
    requires few { length file.now.attrs + 1 < 2 ^ 10 }
    requires may { MayGrow (length (B.bits bits.old)) file.now }
    requires counts { CountsOf (B.bits bits.old) file.now root more }
    ensures put { IfOk result (λ q. IfSome (V.content draft.old.view.now) (λ c. GrowsCounted c (B.bits bits.old) streams.now number file.now root more draft.old.touched.items draft.new.touched.items q)) }
    ensures fits { IfOk result FitsButRoom }
    ensures full { IfErr result (OnFull (λ used. ⊥)) }
    ensures asks { AsksView V.content V.kept V.faults index_cause draft.old.view.now draft.new.view.now result }
    ensures reference { draft.new.view.ghost_name ≡ draft.old.view.ghost_name }
{
    let clusters = bits.len();
    let Some(index) = index_blocks(alloc, number, file)? else {
        return Err(IndexFault::Unplanned);
    };
    if !may_grow_blocks(clusters, more, &index) {
        return Err(IndexFault::Unplanned);
    }
    put_grown(draft, alloc, per, bits, streams, index, more)
}

/// Gives a directory's index so many blocks more in a draft, as a step of the volume counts them
/// where the value of the index's root comes to have `root` bytes (Linux-NTFS documentation,
/// "$INDEX_ALLOCATION", "$BITMAP"): what [`grow_blocks`] puts, of the directory of this number, whose
/// record is `file`; its index has both streams or neither, and a bitmap in the record. `bits` are
/// those of the clusters, and `counted` the same once more, which are of no more use afterwards. The
/// volume has 8 sectors a cluster. The answer is the directory's record as it is written.
///
/// - [`IndexFault::Full`]: by the count of a step the record would use so many bytes, which are
///   above 1,024; the draft is as it was.
/// - [`IndexFault::Unplanned`]: the bitmap stands in clusters or has to leave the record; the blocks
///   take no cluster; the record has no room with its root from before; or what was read is part of
///   no state.
/// - [`IndexFault::Fault`]: the view failed, and counts it.
/// - [`IndexFault::Memory`]: want of memory.
///
/// After an error but the first the draft is of no more use. It takes time and memory linear in the
/// record, the runs and the blocks that come, and for each run that the index takes a search of the
/// bits.
pub fn grow_as_counted<V: View, B: FreeBits>(
    draft: &mut Draft<'_, V>,
    alloc: Global,
    per: ClusterSize,
    bits: &mut B,
    counted: &mut B,
    streams: &VolumeStreams,
    number: u64,
    file: &FileRec,
    root: u64,
    more: u64,
) -> Result<FileRec, IndexFault>
    requires per { per ≡ 8 }
    requires size { streams.now.bitmap.initialised < 2 ^ 63 }
    requires fits { FitsButRoom file.now }
    requires same { B.bits counted.old ≡ B.bits bits.old }
    ensures put { IfOk result (λ q. IfSome (V.content draft.old.view.now) (λ c. GrowsCounted c (B.bits bits.old) streams.now number file.now root more draft.old.touched.items draft.new.touched.items q)) }
    ensures fits { IfOk result FitsButRoom }
    ensures full { IfErr result (OnFull (IsTooFull (B.bits bits.old) file.now root more)) }
    ensures stays { IfErr result (OnFull (λ used. draft.new.touched.items ≡ draft.old.touched.items)) }
    ensures asks { AsksView V.content V.kept V.faults index_cause draft.old.view.now draft.new.view.now result }
    ensures reference { draft.new.view.ghost_name ≡ draft.old.view.ghost_name }
{
    let clusters = counted.len();
    if !may_count(alloc, clusters, number, file, root, more)? {
        return Err(IndexFault::Unplanned);
    }
    match count(alloc, per, counted, file, root, more) {
        Ok(true) => { grow_counted(draft, alloc, per, bits, streams, number, file, root, more) }
        Ok(false) => Err(IndexFault::Unplanned),
        Err(DataFault::Full { used }) => Err(IndexFault::Full { used }),
        Err(DataFault::Short { .. }) => Err(IndexFault::Unplanned),
        Err(DataFault::Memory) => Err(IndexFault::Memory),
    }
}
