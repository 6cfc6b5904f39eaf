//! The record of a directory whose index has more blocks.
ghost use Rattle.std.specs.Prelude.{◌≡◌, ◌<◌, ◌≤◌, ◌^◌, All, IfOk, IfErr, Err, not, count_by, length, max};
ghost use Rattle.record_model.specs.Constants.{bitmap_type, index_root, names_index};
ghost use Rattle.draft_growth.specs.record_streams.Fitting.{FitsButRoom, IsPlaceable};
ghost use Rattle.draft_growth.specs.record_values.Values.{valued_record};
ghost use Rattle.draft_growth.specs.resized_streams.Resizing.{clusters_for, with_sizes};
ghost use Rattle.plan_space.specs.declared.fault.SpaceFault.TheVariants.{Short, Memory as no_memory};
ghost use Rattle.space_model.specs.Choosing.{with_runs};
ghost use Rattle.stream_runs.specs.Runs.{IsNear};
ghost use Rattle.draft_indexes.specs.Growing.{is_used, bytes_of_bits, wanted_clusters, taken_for, MayGrowBlocks, IsLongerIndex, IsRaisedIndex};

use crate::blocks::IndexBlocks;
use crate::used::used_bytes;
use draft_growth::{Resized, grow, valued_record};
use host_base::Memory;
use plan_space::{FreeBits, SpaceFault};
use record_model::{BITMAP_TYPE, INDEX_ALLOCATION, INDEX_ROOT, NAMES_INDEX};
use state_model::{ClusterSize, Extents};
use std::alloc::Global;
use stream_runs::total_clusters;

// How many clusters have so many bytes.
fn clusters_for(per: ClusterSize, size: u64) -> u64
    requires { size < 2 ^ 63 }
    ensures { result ≡ clusters_for per size }
{
    let bytes = 512 * per.sectors();
    (size + (bytes - 1)) / bytes
}

// The stream of this size, all of it initialised.
fn raised(extents: Extents, size: u64) -> Extents
    ensures { result ≡ with_sizes size size extents }
{
    Extents {
        runs: extents.runs,
        allocated: extents.allocated,
        real: size,
        initialised: size,
    }
}

// The record with this value of a stream; all else stays.
fn with_value(alloc: Global, grown: Resized, kind: u32, value: &[u8]) -> Result<Resized, Memory>
    requires short { length value.now ≤ 2 ^ 16 }
    requires kind { IsPlaceable kind }
    requires fits { FitsButRoom grown.file }
    ensures file { IfOk result (λ z. z.file ≡ valued_record kind names_index value.now grown.file) }
    ensures extents { IfOk result (λ z. z.extents ≡ grown.extents) }
    ensures taken { IfOk result (λ z. z.taken ≡ grown.taken) }
    ensures freed { IfOk result (λ z. z.freed ≡ grown.freed) }
    ensures fits { IfOk result (λ z. FitsButRoom z.file) }
{
    let file = valued_record(alloc, kind, &NAMES_INDEX, value, &grown.file)?;
    Ok(Resized {
        file,
        extents: grown.extents,
        taken: grown.taken,
        freed: grown.freed,
    })
}

// The record with a bitmap of at least so many bytes, in which the bits of the blocks from `first`
// on, below `end`, are set.
fn with_bits(
    alloc: Global,
    grown: Resized,
    bits: &[u8],
    first: u64,
    end: u64,
    size: u64,
) -> Result<Resized, Memory>
    requires short { length bits.now ≤ 2 ^ 15 }
    requires size { size ≤ 2 ^ 16 }
    requires fits { FitsButRoom grown.file }
    ensures file { IfOk result (λ z. z.file ≡ valued_record bitmap_type names_index (bytes_of_bits (is_used first end bits.now) (max (length bits.now) size)) grown.file) }
    ensures extents { IfOk result (λ z. z.extents ≡ grown.extents) }
    ensures taken { IfOk result (λ z. z.taken ≡ grown.taken) }
    ensures freed { IfOk result (λ z. z.freed ≡ grown.freed) }
    ensures fits { IfOk result (λ z. FitsButRoom z.file) }
{
    let bytes = used_bytes(alloc, bits, first, end, size)?;
    with_value(alloc, grown, BITMAP_TYPE, bytes.as_slice())
}

// The directory with the clusters and sizes of so many blocks more.
pub fn longer_blocks<B: FreeBits>(
    alloc: Global,
    per: ClusterSize,
    bits: &mut B,
    index: IndexBlocks,
    more: u64,
) -> Result<Resized, SpaceFault>
    requires index { MayGrowBlocks per (length (B.bits bits.old)) more index }
    ensures value { IfOk result (λ z. IsLongerIndex per (taken_for per (B.bits bits.old) more index.extents) more index z) }
    ensures bits { IfOk result (λ z. B.bits bits.new ≡ with_runs z.taken.items (B.bits bits.old)) }
    ensures short { count_by not (B.bits bits.old) < wanted_clusters per more index.extents → result ≡ Err (Short (count_by not (B.bits bits.old))) }
    ensures unchanged { count_by not (B.bits bits.old) < wanted_clusters per more index.extents → B.bits bits.new ≡ B.bits bits.old }
    ensures enough { wanted_clusters per more index.extents ≤ count_by not (B.bits bits.old) → IfErr result (λ e. e ≡ no_memory) }
    ensures near { IfOk result (λ z. All IsNear z.taken.items) }
    ensures fits { IfOk result (λ z. FitsButRoom z.file) }
{
    let first = index.extents.real / 4096;
    let size = index.extents.real + 4096 * more;
    let has = total_clusters(index.extents.runs.as_slice());
    let wanted = clusters_for(per, size).saturating_sub(has);
    let extents = raised(index.extents, size);
    let grown = grow(
        alloc,
        per,
        bits,
        INDEX_ALLOCATION,
        &NAMES_INDEX,
        &extents,
        &index.file,
        wanted,
    )?;
    let longer = with_bits(
        alloc,
        grown,
        index.bits.as_slice(),
        first,
        size / 4096,
        8 * ((size / 4096 + 63) / 64),
    )?;
    Ok(longer)
}

// The directory with these, and with this root of its index.
pub fn raised_blocks<B: FreeBits>(
    alloc: Global,
    per: ClusterSize,
    bits: &mut B,
    index: IndexBlocks,
    more: u64,
    root: &[u8],
) -> Result<Resized, SpaceFault>
    requires index { MayGrowBlocks per (length (B.bits bits.old)) more index }
    requires root { length root.now ≤ 2 ^ 16 }
    ensures value { IfOk result (λ z. IsRaisedIndex per (taken_for per (B.bits bits.old) more index.extents) more root.now index z) }
    ensures bits { IfOk result (λ z. B.bits bits.new ≡ with_runs z.taken.items (B.bits bits.old)) }
    ensures short { count_by not (B.bits bits.old) < wanted_clusters per more index.extents → result ≡ Err (Short (count_by not (B.bits bits.old))) }
    ensures unchanged { count_by not (B.bits bits.old) < wanted_clusters per more index.extents → B.bits bits.new ≡ B.bits bits.old }
    ensures enough { wanted_clusters per more index.extents ≤ count_by not (B.bits bits.old) → IfErr result (λ e. e ≡ no_memory) }
    ensures near { IfOk result (λ z. All IsNear z.taken.items) }
    ensures fits { IfOk result (λ z. FitsButRoom z.file) }
{
    let longer = longer_blocks(alloc, per, bits, index, more)?;
    let raised = with_value(alloc, longer, INDEX_ROOT, root)?;
    Ok(raised)
}
