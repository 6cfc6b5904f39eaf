//! Streams of record 0 that become longer: the records' own clusters, and the bitmap of their
//! numbers.
ghost use Rattle.std.specs.Prelude.{◌≡◌, ◌+◌, ◌-◌, ◌*◌, ◌/◌, ◌<◌, ◌≤◌, ◌^◌, [], ◌++◌, Err, All, IfOk, IfErr, not, max, count_by, length};
ghost use Rattle.host_base.specs.Answers.{GivesOrFails};
ghost use Rattle.record_model.specs.Pairs.{cluster_limit, HasSpelling};
ghost use Rattle.draft_bitmaps.specs.record_streams.Fitting.{FitsButRoom};
ghost use Rattle.draft_bitmaps.specs.space_model.Choosing.{chosen, with_runs};
ghost use Rattle.draft_bitmaps.specs.plan_space.declared.fault.SpaceFault.TheVariants.{Short, Memory as no_memory};
ghost use Rattle.draft_bitmaps.specs.stream_runs.Runs.{last_cluster, IsNear};
ghost use Rattle.draft_bitmaps.specs.state_model.Loads.{total_clusters};
ghost use Rattle.record_model.specs.Constants.{data_type};
ghost use Rattle.draft_bitmaps.specs.record_streams.Placing.{placed_record};
ghost use Rattle.draft_bitmaps.specs.resized_streams.Resizing.{clusters_for, with_sizes, IsGrown};
ghost use Rattle.draft_bitmaps.specs.Bitmaps.{IsBitmap};
ghost use Rattle.draft_bitmaps.specs.state_model.declared.stream.Stream.TheVariants.{Held, Placed};
ghost use Rattle.draft_growth.specs.Faults.{space_cause};
ghost use Rattle.draft_growth.specs.Growing.{size_in, standing, wanted_for, space_for, table_clusters, larger, placed_in, roomier, with_room, more_for, MayGrow, MayGrowIn, IsTable, IsLonger, IsLongerData};

use crate::held::longer_held;
use crate::table::Table;
use draft_bitmaps::{
    Bitmap, ClusterSize, Extents, FreeBits, Resized, SpaceFault, Stream, grow, sized,
    total_clusters,
};
use host_base::{Bytes, Memory};
use record_model::{DATA, Run};
use std::alloc::Global;

/// A bitmap that has become longer, the clusters that it took, and the bytes that left its record
/// for them.
#[derive(Debug, Drop)]
pub struct Longer {
    pub bitmap: Bitmap,
    pub taken: Vec<Run>,
    pub leaving: Bytes,
}

// How many clusters the file table grows by, and how many bytes of records.
const TABLE_CLUSTERS: u64 = 64;

const TABLE_BYTES: u64 = 262_144;

// The records' stream with these clusters, and of a size that has 256 records more.
fn larger_data(alloc: Global, per: ClusterSize, grown: Resized) -> Result<Resized, SpaceFault>
    requires spelled { HasSpelling 0 grown.extents.runs }
    requires few { length grown.extents.runs ≤ 2 ^ 16 }
    requires fits { FitsButRoom grown.file }
    requires real { grown.extents.real < 2 ^ 50 }
    requires initialised { grown.extents.initialised < 2 ^ 50 }
    ensures extents { IfOk result (λ z. z.extents ≡ larger grown.extents) }
    ensures file { IfOk result (λ z. z.file ≡ placed_record per data_type [] (larger grown.extents) grown.file) }
    ensures taken { IfOk result (λ z. z.taken ≡ grown.taken) }
    ensures fits { IfOk result (λ z. FitsButRoom z.file) }
    ensures memory { IfErr result (λ e. e ≡ no_memory) }
{
    let real = grown.extents.real + TABLE_BYTES;
    let initialised = grown.extents.initialised + TABLE_BYTES;
    let larger = sized(
        alloc,
        per,
        DATA,
        &[],
        &grown.extents,
        &grown.file,
        real,
        initialised,
    )?;
    Ok(Resized {
        file: larger.file,
        extents: larger.extents,
        taken: grown.taken,
        freed: grown.freed,
    })
}

// The records' stream with 64 clusters more and 256 records more, as record 0 then has it.
pub fn longer_data<B: FreeBits>(
    alloc: Global,
    per: ClusterSize,
    bits: &mut B,
    table: &Table,
) -> Result<Resized, SpaceFault>
    requires table { IsTable (length (B.bits bits.old)) table.now }
    ensures value { IfOk result (λ z. IsLongerData per table.now (chosen (B.bits bits.old) (last_cluster table.now.extents.runs) table_clusters) z) }
    ensures bits { IfOk result (λ z. B.bits bits.new ≡ with_runs z.taken.items (B.bits bits.old)) }
    ensures short { count_by not (B.bits bits.old) < table_clusters → result ≡ Err (Short (count_by not (B.bits bits.old))) }
    ensures enough { table_clusters ≤ count_by not (B.bits bits.old) → IfErr result (λ e. e ≡ no_memory) }
    ensures fits { IfOk result (λ z. FitsButRoom z.file) }
    ensures near { IfOk result (λ z. All IsNear z.taken.items) }
{
    let grown = grow(
        alloc,
        per,
        bits,
        DATA,
        &[],
        &table.extents,
        &table.bitmap.file,
        TABLE_CLUSTERS,
    )?;
    let larger = larger_data(alloc, per, grown)?;
    Ok(larger)
}

// The bitmap with the clusters that it took, and of at least this size.
fn roomier(
    alloc: Global,
    per: ClusterSize,
    bitmap: &Bitmap,
    size: u64,
    grown: Resized,
) -> Result<Longer, Memory>
    requires stands { IsBitmap bitmap.now }
    requires spelled { HasSpelling 0 grown.extents.runs }
    requires few { length grown.extents.runs ≤ 2 ^ 16 }
    requires fits { FitsButRoom grown.file }
    requires initialised { grown.extents.initialised < 2 ^ 61 }
    ensures bitmap { IfOk result (λ l. l.bitmap ≡ placed_in per (with_sizes (max grown.extents.real size) grown.extents.initialised grown.extents) grown.file bitmap.now) }
    ensures taken { IfOk result (λ l. l.taken ≡ grown.taken) }
    ensures leaving { IfOk result (λ l. l.leaving ≡ []) }
    ensures stands { IfOk result (λ l. IsBitmap l.bitmap) }
{
    let kind = bitmap.kind;
    let extents = &grown.extents;
    let real = extents.real.max(size);
    let new = sized(
        alloc,
        per,
        kind,
        &[],
        extents,
        &grown.file,
        real,
        extents.initialised,
    )?;
    Ok(Longer {
        bitmap: Bitmap {
            number: bitmap.number,
            kind,
            file: new.file,
            stream: Stream::Placed(new.extents),
        },
        taken: grown.taken,
        leaving: Bytes::new(alloc),
    })
}

// How many clusters have so many bytes.
fn clusters_for(per: ClusterSize, size: u64) -> u64
    requires { size < 2 ^ 63 }
    ensures value { result ≡ clusters_for per size }
    ensures few { result ≤ size / 512 + 1 }
{
    let bytes = 512 * per.sectors();
    (size + (bytes - 1)) / bytes
}

// The clusters that a bitmap wants for so many bytes, taken.
fn wider<B: FreeBits>(
    alloc: Global,
    per: ClusterSize,
    bits: &mut B,
    bitmap: &Bitmap,
    extents: &Extents,
    size: u64,
) -> Result<Resized, SpaceFault>
    requires stands { IsBitmap bitmap.now }
    requires few { length (B.bits bits.old) ≤ cluster_limit }
    requires stream { MayGrow (length (B.bits bits.old)) extents.now }
    requires size { size ≤ 2 ^ 19 }
    ensures value { IfOk result (λ z. IsGrown per bitmap.now.kind [] extents.now bitmap.now.file (more_for per size (B.bits bits.old) (Placed extents.now)) z) }
    ensures bits { IfOk result (λ z. B.bits bits.new ≡ with_runs z.taken.items (B.bits bits.old)) }
    ensures space { GivesOrFails (λ _. tt) space_cause result (space_for (wanted_for per size (Placed extents.now)) (B.bits bits.old)) }
    ensures near { IfOk result (λ z. All IsNear z.taken.items) }
    ensures fits { IfOk result (λ z. FitsButRoom z.file) }
    ensures spelled { IfOk result (λ z. HasSpelling 0 z.extents.runs) }
    ensures few { IfOk result (λ z. length z.extents.runs ≤ 2 ^ 16) }
{
    let has = total_clusters(extents.runs.as_slice());
    let wanted = clusters_for(per, size).saturating_sub(has);
    grow(
        alloc,
        per,
        bits,
        bitmap.kind,
        &[],
        extents,
        &bitmap.file,
        wanted,
    )
}

// The bitmap in clusters with as many more as it needs for so many bytes.
pub fn longer_placed<B: FreeBits>(
    alloc: Global,
    per: ClusterSize,
    bits: &mut B,
    bitmap: &Bitmap,
    extents: &Extents,
    size: u64,
) -> Result<Longer, SpaceFault>
    requires stands { IsBitmap bitmap.now }
    requires few { length (B.bits bits.old) ≤ cluster_limit }
    requires stream { MayGrow (length (B.bits bits.old)) extents.now }
    requires size { size ≤ 2 ^ 19 }
    ensures value { IfOk result (λ l. l.bitmap ≡ with_room per size (more_for per size (B.bits bits.old) (Placed extents.now)) (Placed extents.now) bitmap.now) }
    ensures taken { IfOk result (λ l. l.taken.items ≡ more_for per size (B.bits bits.old) (Placed extents.now)) }
    ensures leaving { IfOk result (λ l. l.leaving ≡ []) }
    ensures bits { IfOk result (λ l. B.bits bits.new ≡ with_runs l.taken.items (B.bits bits.old)) }
    ensures space { GivesOrFails (λ _. tt) space_cause result (space_for (wanted_for per size (Placed extents.now)) (B.bits bits.old)) }
    ensures stands { IfOk result (λ l. IsBitmap l.bitmap) }
    ensures near { IfOk result (λ l. All IsNear l.taken.items) }
{
    let has = total_clusters(extents.runs.as_slice());
    let wanted = clusters_for(per, size).saturating_sub(has);
    let grown = grow(
        alloc,
        per,
        bits,
        bitmap.kind,
        &[],
        extents,
        &bitmap.file,
        wanted,
    )?;
    let longer = roomier(alloc, per, bitmap, size, grown)?;
    Ok(longer)
}

// The bitmap with room for so many bytes, wherever it stands: a value leaves its record for clusters
// where that would be too full with the longer one.
pub fn longer_bitmap<B: FreeBits>(
    alloc: Global,
    per: ClusterSize,
    bits: &mut B,
    bitmap: &Bitmap,
    size: u64,
) -> Result<Longer, SpaceFault>
    requires stands { IsBitmap bitmap.now }
    requires few { length (B.bits bits.old) ≤ cluster_limit }
    requires stream { MayGrowIn (length (B.bits bits.old)) size bitmap.now.stream }
    requires size { size ≤ 2 ^ 19 }
    ensures value { IfOk result (λ l. IsLonger per (size_in bitmap.now.stream size) (B.bits bits.old) bitmap.now l) }
    ensures bits { IfOk result (λ l. B.bits bits.new ≡ with_runs l.taken.items (B.bits bits.old)) }
    ensures space { GivesOrFails (λ _. tt) space_cause result (space_for (wanted_for per (size_in bitmap.now.stream size) (standing (size_in bitmap.now.stream size) bitmap.now)) (B.bits bits.old)) }
    ensures stands { IfOk result (λ l. IsBitmap l.bitmap) }
    ensures near { IfOk result (λ l. All IsNear l.taken.items) }
    ensures few { IfOk result (λ l. length l.leaving ≤ 2 ^ 16) }
{
    match &bitmap.stream {
        Stream::Held(value) => {
            let value = value.as_slice();
            let size = size.max(value.len() as u64);
            longer_held(alloc, per, bits, bitmap, value, size)
        }
        Stream::Placed(extents) => longer_placed(alloc, per, bits, bitmap, extents, size),
    }
}
