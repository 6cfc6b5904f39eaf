//! Whether a file table grows as a step counts it.
ghost use Rattle.std.specs.Prelude.{◌≡◌, ◌+◌, ◌*◌, ◌/◌, ◌<◌, ◌≤◌, ◌^◌, [], true, Ok, Err, IfErr, IfOk, length, max, take};
ghost use Rattle.record_model.specs.Constants.{data_type};
ghost use Rattle.record_model.specs.Pairs.{cluster_limit, HasSpelling};
ghost use Rattle.record_streams.specs.Fitting.{FitsButRoom, IsPlaceable};
ghost use Rattle.record_streams.specs.Placing.{placed_record};
ghost use Rattle.draft_records.specs.Records.{fits_room};
ghost use Rattle.space_model.specs.Choosing.{chosen, with_runs};
ghost use Rattle.state_model.specs.declared.stream.Stream.TheVariants.{Held, Placed};
ghost use Rattle.state_model.specs.Loads.{total_clusters};
ghost use Rattle.stream_runs.specs.Runs.{last_cluster, merged};
ghost use Rattle.draft_growth.specs.Growing.{behind_records, bitmap_size, grown_record, larger, more_for, numbers_bytes, roomier, table_clusters, wanted_for, with_records, IsTable, MayGrow};
ghost use Rattle.resized_streams.specs.Resizing.{lengthened, with_sizes};
ghost use Rattle.table_makes.specs.Faults.{OnCountFull};
ghost use Rattle.table_makes.specs.Growing.{lacking, CountsTheSame, IsTooFullAs};

use crate::fault::CountFault;
use draft_bitmaps::{
    ClusterSize, Extents, FileRec, FreeBits, Resized, SpaceFault, Stream, grow, placed_fits, sized,
};
use draft_growth::Table;
use draft_records::written_file;
use found_files::total_clusters;
use host_base::Memory;
use record_model::{DATA, Run, Runs};
use record_writer::RoomFault;
use std::alloc::Global;
use stream_runs::merged;

// How many clusters the file table grows by, how many bytes of records, and how many numbers.
const TABLE_CLUSTERS: u64 = 64;

const TABLE_BYTES: u64 = 262_144;

const TABLE_RECORDS: u64 = 256;

// The most bytes of a bitmap of numbers that is a value.
const MOST_VALUE: usize = 1024;

// Record 0 with the records' stream of a size that has 256 records more.
fn larger_data(alloc: Global, per: ClusterSize, grown: &Resized) -> Result<FileRec, Memory>
    requires spelled { HasSpelling 0 grown.now.extents.runs }
    requires few { length grown.now.extents.runs ≤ 2 ^ 16 }
    requires fits { FitsButRoom grown.now.file }
    requires real { grown.now.extents.real < 2 ^ 50 }
    requires initialised { grown.now.extents.initialised < 2 ^ 50 }
    ensures value { IfOk result (λ file. file ≡ placed_record per data_type [] (larger grown.now.extents) grown.now.file) }
    ensures fits { IfOk result FitsButRoom }
{
    let extents = &grown.extents;
    let real = extents.real + TABLE_BYTES;
    let initialised = extents.initialised + TABLE_BYTES;
    let new = sized(
        alloc,
        per,
        DATA,
        &[],
        extents,
        &grown.file,
        real,
        initialised,
    )?;
    Ok(new.file)
}

// Record 0 with 64 clusters and 256 records more.
fn longer_data<B: FreeBits>(
    alloc: Global,
    per: ClusterSize,
    bits: &mut B,
    table: &Table,
) -> Result<FileRec, SpaceFault>
    requires table { IsTable (length (B.bits bits.old)) table.now }
    ensures value { IfOk result (λ file. file ≡ with_records per (chosen (B.bits bits.old) (last_cluster table.now.extents.runs) table_clusters) table.now) }
    ensures bits { IfOk result (λ file. B.bits bits.new ≡ behind_records (B.bits bits.old) table.now) }
    ensures fits { IfOk result FitsButRoom }
{
    let own = &table.bitmap.file;
    let grown = grow(
        alloc,
        per,
        bits,
        DATA,
        &[],
        &table.extents,
        own,
        TABLE_CLUSTERS,
    )?;
    Ok(larger_data(alloc, per, &grown)?)
}

// How many clusters a bitmap lacks for so many bytes.
fn lacking(size: u64, extents: &Extents) -> u64
    requires size { size ≤ 2 ^ 19 }
    requires spelled { HasSpelling 0 extents.now.runs }
    ensures value { result ≡ wanted_for 8 size (Placed extents.now) }
    ensures few { result ≤ 2048 }
{
    ((size + 4095) / 4096).saturating_sub(total_clusters(&extents.runs))
}

// How many first runs are the same in both lists.
#[tactic(auto, using(crate::proofs::Runs::same_front))]
fn shared_runs(old: &[Run], new: &[Run]) -> usize
    ensures front { take result new.now ≡ take result old.now }
    ensures old { result ≤ length old.now }
    ensures new { result ≤ length new.now }
{
    let mut at = 0;
    while at < old.len() && at < new.len() && old[at] == new[at] {
        at += 1;
    }
    at
}

// Whether they are the same runs.
#[tactic(auto, using(crate::proofs::Runs::all_shared))]
fn are_equal(one: &[Run], other: &[Run]) -> bool
    ensures { result ≡ true → one.now ≡ other.now }
{
    if shared_runs(one, other) < one.len() {
        return false;
    }
    one.len() == other.len()
}

// Whether runs are joined where they touch.
fn are_joined(alloc: Global, runs: &Runs) -> Result<bool, Memory>
    requires { total_clusters runs.now ≤ cluster_limit }
    ensures { IfOk result (λ joined. joined ≡ true → merged runs.now ≡ runs.now) }
{
    let new = merged(alloc, runs)?;
    Ok(are_equal(new.as_slice(), runs.as_slice()))
}

// Whether a record has room.
fn has_room(alloc: Global, file: &FileRec) -> Result<(), CountFault>
    requires fits { FitsButRoom file.now }
    ensures room { IfOk result (λ has. fits_room file.now ≡ Ok tt) }
    ensures full { IfErr result (OnCountFull (λ used. fits_room file.now ≡ Err used)) }
{
    placed_fits();
    match written_file(alloc, file) {
        Ok(_) => Ok(()),
        Err(RoomFault::Full { used }) => Err(CountFault::Full { used: used as u64 }),
        Err(RoomFault::Memory) => Err(CountFault::Memory),
    }
}

// Record 0 with these clusters more of the bitmap of numbers, and of a size for the new ones.
fn roomier(
    alloc: Global,
    per: ClusterSize,
    kind: u32,
    size: u64,
    grown: &Resized,
) -> Result<FileRec, Memory>
    requires kind { IsPlaceable kind }
    requires spelled { HasSpelling 0 grown.now.extents.runs }
    requires few { length grown.now.extents.runs ≤ 2 ^ 16 }
    requires fits { FitsButRoom grown.now.file }
    ensures value { IfOk result (λ file. file ≡ placed_record per kind [] (with_sizes (max grown.now.extents.real size) grown.now.extents.initialised grown.now.extents) grown.now.file) }
    ensures fits { IfOk result FitsButRoom }
{
    let extents = &grown.extents;
    let real = extents.real.max(size);
    let new = sized(
        alloc,
        per,
        kind,
        &[],
        extents,
        &grown.file,
        real,
        extents.initialised,
    )?;
    Ok(new.file)
}

// Record 0, in which the records' stream is longer, with the bitmap in clusters that takes so many
// more.
fn longer_bitmap<B: FreeBits>(
    alloc: Global,
    per: ClusterSize,
    bits: &mut B,
    kind: u32,
    extents: &Extents,
    file: &FileRec,
    size: u64,
    wanted: u64,
) -> Result<FileRec, SpaceFault>
    requires kind { IsPlaceable kind }
    requires clusters { length (B.bits bits.old) ≤ cluster_limit }
    requires extents { MayGrow (length (B.bits bits.old)) extents.now }
    requires fits { FitsButRoom file.now }
    requires wanted { wanted ≤ 2048 }
    ensures value { IfOk result (λ r. r ≡ placed_record per kind [] (roomier per size (chosen (B.bits bits.old) (last_cluster extents.now.runs) wanted) extents.now) (placed_record per kind [] (lengthened per (chosen (B.bits bits.old) (last_cluster extents.now.runs) wanted) extents.now) file.now)) }
    ensures fits { IfOk result FitsButRoom }
{
    let grown = grow(alloc, per, bits, kind, &[], extents, file, wanted)?;
    Ok(roomier(alloc, per, kind, size, &grown)?)
}

// Looks at a bitmap in clusters that lacks none.
fn count_whole(alloc: Global, extents: &Extents, file: &FileRec) -> Result<(), CountFault>
    requires spelled { HasSpelling 0 extents.now.runs }
    requires total { total_clusters extents.now.runs ≤ cluster_limit }
    requires fits { FitsButRoom file.now }
    ensures joined { IfOk result (λ done. merged extents.now.runs ≡ extents.now.runs) }
    ensures room { IfOk result (λ done. fits_room file.now ≡ Ok tt) }
    ensures full { IfErr result (OnCountFull (λ used. fits_room file.now ≡ Err used)) }
{
    has_room(alloc, file)?;
    if !are_joined(alloc, &extents.runs)? {
        return Err(CountFault::Unplanned);
    }
    Ok(())
}

// Looks at a bitmap in clusters.
fn count_placed<B: FreeBits>(
    alloc: Global,
    per: ClusterSize,
    bits: &mut B,
    table: &Table,
    extents: &Extents,
) -> Result<(), CountFault>
    requires per { per ≡ 8 }
    requires table { IsTable (length (B.bits bits.old)) table.now }
    requires stream { table.now.bitmap.stream ≡ Placed extents.now }
    ensures counts { IfOk result (λ done. CountsTheSame (B.bits bits.old) table.now (Placed extents.now)) }
    ensures full { IfErr result (OnCountFull (λ used. IsTooFullAs (B.bits bits.old) table.now used (Placed extents.now))) }
{
    let kind = table.bitmap.kind;
    let size = (table.extents.real / 1024 + (TABLE_RECORDS + 7)) / 8;
    let wanted = lacking(size, extents);
    let file = longer_data(alloc, per, bits, table)?;
    if wanted == 0 {
        return count_whole(alloc, extents, &file);
    }
    let longer = longer_bitmap(alloc, per, bits, kind, extents, &file, size, wanted)?;
    has_room(alloc, &longer)
}

/// Looks whether a file table is put and counted the same where it takes clusters among these bits,
/// which are of no more use then: a bitmap of numbers that is a value has at most 1,024 bytes; and
/// the runs of one in clusters that lacks none are joined where they touch, and record 0 has room
/// with the longer table alone. It takes time and memory linear in record 0 and its runs, and for
/// each run that comes a search of the bits.
pub fn count<B: FreeBits>(
    alloc: Global,
    per: ClusterSize,
    bits: &mut B,
    table: &Table,
) -> Result<(), CountFault>
    requires per { per ≡ 8 }
    requires table { IsTable (length (B.bits bits.old)) table.now }
    ensures counts { IfOk result (λ done. CountsTheSame (B.bits bits.old) table.now table.now.bitmap.stream) }
    ensures full { IfErr result (OnCountFull (λ used. IsTooFullAs (B.bits bits.old) table.now used table.now.bitmap.stream)) }
{
    match &table.bitmap.stream {
        Stream::Held(value) => {
            if value.len() > MOST_VALUE {
                return Err(CountFault::Unplanned);
            }
            Ok(())
        }
        Stream::Placed(extents) => count_placed(alloc, per, bits, table, extents),
    }
}
