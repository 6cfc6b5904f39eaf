//! A file table that grows.
ghost use Rattle.std.specs.Prelude.{◌≡◌, ◌+◌, ◌/◌, ◌<◌, ◌≤◌, ◌^◌, true, false, Err, All, IfOk, IfErr, IfSome, OnOk, not, count_by, length};
ghost use Rattle.host_base.specs.Answers.{GivesOrFails};
ghost use Rattle.block_view.specs.Views.{AsksView};
ghost use Rattle.draft_bitmaps.specs.stream_runs.Runs.{IsNear};
ghost use Rattle.draft_bitmaps.specs.plan_draft.Faults.{fault_cause};
ghost use Rattle.draft_numbers.specs.draft_records.Faults.{draft_cause};
ghost use Rattle.draft_numbers.specs.draft_records.Records.{fits_room};
ghost use Rattle.draft_bitmaps.specs.Bitmaps.{bit_count, IsBitmap};
ghost use Rattle.draft_growth.specs.declared.fault.GrowthFault.TheVariants.{Short};
ghost use Rattle.draft_growth.specs.Faults.{growth_cause, growth_space, growth_room};
ghost use Rattle.draft_growth.specs.Clusters.{IsInside};
ghost use Rattle.draft_growth.specs.Growing.{behind_table, grown_record, space_of, table_clusters, table_records, IsTable, GrowsTable, in_file, with_leaving, PutsTable, PutsOwners, PutsGrown};

use crate::fault::GrowthFault;
use crate::longer::{Longer, longer_bitmap, longer_data};
use crate::runs::put_runs_of;
use crate::table::Table;
use crate::zeros::put_empty_records;
use block_view::{View, ViewFault};
use draft_bitmaps::{
    Bitmap, ClusterSize, Draft, Extents, FileRec, FreeBits, Stream, placed_fits, put_bits_of,
    put_bytes,
};
use draft_numbers::{DraftFault, put_file};
use host_base::Bytes;
use record_model::Run;
use std::alloc::Global;

// How many records the file table grows by.
const TABLE_RECORDS: u64 = 256;

// Puts the bytes that left a record into the clusters of their stream.
fn put_leaving<V: View>(
    draft: &mut Draft<'_, V>,
    alloc: Global,
    per: ClusterSize,
    stream: &Stream,
    bytes: &Bytes,
) -> Result<(), ViewFault>
    requires few { length bytes.now ≤ 2 ^ 16 }
    ensures put { OnOk result (IfSome (V.content draft.old.view.now) (λ c. draft.new.touched.items ≡ with_leaving c per stream.now bytes.now draft.old.touched.items)) }
    ensures asks { AsksView V.content V.kept V.faults fault_cause draft.old.view.now draft.new.view.now result }
    ensures reference { draft.new.view.ghost_name ≡ draft.old.view.ghost_name }
{
    match stream {
        Stream::Held(_) => Ok(()),
        Stream::Placed(extents) => {
            let bytes = bytes.as_slice();
            put_bytes(draft, alloc, per, &extents.runs, 0, 0, bytes)
        }
    }
}

// Puts record 0 and what left it, and clears the bits of the new numbers.
fn put_table<V: View>(
    draft: &mut Draft<'_, V>,
    alloc: Global,
    per: ClusterSize,
    table: &Extents,
    mirror: &Extents,
    bitmap: &mut Bitmap,
    leaving: &Bytes,
    first: u64,
) -> Result<(), DraftFault>
    requires stands { IsBitmap bitmap.old }
    requires few { length leaving.now ≤ 2 ^ 16 }
    requires place { first < 2 ^ 40 }
    requires within { first + table_records ≤ bit_count bitmap.old.stream }
    ensures full { IfErr (fits_room bitmap.old.file) (λ used. GivesOrFails (λ _. tt {0}) draft_cause result (Err used)) }
    ensures put { OnOk result (IfSome (V.content draft.old.view.now) (λ c. PutsTable c per table.now mirror.now bitmap.old leaving.now first draft.old.touched.items draft.new.touched.items bitmap.new)) }
    ensures stands { IsBitmap bitmap.new }
    ensures asks { AsksView V.content V.kept V.faults draft_cause draft.old.view.now draft.new.view.now result }
    ensures reference { draft.new.view.ghost_name ≡ draft.old.view.ghost_name }
{
    placed_fits();
    put_file(
        draft,
        alloc,
        per,
        table,
        mirror,
        bitmap.number,
        &bitmap.file,
    )?;
    put_leaving(draft, alloc, per, &bitmap.stream, leaving)?;
    put_bits_of(
        draft,
        alloc,
        per,
        table,
        mirror,
        bitmap,
        first,
        TABLE_RECORDS,
        false,
    )
}

// Sets the bits of the clusters that came.
fn put_owners<V: View>(
    draft: &mut Draft<'_, V>,
    alloc: Global,
    per: ClusterSize,
    table: &Extents,
    mirror: &Extents,
    clusters: &mut Bitmap,
    own: &[Run],
    more: &[Run],
) -> Result<(), DraftFault>
    requires stands { IsBitmap clusters.old }
    requires near { All IsNear own.now }
    requires near_more { All IsNear more.now }
    requires inside { All (IsInside (bit_count clusters.old.stream)) own.now }
    requires inside_more { All (IsInside (bit_count clusters.old.stream)) more.now }
    ensures put { OnOk result (IfSome (V.content draft.old.view.now) (λ c. PutsOwners c per table.now mirror.now own.now more.now clusters.old draft.old.touched.items draft.new.touched.items clusters.new)) }
    ensures stands { IsBitmap clusters.new }
    ensures asks { AsksView V.content V.kept V.faults draft_cause draft.old.view.now draft.new.view.now result }
    ensures reference { draft.new.view.ghost_name ≡ draft.old.view.ghost_name }
{
    put_runs_of(draft, alloc, per, table, mirror, clusters, own, true)?;
    put_runs_of(draft, alloc, per, table, mirror, clusters, more, true)
}

// Puts record 0 with the longer streams, the bits of what came, and the new records.
fn put_grown<V: View>(
    draft: &mut Draft<'_, V>,
    alloc: Global,
    per: ClusterSize,
    table: &Extents,
    mirror: &Extents,
    taken: &[Run],
    longer: &mut Longer,
    clusters: &mut Bitmap,
    first: u64,
) -> Result<(), DraftFault>
    requires stands { IsBitmap longer.old.bitmap }
    requires few { length longer.old.leaving ≤ 2 ^ 16 }
    requires place { first < 2 ^ 40 }
    requires within { first + table_records ≤ bit_count longer.old.bitmap.stream }
    requires clusters { IsBitmap clusters.old }
    requires near { All IsNear taken.now }
    requires near_more { All IsNear longer.old.taken.items }
    requires inside { All (IsInside (bit_count clusters.old.stream)) taken.now }
    requires inside_more { All (IsInside (bit_count clusters.old.stream)) longer.old.taken.items }
    ensures full { IfErr (fits_room longer.old.bitmap.file) (λ used. GivesOrFails (λ _. tt {0}) draft_cause result (Err used)) }
    ensures put { OnOk result (IfSome (V.content draft.old.view.now) (λ c. PutsGrown c per table.now mirror.now taken.now longer.old clusters.old first draft.old.touched.items draft.new.touched.items longer.new.bitmap clusters.new)) }
    ensures stands { IsBitmap longer.new.bitmap }
    ensures clusters { IsBitmap clusters.new }
    ensures asks { AsksView V.content V.kept V.faults draft_cause draft.old.view.now draft.new.view.now result }
    ensures reference { draft.new.view.ghost_name ≡ draft.old.view.ghost_name }
{
    put_table(
        draft,
        alloc,
        per,
        table,
        mirror,
        &mut longer.bitmap,
        &longer.leaving,
        first,
    )?;
    put_owners(
        draft,
        alloc,
        per,
        table,
        mirror,
        clusters,
        taken,
        &longer.taken,
    )?;
    put_empty_records(draft, alloc, per, table, first, TABLE_RECORDS)?;
    Ok(())
}

// A bitmap in this file.
fn in_file(bitmap: Bitmap, file: FileRec) -> Bitmap
    ensures { result ≡ in_file file bitmap }
{
    Bitmap {
        number: bitmap.number,
        kind: bitmap.kind,
        file,
        stream: bitmap.stream,
    }
}

/// Grows the file table by exactly 64 clusters, whatever slack it has, and by 256 records, in real
/// and initialised size (Linux-NTFS documentation, "$MFT"): its clusters are chosen behind its last
/// one, as [`grow`](resized_streams::grow) does; then the bitmap of its numbers has a bit for each of
/// them, in its record or in clusters, as many more as it needs, and those of the new numbers are
/// clear. A bitmap in record 0 stays there as long as that has room with it, and leaves for clusters
/// of its own where it hasn't. Record 0 is put in table and mirror, and into these clusters the
/// bitmap that left; the bits of the clusters that came are set in `clusters`, the bitmap of the
/// volume's clusters; and the new records are put as zeros, each a whole body. The volume has 8
/// sectors a cluster, so that 64 clusters have 256 records. The answer is the table as it is then;
/// the lowest new number is the count of records of before, and its sequence 1.
///
/// - [`GrowthFault::Full`]: record 0, or the record of `clusters`, would use these bytes, which are
///   above 1,024.
/// - [`GrowthFault::Short`]: fewer clusters are clear than the 64, so many; or, when these are taken,
///   fewer than the bitmap of the numbers needs, so many.
/// - [`GrowthFault::Fault`]: the view failed, which is asked where a block wasn't touched.
/// - [`GrowthFault::Memory`]: want of memory.
///
/// After an error some of it is put and taken: the draft and the bits are of no more use. It takes
/// time and memory linear in record 0 and its runs, and in what comes.
pub fn grow_table<V: View, B: FreeBits>(
    draft: &mut Draft<'_, V>,
    alloc: Global,
    per: ClusterSize,
    bits: &mut B,
    mirror: &Extents,
    table: Table,
    clusters: &mut Bitmap,
) -> Result<Table, GrowthFault>
    requires table { IsTable (length (B.bits bits.old)) table }
    requires clusters { IsBitmap clusters.old }
    requires within { length (B.bits bits.old) ≤ bit_count clusters.old.stream }
    ensures put { IfOk result (λ t. IfSome (V.content draft.old.view.now) (λ c. GrowsTable c per (B.bits bits.old) mirror.now table clusters.old draft.old.touched.items draft.new.touched.items t clusters.new)) }
    ensures stands { IfOk result (λ t. IsBitmap t.bitmap) }
    ensures bits { IfOk result (λ _. B.bits bits.new ≡ behind_table per (B.bits bits.old) table) }
    ensures space { GivesOrFails (λ _. tt) growth_space result (space_of per (B.bits bits.old) table) }
    ensures full { IfErr (fits_room (grown_record per (B.bits bits.old) table)) (λ used. GivesOrFails (λ _. tt {0}) growth_room result (Err used)) }
    ensures short { count_by not (B.bits bits.old) < table_clusters → result ≡ Err (Short (count_by not (B.bits bits.old))) }
    ensures asks { AsksView V.content V.kept V.faults growth_cause draft.old.view.now draft.new.view.now result }
    ensures reference { draft.new.view.ghost_name ≡ draft.old.view.ghost_name }
{
    let first = table.extents.real / 1024;
    let records = longer_data(alloc, per, bits, &table)?;
    let bitmap = in_file(table.bitmap, records.file);
    let size = (first + TABLE_RECORDS + 7) / 8;
    let mut longer = longer_bitmap(alloc, per, bits, &bitmap, size)?;
    let taken = &records.taken;
    put_grown(
        draft,
        alloc,
        per,
        &records.extents,
        mirror,
        taken,
        &mut longer,
        clusters,
        first,
    )?;
    Ok(Table {
        extents: records.extents,
        bitmap: longer.bitmap,
    })
}
