//! A file table that grows first in a draft, as a step counts it.
ghost use Rattle.std.specs.Prelude.{◌≡◌, ◌≤◌, true, IfErr, IfOk, IfSome, length};
ghost use Rattle.block_view.specs.Views.{AsksView};
ghost use Rattle.record_streams.specs.Fitting.{FitsButRoom};
ghost use Rattle.state_model.specs.declared.stream.Stream.TheVariants.{Placed};
ghost use Rattle.draft_bitmaps.specs.Bitmaps.{bit_count, IsBitmap};
ghost use Rattle.draft_growth.specs.Growing.{IsTable};
ghost use Rattle.table_makes.specs.Faults.{table_cause, OnCountFull, OnFull};
ghost use Rattle.table_makes.specs.Growing.{IsTooFull, PutsFirst, TableGrew};

use crate::counting::count;
use crate::fault::{CountFault, TableFault};
use crate::grown::TableGrown;
use block_view::View;
use draft_bitmaps::{Bitmap, ClusterSize, Draft, Extents, FileRec, FreeBits, Stream};
use draft_growth::{Table, grow_table, may_have_more};
use file_puts::VolumeStreams;
use planned_streams::{bitmap_of, has_bits, table_of};
use record_model::DATA;
use std::alloc::{AllocError, Global};

// The number of the file of the clusters' bits.
const BITMAP_FILE: u64 = 6;

// A copy of where a stream lies.
fn copy_of(extents: &Extents) -> Result<Extents, AllocError>
    ensures { IfOk result (λ copy. copy ≡ extents.now) }
{
    Ok(Extents {
        runs: extents.runs.clone()?,
        allocated: extents.allocated,
        real: extents.real,
        initialised: extents.initialised,
    })
}

// The volume's streams with this table.
fn with_table(table: Extents, streams: &VolumeStreams) -> Result<VolumeStreams, AllocError>
    ensures { IfOk result (λ s. s ≡ record { table = table; mirror = streams.now.mirror; bitmap = streams.now.bitmap }) }
{
    let mirror = copy_of(&streams.mirror)?;
    let bitmap = copy_of(&streams.bitmap)?;
    Ok(VolumeStreams {
        table,
        mirror,
        bitmap,
    })
}

// The table that has grown, with the volume's other streams, where its bitmap stands in clusters.
fn grown_of(table: Table, streams: &VolumeStreams) -> Result<TableGrown, CountFault>
    ensures streams { IfOk result (λ x. x.streams ≡ record { table = table.extents; mirror = streams.now.mirror; bitmap = streams.now.bitmap }) }
    ensures numbers { IfOk result (λ x. table.bitmap.stream ≡ Placed x.numbers) }
    ensures full { IfErr result (OnCountFull (λ used. ⊥)) }
{
    let Table { extents, bitmap } = table;
    let stream = bitmap.stream;
    let streams = with_table(extents, streams)?;
    match stream {
        Stream::Placed(numbers) => Ok(TableGrown { streams, numbers }),
        Stream::Held(_) => Err(CountFault::Unplanned),
    }
}

// Puts the table, and answers what it is then.
fn put_first<V: View, B: FreeBits>(
    draft: &mut Draft<'_, V>,
    alloc: Global,
    per: ClusterSize,
    bits: &mut B,
    streams: &VolumeStreams,
    table: Table,
    marks: &mut Bitmap,
) -> Result<TableGrown, TableFault>
    requires per { per ≡ 8 }
    requires table { IsTable (length (B.bits bits.old)) table }
    requires marks { IsBitmap marks.old }
    requires within { length (B.bits bits.old) ≤ bit_count marks.old.stream }
    ensures put { IfOk result (λ x. IfSome (V.content draft.old.view.now) (λ c. PutsFirst c (B.bits bits.old) streams.now table marks.old draft.old.touched.items draft.new.touched.items x (B.bits bits.new))) }
    ensures full { IfErr result (OnFull (λ used. ⊥)) }
    ensures asks { AsksView V.content V.kept V.faults table_cause draft.old.view.now draft.new.view.now result }
    ensures reference { draft.new.view.ghost_name ≡ draft.old.view.ghost_name }
{
    let after = grow_table(draft, alloc, per, bits, &streams.mirror, table, marks)?;
    Ok(grown_of(after, streams)?)
}

/// Grows the file table in a draft as a step of the volume counts it where no number is spare
/// (Linux-NTFS documentation, "$MFT"): what [`grow_table`] puts. `file` is record 0, `bits_file` is
/// record 6, which has the bits of the clusters as its data; `bits` are those bits, and `counted`
/// the same once more, which are of no more use afterwards. The volume has 8 sectors a cluster. The
/// answer is the volume's streams with the longer table, and where the bits of its numbers stand;
/// `bits` are then those that are left.
///
/// - [`TableFault::Full`]: record 0 would use so many bytes, which are above 1,024; the draft is as
///   it was.
/// - [`TableFault::Unplanned`]: the bitmap of the numbers is a value of more than 1,024 bytes, one
///   that stays a value, or one that leaves record 0, which is too full all the same; it lacks no
///   cluster and has runs that touch; record 0 has room by the count of a step, and not as it is
///   put; fewer clusters are clear than come; the table's size cuts a record, or it would have too
///   many; or what was read is part of no state.
/// - [`TableFault::Fault`]: the view failed, and counts it.
/// - [`TableFault::Memory`]: want of memory.
///
/// After an error but the first the draft is of no more use. It takes time and memory linear in
/// record 0 and its runs and in what comes, and for each run that comes a search of the bits.
pub fn grow_table_first<V: View, B: FreeBits>(
    draft: &mut Draft<'_, V>,
    alloc: Global,
    per: ClusterSize,
    bits: &mut B,
    counted: &mut B,
    streams: &VolumeStreams,
    file: FileRec,
    bits_file: FileRec,
) -> Result<TableGrown, TableFault>
    requires per { per ≡ 8 }
    requires fits { FitsButRoom file }
    requires bits_fits { FitsButRoom bits_file }
    requires same { B.bits counted.old ≡ B.bits bits.old }
    ensures put { IfOk result (λ x. IfSome (V.content draft.old.view.now) (λ c. TableGrew c (B.bits bits.old) streams.now file bits_file draft.old.touched.items draft.new.touched.items x (B.bits bits.new))) }
    ensures full { IfErr result (OnFull (IsTooFull (B.bits bits.old) file)) }
    ensures stays { IfErr result (OnFull (λ used. draft.new.touched.items ≡ draft.old.touched.items)) }
    ensures asks { AsksView V.content V.kept V.faults table_cause draft.old.view.now draft.new.view.now result }
    ensures reference { draft.new.view.ghost_name ≡ draft.old.view.ghost_name }
{
    let clusters = counted.len();
    let Some(table) = table_of(alloc, clusters, file)? else {
        return Err(TableFault::Unplanned);
    };
    let Some(mut marks) = bitmap_of(alloc, BITMAP_FILE, DATA, bits_file)? else {
        return Err(TableFault::Unplanned);
    };
    if !may_have_more(&table) || !has_bits(&marks.stream, clusters) {
        return Err(TableFault::Unplanned);
    }
    count(alloc, per, counted, &table)?;
    put_first(draft, alloc, per, bits, streams, table, &mut marks)
}
