//! File records that a draft puts.
ghost use Rattle.std.specs.Prelude.{◌≡◌, ◌*◌, ◌/◌, ◌<◌, ◌≤◌, ◌^◌, IfErr, IfOk, IfSome, OnOk, OnErr, length};
ghost use Rattle.resized_streams.specs.host_base.Answers.{GivesOrFails};
ghost use Rattle.plan_draft.specs.block_view.Views.{AsksView};
ghost use Rattle.record_model.specs.Records.{record_spelling};
ghost use Rattle.resized_streams.specs.record_writer.NormalLaws.{FitsByRoom};
ghost use Rattle.plan_draft.specs.Touching.{bodies_of};
ghost use Rattle.plan_draft.specs.Faults.{fault_cause};
ghost use Rattle.draft_records.specs.Faults.{draft_cause};
ghost use Rattle.draft_records.specs.Records.{record_block, has_mirror, written_record, fits_room, put_if, put_record, touch_in, touch_record, IsFront, StaysWhereFull};

use crate::fault::DraftFault;
use crate::reading::is_past;
use crate::records::written_body;
use plan_draft::{BlockKind, Draft, View, ViewFault};
use resized_streams::{FileRec, block_at};
use state_model::{ClusterSize, Extents};
use std::alloc::Global;

// Whether the table's mirror has this record.
fn has_mirror(mirror: &Extents, number: u64) -> bool
    ensures { result ≡ has_mirror mirror.now number }
{
    number < 4 && number < mirror.real / 1024
}

// Puts the body of a record into its block in these extents, if it has one there.
fn put_in<V: View>(
    draft: &mut Draft<'_, V>,
    alloc: Global,
    per: ClusterSize,
    records: &Extents,
    number: u64,
    bytes: &[u8],
) -> Result<(), ViewFault>
    requires number { number < 2 ^ 48 }
    requires size { length bytes.now ≡ 1024 }
    ensures bodies { OnOk result (bodies_of draft.new.touched.items ≡ put_if (record_block per records.now number) bytes.now (bodies_of draft.old.touched.items)) }
    ensures touched { OnOk result (IfSome (V.content draft.old.view.now) (λ c. draft.new.touched.items ≡ touch_in c per records.now number bytes.now draft.old.touched.items)) }
    ensures unchanged { OnErr result (draft.new.touched.items ≡ draft.old.touched.items) }
    ensures asks { AsksView V.content V.kept V.faults fault_cause draft.old.view.now draft.new.view.now result }
    ensures reference { draft.new.view.ghost_name ≡ draft.old.view.ghost_name }
{
    let fresh = is_past(records, number);
    match block_at(per, records.runs.as_slice(), BlockKind::FileRec, number) {
        None => Ok(()),
        Some(block) => draft.put(alloc, block, fresh, bytes),
    }
}

// Puts the body of a record into its block, and into that of the mirror where this has it.
fn put_both<V: View>(
    draft: &mut Draft<'_, V>,
    alloc: Global,
    per: ClusterSize,
    table: &Extents,
    mirror: &Extents,
    number: u64,
    bytes: &[u8],
) -> Result<(), ViewFault>
    requires number { number < 2 ^ 48 }
    requires size { length bytes.now ≡ 1024 }
    ensures bodies { OnOk result (bodies_of draft.new.touched.items ≡ put_record per table.now mirror.now number bytes.now (bodies_of draft.old.touched.items)) }
    ensures touched { OnOk result (IfSome (V.content draft.old.view.now) (λ c. draft.new.touched.items ≡ touch_record c per table.now mirror.now number bytes.now draft.old.touched.items)) }
    ensures front { OnErr result (IsFront per table.now number bytes.now (bodies_of draft.old.touched.items) (bodies_of draft.new.touched.items)) }
    ensures asks { AsksView V.content V.kept V.faults fault_cause draft.old.view.now draft.new.view.now result }
    ensures reference { draft.new.view.ghost_name ≡ draft.old.view.ghost_name }
{
    put_in(draft, alloc, per, table, number, bytes)?;
    if has_mirror(mirror, number) {
        put_in(draft, alloc, per, mirror, number, bytes)?;
    }
    Ok(())
}

/// Puts a record as a plan writes it ([`written_body`](crate::written_body)) into its block in the
/// file table, and for the numbers 0 to 3 into that of the mirror, where this has as many records:
/// it is the data of file 1 where that lies in clusters (Linux-NTFS documentation, "$MFTMirr"). A
/// record that lies wholly past the initialised size counts as fresh, and one that has no block is
/// put nowhere. The volume has `per` sectors a cluster. The record is one that was read, or has a
/// spelling, as [`spelled_fits_by_room`](crate::spelled_fits_by_room) says.
///
/// - [`DraftFault::Full`]: the record would use these bytes, which are above 1,024; the draft is as
///   it was.
/// - [`DraftFault::Fault`]: the view failed, which is asked where a block wasn't touched.
/// - [`DraftFault::Memory`]: want of memory.
///
/// After the last two the draft is as it was, or has the record in its own block alone. It takes
/// time and memory linear in the record, a pass over the runs of both, and two [`Draft::put`].
pub fn put_file<V: View>(
    draft: &mut Draft<'_, V>,
    alloc: Global,
    per: ClusterSize,
    table: &Extents,
    mirror: &Extents,
    number: u64,
    file: &FileRec,
) -> Result<(), DraftFault>
    requires number { number < 2 ^ 48 }
    requires fits { FitsByRoom file.now }
    ensures room { GivesOrFails (λ x. x) draft_cause result (fits_room file.now) }
    ensures bodies { OnOk result (bodies_of draft.new.touched.items ≡ put_record per table.now mirror.now number (record_spelling (written_record file.now)) (bodies_of draft.old.touched.items)) }
    ensures touched { OnOk result (IfSome (V.content draft.old.view.now) (λ c. draft.new.touched.items ≡ touch_record c per table.now mirror.now number (record_spelling (written_record file.now)) draft.old.touched.items)) }
    ensures front { OnErr result (IsFront per table.now number (record_spelling (written_record file.now)) (bodies_of draft.old.touched.items) (bodies_of draft.new.touched.items)) }
    ensures full { IfErr result (StaysWhereFull draft.old.touched.items draft.new.touched.items) }
    ensures asks { AsksView V.content V.kept V.faults draft_cause draft.old.view.now draft.new.view.now result }
    ensures reference { draft.new.view.ghost_name ≡ draft.old.view.ghost_name }
{
    let bytes = written_body(alloc, file)?;
    put_both(draft, alloc, per, table, mirror, number, bytes.as_slice())?;
    Ok(())
}
