//! A value that left its record, put into a draft with the clusters that it took.
ghost use Rattle.std.specs.Prelude.{◌≡◌, ◌<◌, ◌^◌, All, IfErr, IfSome, OnOk, OnErr, length};
ghost use Rattle.host_base.specs.Answers.{GivesOrFails};
ghost use Rattle.draft_records.specs.block_view.Views.{AsksView};
ghost use Rattle.draft_records.specs.record_writer.NormalLaws.{FitsByRoom};
ghost use Rattle.draft_runs.specs.stream_runs.Runs.{IsNear};
ghost use Rattle.draft_records.specs.Faults.{draft_cause};
ghost use Rattle.draft_records.specs.Records.{fits_room, StaysWhereFull};
ghost use Rattle.draft_resized.specs.Moved.{PutsMoved, PutsMovedFront};

use crate::resized::put_resized;
use draft_records::{ClusterSize, Draft, DraftFault, Extents, Resized, View};
use draft_runs::put_bytes;
use std::alloc::Global;

/// Puts a file of which a value left its record for clusters
/// ([`to_clusters`](resized_streams::to_clusters)): the file, as [`put_resized`] does, and then the
/// value into the clusters that it took, whose sectors are all fresh.
/// [`moved_is_put`](crate::moved_is_put) says what the stream is then.
///
/// - [`DraftFault::Full`]: the record would use these bytes, which are above 1,024; the draft is as
///   it was.
/// - [`DraftFault::Fault`]: the view failed, which is asked where a block wasn't touched.
/// - [`DraftFault::Memory`]: want of memory.
///
/// After the last two some of the file is put, or all of it and the first sectors of the value. It
/// takes a [`put_resized`] and a [`put_bytes`].
pub fn put_moved<V: View>(
    draft: &mut Draft<'_, V>,
    alloc: Global,
    per: ClusterSize,
    bitmap: &Extents,
    table: &Extents,
    mirror: &Extents,
    number: u64,
    resized: &Resized,
    value: &[u8],
) -> Result<(), DraftFault>
    requires size { bitmap.now.initialised < 2 ^ 63 }
    requires number { number < 2 ^ 48 }
    requires short { length value.now < 2 ^ 32 }
    requires fits { FitsByRoom resized.now.file }
    requires taken { All IsNear resized.now.taken.items }
    requires freed { All IsNear resized.now.freed.items }
    ensures room { GivesOrFails (λ x. x) draft_cause result (fits_room resized.now.file) }
    ensures put { OnOk result (IfSome (V.content draft.old.view.now) (λ c. PutsMoved c per bitmap.now table.now mirror.now number resized.now value.now draft.old.touched.items draft.new.touched.items)) }
    ensures front { OnErr result (IfSome (V.content draft.old.view.now) (λ c. PutsMovedFront c per bitmap.now table.now mirror.now number resized.now value.now draft.old.touched.items draft.new.touched.items)) }
    ensures full { IfErr result (StaysWhereFull draft.old.touched.items draft.new.touched.items) }
    ensures asks { AsksView V.content V.kept V.faults draft_cause draft.old.view.now draft.new.view.now result }
    ensures reference { draft.new.view.ghost_name ≡ draft.old.view.ghost_name }
{
    put_resized(draft, alloc, per, bitmap, table, mirror, number, resized)?;
    put_bytes(draft, alloc, per, &resized.extents.runs, 0, 0, value)?;
    Ok(())
}
