//! A file of which a stream took clusters or gave some back, put into a draft.
ghost use Rattle.std.specs.Prelude.{◌≡◌, ◌<◌, ◌^◌, true, false, All, IfErr, IfSome, OnOk, OnErr};
ghost use Rattle.host_base.specs.Answers.{GivesOrFails};
ghost use Rattle.draft_records.specs.block_view.Views.{AsksView};
ghost use Rattle.draft_records.specs.record_writer.NormalLaws.{FitsByRoom};
ghost use Rattle.draft_runs.specs.stream_runs.Runs.{IsNear};
ghost use Rattle.draft_records.specs.plan_draft.Faults.{fault_cause};
ghost use Rattle.draft_records.specs.Faults.{draft_cause};
ghost use Rattle.draft_records.specs.Records.{fits_room, StaysWhereFull};
ghost use Rattle.draft_resized.specs.Resized.{PutsBoth, PutsBothFront, PutsResized, PutsResizedFront};

use draft_records::{ClusterSize, Draft, DraftFault, Extents, Resized, View, ViewFault, put_file};
use draft_runs::put_runs;
use std::alloc::Global;

// Sets the bits of the clusters that came, and clears those of the ones that went.
fn put_both<V: View>(
    draft: &mut Draft<'_, V>,
    alloc: Global,
    per: ClusterSize,
    bitmap: &Extents,
    resized: &Resized,
) -> Result<(), ViewFault>
    requires size { bitmap.now.initialised < 2 ^ 63 }
    requires taken { All IsNear resized.now.taken.items }
    requires freed { All IsNear resized.now.freed.items }
    ensures put { OnOk result (IfSome (V.content draft.old.view.now) (λ c. PutsBoth c per bitmap.now resized.now draft.old.touched.items draft.new.touched.items)) }
    ensures front { OnErr result (IfSome (V.content draft.old.view.now) (λ c. PutsBothFront c per bitmap.now resized.now draft.old.touched.items draft.new.touched.items)) }
    ensures asks { AsksView V.content V.kept V.faults fault_cause draft.old.view.now draft.new.view.now result }
    ensures reference { draft.new.view.ghost_name ≡ draft.old.view.ghost_name }
{
    put_runs(draft, alloc, per, bitmap, &resized.taken, true)?;
    put_runs(draft, alloc, per, bitmap, &resized.freed, false)
}

/// Puts a file of which a stream took clusters or gave some back: its record, as
/// [`put_file`] does, and in the bitmap the bits of the clusters that came set, and those of the
/// ones that went cleared, as [`put_runs`] does. `bitmap` has the clusters of the data of `$Bitmap`,
/// `table` those of the file table and `mirror` those of its mirror, of `per` sectors each.
/// [`resized_is_put`](crate::resized_is_put) says what the draft is then.
///
/// - [`DraftFault::Full`]: the record would use these bytes, which are above 1,024; the draft is as
///   it was.
/// - [`DraftFault::Fault`]: the view failed, which is asked where a block wasn't touched.
/// - [`DraftFault::Memory`]: want of memory.
///
/// After the last two the draft is as it was, or has the record in its own block alone, or the record
/// and the first of the bits. It takes a [`put_file`] and two [`put_runs`].
pub fn put_resized<V: View>(
    draft: &mut Draft<'_, V>,
    alloc: Global,
    per: ClusterSize,
    bitmap: &Extents,
    table: &Extents,
    mirror: &Extents,
    number: u64,
    resized: &Resized,
) -> Result<(), DraftFault>
    requires size { bitmap.now.initialised < 2 ^ 63 }
    requires number { number < 2 ^ 48 }
    requires fits { FitsByRoom resized.now.file }
    requires taken { All IsNear resized.now.taken.items }
    requires freed { All IsNear resized.now.freed.items }
    ensures room { GivesOrFails (λ x. x) draft_cause result (fits_room resized.now.file) }
    ensures put { OnOk result (IfSome (V.content draft.old.view.now) (λ c. PutsResized c per bitmap.now table.now mirror.now number resized.now draft.old.touched.items draft.new.touched.items)) }
    ensures front { OnErr result (IfSome (V.content draft.old.view.now) (λ c. PutsResizedFront c per bitmap.now table.now mirror.now number resized.now draft.old.touched.items draft.new.touched.items)) }
    ensures full { IfErr result (StaysWhereFull draft.old.touched.items draft.new.touched.items) }
    ensures asks { AsksView V.content V.kept V.faults draft_cause draft.old.view.now draft.new.view.now result }
    ensures reference { draft.new.view.ghost_name ≡ draft.old.view.ghost_name }
{
    put_file(draft, alloc, per, table, mirror, number, &resized.file)?;
    put_both(draft, alloc, per, bitmap, resized)?;
    Ok(())
}
