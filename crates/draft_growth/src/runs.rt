//! Bits of the clusters of runs, in a bitmap wherever it stands.
ghost use Rattle.std.specs.Prelude.{◌≡◌, ◌+◌, ◌<◌, ◌≤◌, ◌^◌, All, IfSome, OnOk};
ghost use Rattle.block_view.specs.Views.{AsksView};
ghost use Rattle.draft_bitmaps.specs.stream_runs.Runs.{IsNear};
ghost use Rattle.draft_numbers.specs.draft_records.Faults.{draft_cause};
ghost use Rattle.draft_bitmaps.specs.Bitmaps.{bit_count, IsBitmap};
ghost use Rattle.draft_growth.specs.Clusters.{IsInside, PutsClustersOf, PutsRunsOf};

use block_view::View;
use draft_bitmaps::{Bitmap, ClusterSize, Draft, Extents, put_bits_of};
use draft_numbers::DraftFault;
use record_model::Run;
use std::alloc::Global;

// Puts the bits of so many clusters from this one on, if there is one.
fn put_clusters_of<V: View>(
    draft: &mut Draft<'_, V>,
    alloc: Global,
    per: ClusterSize,
    table: &Extents,
    mirror: &Extents,
    bitmap: &mut Bitmap,
    first: Option<u64>,
    len: u64,
    bit: bool,
) -> Result<(), DraftFault>
    requires stands { IsBitmap bitmap.old }
    requires near { IfSome first (λ first. first + len < 2 ^ 34) }
    requires inside { IfSome first (λ first. first + len ≤ bit_count bitmap.old.stream) }
    ensures put { OnOk result (IfSome (V.content draft.old.view.now) (λ c. PutsClustersOf c per table.now mirror.now bit first len bitmap.old draft.old.touched.items draft.new.touched.items bitmap.new)) }
    ensures stands { IsBitmap bitmap.new }
    ensures count { bit_count bitmap.new.stream ≡ bit_count bitmap.old.stream }
    ensures asks { AsksView V.content V.kept V.faults draft_cause draft.old.view.now draft.new.view.now result }
    ensures reference { draft.new.view.ghost_name ≡ draft.old.view.ghost_name }
{
    match first {
        None => Ok(()),
        Some(first) => put_bits_of(draft, alloc, per, table, mirror, bitmap, first, len, bit),
    }
}

/// Sets or clears the bits of the clusters of runs, of one run after the other, in a bitmap wherever
/// it stands, and leaves the others (Linux-NTFS documentation, "$Bitmap", "Data runs"), as
/// [`put_bits_of`] does for each. Sparse runs have no clusters. `table` has the clusters of the file
/// table and `mirror` those of its mirror, of `per` sectors each.
///
/// - [`DraftFault::Full`]: the bitmap's record would use these bytes, which are above 1,024.
/// - [`DraftFault::Fault`]: the view failed, which is asked where a block wasn't touched.
/// - [`DraftFault::Memory`]: want of memory.
///
/// After an error the bits of the first runs are put, or none, and some of the next one's; the
/// bitmap is what it is with those of the first runs.
pub fn put_runs_of<V: View>(
    draft: &mut Draft<'_, V>,
    alloc: Global,
    per: ClusterSize,
    table: &Extents,
    mirror: &Extents,
    bitmap: &mut Bitmap,
    runs: &[Run],
    bit: bool,
) -> Result<(), DraftFault>
    requires stands { IsBitmap bitmap.old }
    requires near { All IsNear runs.now }
    requires inside { All (IsInside (bit_count bitmap.old.stream)) runs.now }
    ensures put { OnOk result (IfSome (V.content draft.old.view.now) (λ c. PutsRunsOf c per table.now mirror.now bit runs.now bitmap.old draft.old.touched.items draft.new.touched.items bitmap.new)) }
    ensures stands { IsBitmap bitmap.new }
    ensures count { bit_count bitmap.new.stream ≡ bit_count bitmap.old.stream }
    ensures asks { AsksView V.content V.kept V.faults draft_cause draft.old.view.now draft.new.view.now result }
    ensures reference { draft.new.view.ghost_name ≡ draft.old.view.ghost_name }
{
    for run in runs {
        put_clusters_of(
            draft, alloc, per, table, mirror, bitmap, run.lcn, run.len, bit,
        )?;
    }
    Ok(())
}
