//! Bits of the clusters of runs that a draft puts into the bitmap.
ghost use Rattle.std.specs.Prelude.{◌≡◌, ◌+◌, ◌<◌, ◌^◌, All, IfSome, OnOk, OnErr};
ghost use Rattle.draft_bits.specs.block_view.Views.{AsksView};
ghost use Rattle.stream_runs.specs.Runs.{IsNear};
ghost use Rattle.draft_bits.specs.plan_draft.Faults.{fault_cause};
ghost use Rattle.draft_runs.specs.Clusters.{PutsClusters, PutsClustersFront, PutsRuns, PutsRunsFront};

use draft_bits::{ClusterSize, Draft, Extents, View, ViewFault, put_bits};
use std::alloc::Global;
use stream_runs::Run;

// Puts the bits of so many clusters from this one on, if there is one.
fn put_clusters<V: View>(
    draft: &mut Draft<'_, V>,
    alloc: Global,
    per: ClusterSize,
    bitmap: &Extents,
    first: Option<u64>,
    len: u64,
    value: bool,
) -> Result<(), ViewFault>
    requires size { bitmap.now.initialised < 2 ^ 63 }
    requires near { IfSome first (λ first. first + len < 2 ^ 34) }
    ensures put { OnOk result (IfSome (V.content draft.old.view.now) (λ c. PutsClusters c per bitmap.now value first len draft.old.touched.items draft.new.touched.items)) }
    ensures front { OnErr result (IfSome (V.content draft.old.view.now) (λ c. PutsClustersFront c per bitmap.now value first len draft.old.touched.items draft.new.touched.items)) }
    ensures asks { AsksView V.content V.kept V.faults fault_cause draft.old.view.now draft.new.view.now result }
    ensures reference { draft.new.view.ghost_name ≡ draft.old.view.ghost_name }
{
    match first {
        None => Ok(()),
        Some(first) => put_bits(draft, alloc, per, bitmap, first, len, value),
    }
}

/// Sets or clears the bits of the clusters of runs, of one run after the other, in a bitmap in
/// clusters, and leaves the others (Linux-NTFS documentation, "$Bitmap", "Data runs"): each sector
/// of the bitmap is touched once, however many of the clusters it tells. Sparse runs have no
/// clusters. `bitmap` has the clusters of the data of `$Bitmap`; what lies past its initialised size
/// is as [`put_bits`](draft_bits::put_bits) says. The volume has `per` sectors a cluster.
/// [`runs_are_put`](crate::runs_are_put) says what the bitmap is then.
///
/// - [`ViewFault::Fault`]: the view failed, which is asked where a sector wasn't touched.
/// - [`ViewFault::Memory`]: want of memory.
///
/// After an error the bits of the first runs are put, and the first sectors of the next one's, or
/// none. It takes a [`put_bits`](draft_bits::put_bits) for each run.
pub fn put_runs<V: View>(
    draft: &mut Draft<'_, V>,
    alloc: Global,
    per: ClusterSize,
    bitmap: &Extents,
    runs: &[Run],
    value: bool,
) -> Result<(), ViewFault>
    requires size { bitmap.now.initialised < 2 ^ 63 }
    requires near { All IsNear runs.now }
    ensures put { OnOk result (IfSome (V.content draft.old.view.now) (λ c. PutsRuns c per bitmap.now value runs.now draft.old.touched.items draft.new.touched.items)) }
    ensures front { OnErr result (IfSome (V.content draft.old.view.now) (λ c. PutsRunsFront c per bitmap.now value runs.now draft.old.touched.items draft.new.touched.items)) }
    ensures asks { AsksView V.content V.kept V.faults fault_cause draft.old.view.now draft.new.view.now result }
    ensures reference { draft.new.view.ghost_name ≡ draft.old.view.ghost_name }
{
    for run in runs {
        put_clusters(draft, alloc, per, bitmap, run.lcn, run.len, value)?;
    }
    Ok(())
}
