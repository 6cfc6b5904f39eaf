//! A stream that takes more clusters, or gives back those past a size.
ghost use Rattle.std.specs.Prelude.{◌≡◌, ◌+◌, ◌/◌, ◌<◌, ◌≤◌, ◌^◌, Err, All, IfOk, IfErr, IfSome, OnErr, not, count_by, length};
ghost use Rattle.record_streams.specs.record_model.Pairs.{cluster_limit, HasSpelling};
ghost use Rattle.record_streams.specs.Fitting.{FitsButRoom, IsPlaceable};
ghost use Rattle.plan_space.specs.space_model.Choosing.{chosen, with_runs};
ghost use Rattle.plan_space.specs.Choices.{TakesFirst};
ghost use Rattle.plan_space.specs.declared.fault.SpaceFault.TheVariants.{Short, Memory as no_memory};
ghost use Rattle.record_streams.specs.state_model.Loads.{total_clusters};
ghost use Rattle.record_streams.specs.stream_runs.Runs.{last_cluster, IsNear};
ghost use Rattle.resized_streams.specs.Resizing.{allocated_in, lengthened, clusters_for, shortened, IsGrown, IsCut};

use crate::resized::Resized;
use plan_space::{FreeBits, Run, Runs, SpaceFault, choose};
use record_streams::{
    ClusterSize, Extents, FileRec, Memory, back, front, grown, last_cluster, merged, placed_record,
    total_clusters,
};
use std::alloc::Global;

// A stream with these clusters, all of them allocated.
fn allocated_in(per: ClusterSize, runs: Runs, real: u64, initialised: u64) -> Extents
    requires { total_clusters runs ≤ cluster_limit }
    ensures { result ≡ allocated_in per runs real initialised }
{
    let clusters = total_clusters(runs.as_slice());
    Extents {
        runs,
        allocated: clusters * (512 * per.sectors()),
        real,
        initialised,
    }
}

// A stream with more clusters behind its own.
fn lengthened(
    alloc: Global,
    per: ClusterSize,
    extents: &Extents,
    more: &[Run],
) -> Result<Extents, Memory>
    requires spelled { HasSpelling 0 extents.now.runs }
    requires more { HasSpelling 0 more.now }
    requires few { total_clusters extents.now.runs + total_clusters more.now ≤ cluster_limit }
    ensures { IfOk result (λ e. e ≡ lengthened per more.now extents.now) }
{
    let runs = grown(alloc, &extents.runs, more)?;
    Ok(allocated_in(per, runs, extents.real, extents.initialised))
}

/// Takes so many clusters for a stream, as [`choose`] does behind its last one, and makes the record
/// with them: the stream's runs joined where they touch, in one attribute, with the allocated size
/// of all clusters and its other sizes as they were. `extents` has the stream of this type and name
/// (in UTF-16 units) of the file; the volume has `per` sectors a cluster. The record may use more
/// than 1,024 bytes then.
///
/// - [`SpaceFault::Short`]: fewer bits are clear, so many. All stay as they were.
/// - [`SpaceFault::Memory`]: the first runs that it would take are taken, none of them or all.
///
/// It takes a `choose`, and time and memory linear in the record and the stream's runs.
pub fn grow<B: FreeBits>(
    alloc: Global,
    per: ClusterSize,
    bits: &mut B,
    kind: u32,
    name: &[u16],
    extents: &Extents,
    file: &FileRec,
    wanted: u64,
) -> Result<Resized, SpaceFault>
    requires last { IfSome (last_cluster extents.now.runs) (λ at. at < length (B.bits bits.old)) }
    requires clusters { length (B.bits bits.old) ≤ cluster_limit }
    requires spelled { HasSpelling 0 extents.now.runs }
    requires total { total_clusters extents.now.runs + wanted ≤ cluster_limit }
    requires few { length extents.now.runs + wanted ≤ 2 ^ 16 }
    requires kind { IsPlaceable kind }
    requires fits { FitsButRoom file.now }
    ensures value { IfOk result (λ z. IsGrown per kind name.now extents.now file.now (chosen (B.bits bits.old) (last_cluster extents.now.runs) wanted) z) }
    ensures bits { IfOk result (λ z. B.bits bits.new ≡ with_runs z.taken.items (B.bits bits.old)) }
    ensures short { count_by not (B.bits bits.old) < wanted → result ≡ Err (Short (count_by not (B.bits bits.old))) }
    ensures unchanged { count_by not (B.bits bits.old) < wanted → B.bits bits.new ≡ B.bits bits.old }
    ensures enough { wanted ≤ count_by not (B.bits bits.old) → IfErr result (λ e. e ≡ no_memory) }
    ensures near { IfOk result (λ z. All IsNear z.taken.items) }
    ensures fits { IfOk result (λ z. FitsButRoom z.file) }
    ensures spelled { IfOk result (λ z. HasSpelling 0 z.extents.runs) }
    ensures total { IfOk result (λ z. total_clusters z.extents.runs ≡ total_clusters extents.now.runs + wanted) }
    ensures count { IfOk result (λ z. length z.extents.runs ≤ length extents.now.runs + wanted) }
    ensures first { OnErr result (TakesFirst (chosen (B.bits bits.old) (last_cluster extents.now.runs) wanted) (B.bits bits.old) (B.bits bits.new)) }
{
    let taken = choose(alloc, bits, last_cluster(&extents.runs), wanted)?;
    let longer = lengthened(alloc, per, extents, &taken)?;
    let new = placed_record(alloc, per, kind, name, &longer, file)?;
    Ok(Resized {
        file: new,
        extents: longer,
        taken,
        freed: Vec::new(alloc),
    })
}

// How many clusters have so many bytes.
pub fn clusters_for(per: ClusterSize, size: u64) -> u64
    requires { size < 2 ^ 63 }
    ensures value { result ≡ clusters_for per size }
    ensures few { result ≤ size / 512 + 1 }
{
    let bytes = 512 * per.sectors();
    (size + (bytes - 1)) / bytes
}

// A stream of this size, with the clusters that it needs of its own.
fn shortened(
    alloc: Global,
    per: ClusterSize,
    extents: &Extents,
    size: u64,
) -> Result<Extents, Memory>
    requires spelled { HasSpelling 0 extents.now.runs }
    requires size { size < 2 ^ 63 }
    ensures { IfOk result (λ e. e ≡ shortened per size extents.now) }
{
    let kept = front(alloc, clusters_for(per, size), &extents.runs)?;
    let runs = merged(alloc, &kept)?;
    Ok(allocated_in(per, runs, size, extents.initialised.min(size)))
}

/// Cuts a stream to this size in bytes, which is at most its own: its record keeps the clusters that
/// the size needs, joined where they touch, in one attribute; what is behind is given back, all that
/// the size doesn't need. The initialised size is at most the new one. `extents` has the stream of
/// this type and name (in UTF-16 units) of the file; the volume has `per` sectors a cluster. The
/// error is want of memory. It takes time and memory linear in the record and the stream's runs.
pub fn cut(
    alloc: Global,
    per: ClusterSize,
    kind: u32,
    name: &[u16],
    extents: &Extents,
    file: &FileRec,
    size: u64,
) -> Result<Resized, Memory>
    requires spelled { HasSpelling 0 extents.now.runs }
    requires few { length extents.now.runs ≤ 2 ^ 16 }
    requires size { size < 2 ^ 63 }
    requires kind { IsPlaceable kind }
    requires fits { FitsButRoom file.now }
    ensures value { IfOk result (λ z. IsCut per kind name.now extents.now file.now size z) }
    ensures near { IfOk result (λ z. All IsNear z.freed.items) }
    ensures fits { IfOk result (λ z. FitsButRoom z.file) }
    ensures spelled { IfOk result (λ z. HasSpelling 0 z.extents.runs) }
    ensures count { IfOk result (λ z. length z.extents.runs ≤ length extents.now.runs) }
{
    let shorter = shortened(alloc, per, extents, size)?;
    let new = placed_record(alloc, per, kind, name, &shorter, file)?;
    let freed = back(alloc, clusters_for(per, size), &extents.runs)?;
    Ok(Resized {
        file: new,
        extents: shorter,
        taken: Vec::new(alloc),
        freed,
    })
}
