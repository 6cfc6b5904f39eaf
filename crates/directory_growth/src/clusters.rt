//! A stream of a directory's index in clusters, which gets a greater size.
ghost use Rattle.std.specs.Prelude.{◌≡◌, ◌+◌, ◌-◌, ◌<◌, ◌≤◌, ◌^◌, IfOk, IfErr, IfSome, OnErr, not, count_by, length};
ghost use Rattle.record_model.specs.Pairs.{cluster_limit, HasSpelling};
ghost use Rattle.data_plan.specs.record_streams.Fitting.{FitsButRoom, IsPlaceable};
ghost use Rattle.data_plan.specs.resized_streams.Resizing.{unplaced, with_sizes};
ghost use Rattle.space_model.specs.Choosing.{chosen, with_runs};
ghost use Rattle.plan_space.specs.Choices.{TakesFirst};
ghost use Rattle.data_plan.specs.declared.fault.DataFault.TheVariants.{Memory as no_memory};
ghost use Rattle.data_plan.specs.Faults.{IsShortOf};
ghost use Rattle.state_model.specs.Loads.{total_clusters};
ghost use Rattle.tree_model.specs.Needs.{clusters_for};
ghost use Rattle.stream_runs.specs.Runs.{last_cluster};
ghost use Rattle.data_plan.specs.Changes.{IsReady};
ghost use Rattle.directory_growth.specs.Clusters.{IsLonger};

use data_plan::{DataFault, Resized, grow, sized};
use file_record::FileRec;
use plan_space::FreeBits;
use record_model::{NAMES_INDEX, Runs};
use state_model::{ClusterSize, Extents};
use std::alloc::{AllocError, Global};
use stream_runs::total_clusters;
use tree_model::clusters_for;

// The stream in its clusters with this size, all of it initialised.
fn raised(alloc: Global, extents: &Extents, size: u64) -> Result<Extents, AllocError>
    ensures { IfOk result (λ e. e ≡ with_sizes size size extents.now) }
{
    let mut runs = Runs::new(alloc);
    runs.extend(&extents.runs)?;
    Ok(Extents {
        runs,
        allocated: extents.allocated,
        real: size,
        initialised: size,
    })
}

// How many clusters the stream lacks for so many bytes.
pub fn lacking(extents: &Extents, size: u64) -> u64
    requires { HasSpelling 0 extents.now.runs }
    ensures value { result ≡ clusters_for size - total_clusters extents.now.runs }
    ensures few { result ≤ clusters_for size }
{
    let has = total_clusters(extents.runs.as_slice());
    clusters_for(size).saturating_sub(has)
}

// A value of so many bytes as a stream that has no clusters yet.
pub fn unplaced(alloc: Global, size: u64) -> Extents
    ensures { result ≡ unplaced size }
{
    Extents {
        runs: Runs::new(alloc),
        allocated: 0,
        real: size,
        initialised: size,
    }
}

// The stream of this type with this size, all of it initialised, and so many clusters more.
fn with_more<B: FreeBits>(
    alloc: Global,
    per: ClusterSize,
    bits: &mut B,
    kind: u32,
    extents: &Extents,
    file: &FileRec,
    size: u64,
    wanted: u64,
) -> Result<Resized, DataFault>
    requires last { IfSome (last_cluster extents.now.runs) (λ at. at < length (B.bits bits.old)) }
    requires clusters { length (B.bits bits.old) ≤ cluster_limit }
    requires spelled { HasSpelling 0 extents.now.runs }
    requires some { 0 < wanted }
    requires total { total_clusters extents.now.runs + wanted ≤ cluster_limit }
    requires few { length extents.now.runs + wanted ≤ 2 ^ 16 }
    requires kind { IsPlaceable kind }
    requires fits { FitsButRoom file.now }
    ensures value { IfOk result (IsLonger per kind extents.now file.now size wanted (chosen (B.bits bits.old) (last_cluster extents.now.runs) wanted)) }
    ensures bits { IfOk result (λ _. B.bits bits.new ≡ with_runs (chosen (B.bits bits.old) (last_cluster extents.now.runs) wanted) (B.bits bits.old)) }
    ensures short { count_by not (B.bits bits.old) < wanted → IsShortOf (count_by not (B.bits bits.old)) result }
    ensures unchanged { count_by not (B.bits bits.old) < wanted → B.bits bits.new ≡ B.bits bits.old }
    ensures enough { wanted ≤ count_by not (B.bits bits.old) → IfErr result (λ e. e ≡ no_memory) }
    ensures first { OnErr result (TakesFirst (chosen (B.bits bits.old) (last_cluster extents.now.runs) wanted) (B.bits bits.old) (B.bits bits.new)) }
    ensures ready { IfOk result IsReady }
{
    let raised = raised(alloc, extents, size)?;
    let z = grow(alloc, per, bits, kind, &NAMES_INDEX, &raised, file, wanted)?;
    Ok(z)
}

// The stream of this type with this size, all of it initialised, and so many clusters more, or in
// its own.
pub fn longer<B: FreeBits>(
    alloc: Global,
    per: ClusterSize,
    bits: &mut B,
    kind: u32,
    extents: &Extents,
    file: &FileRec,
    size: u64,
    wanted: u64,
) -> Result<Resized, DataFault>
    requires last { IfSome (last_cluster extents.now.runs) (λ at. at < length (B.bits bits.old)) }
    requires clusters { length (B.bits bits.old) ≤ cluster_limit }
    requires spelled { HasSpelling 0 extents.now.runs }
    requires total { 0 < wanted → total_clusters extents.now.runs + wanted ≤ cluster_limit }
    requires few { length extents.now.runs + wanted ≤ 2 ^ 16 }
    requires kind { IsPlaceable kind }
    requires fits { FitsButRoom file.now }
    ensures value { IfOk result (IsLonger per kind extents.now file.now size wanted (chosen (B.bits bits.old) (last_cluster extents.now.runs) wanted)) }
    ensures bits { IfOk result (λ _. B.bits bits.new ≡ with_runs (chosen (B.bits bits.old) (last_cluster extents.now.runs) wanted) (B.bits bits.old)) }
    ensures short { count_by not (B.bits bits.old) < wanted → IsShortOf (count_by not (B.bits bits.old)) result }
    ensures unchanged { count_by not (B.bits bits.old) < wanted → B.bits bits.new ≡ B.bits bits.old }
    ensures enough { wanted ≤ count_by not (B.bits bits.old) → IfErr result (λ e. e ≡ no_memory) }
    ensures first { OnErr result (TakesFirst (chosen (B.bits bits.old) (last_cluster extents.now.runs) wanted) (B.bits bits.old) (B.bits bits.new)) }
    ensures ready { IfOk result IsReady }
{
    if wanted > 0 {
        return with_more(alloc, per, bits, kind, extents, file, size, wanted);
    }
    let z = sized(alloc, per, kind, &NAMES_INDEX, extents, file, size, size)?;
    Ok(z)
}
