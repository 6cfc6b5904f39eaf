//! A value that leaves its record for clusters.
ghost use Rattle.std.specs.Prelude.{◌≡◌, ◌<◌, ◌≤◌, ◌^◌, Err, None, All, IfOk, IfErr, OnErr, not, count_by, length};
ghost use Rattle.record_streams.specs.record_model.Pairs.{cluster_limit, HasSpelling};
ghost use Rattle.record_streams.specs.Fitting.{FitsButRoom, IsPlaceable};
ghost use Rattle.plan_space.specs.space_model.Choosing.{chosen, with_runs};
ghost use Rattle.plan_space.specs.Choices.{TakesFirst};
ghost use Rattle.plan_space.specs.declared.fault.SpaceFault.TheVariants.{Short, Memory as no_memory};
ghost use Rattle.record_streams.specs.stream_runs.Runs.{IsNear};
ghost use Rattle.record_streams.specs.state_model.Loads.{total_clusters};
ghost use Rattle.resized_streams.specs.Resizing.{clusters_for, unplaced, IsGrown};

use crate::resized::Resized;
use crate::resizing::{clusters_for, grow};
use plan_space::{FreeBits, Runs, SpaceFault};
use record_streams::{ClusterSize, Extents, FileRec};
use std::alloc::Global;

// A value of so many bytes as a stream that has no clusters yet.
fn unplaced(alloc: Global, size: u64) -> Extents
    ensures { result ≡ unplaced size }
{
    Extents {
        runs: Runs::new(alloc),
        allocated: 0,
        real: size,
        initialised: size,
    }
}

/// Takes the clusters that a value of `size` bytes needs, at most 131,072, as [`grow`] does for a
/// stream that has none, and makes the record in which the stream of this type and name (in UTF-16
/// units) stands in them, with the value's size as real and as initialised one (Linux-NTFS
/// documentation, "Attribute Header"). The bytes are for the caller to put there. The volume has
/// `per` sectors a cluster. The record may use more than 1,024 bytes then.
///
/// - [`SpaceFault::Short`]: fewer bits are clear, so many. All stay as they were.
/// - [`SpaceFault::Memory`]: the first runs that it would take are taken, none of them or all.
///
/// It takes a [`grow`].
pub fn to_clusters<B: FreeBits>(
    alloc: Global,
    per: ClusterSize,
    bits: &mut B,
    kind: u32,
    name: &[u16],
    size: u64,
    file: &FileRec,
) -> Result<Resized, SpaceFault>
    requires clusters { length (B.bits bits.old) ≤ cluster_limit }
    requires size { size ≤ 2 ^ 17 }
    requires kind { IsPlaceable kind }
    requires fits { FitsButRoom file.now }
    ensures value { IfOk result (λ z. IsGrown per kind name.now (unplaced size) file.now (chosen (B.bits bits.old) None (clusters_for per size)) z) }
    ensures bits { IfOk result (λ z. B.bits bits.new ≡ with_runs z.taken.items (B.bits bits.old)) }
    ensures short { count_by not (B.bits bits.old) < clusters_for per size → result ≡ Err (Short (count_by not (B.bits bits.old))) }
    ensures unchanged { count_by not (B.bits bits.old) < clusters_for per size → B.bits bits.new ≡ B.bits bits.old }
    ensures enough { clusters_for per size ≤ count_by not (B.bits bits.old) → IfErr result (λ e. e ≡ no_memory) }
    ensures near { IfOk result (λ z. All IsNear z.taken.items) }
    ensures fits { IfOk result (λ z. FitsButRoom z.file) }
    ensures spelled { IfOk result (λ z. HasSpelling 0 z.extents.runs) }
    ensures total { IfOk result (λ z. total_clusters z.extents.runs ≡ clusters_for per size) }
    ensures first { OnErr result (TakesFirst (chosen (B.bits bits.old) None (clusters_for per size)) (B.bits bits.old) (B.bits bits.new)) }
{
    let value = unplaced(alloc, size);
    let wanted = clusters_for(per, size);
    grow(alloc, per, bits, kind, name, &value, file, wanted)
}
