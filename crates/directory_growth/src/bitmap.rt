//! The bitmap of an index that gets more blocks.
ghost use Rattle.std.specs.Prelude.{◌≡◌, ◌+◌, ◌-◌, ◌<◌, ◌≤◌, ◌^◌, ◌++◌, [], ◌∷◌, ℕ, max, Some, IfOk, IfSome, OnErr, not, count_by, length};
ghost use Rattle.disk_model.specs.Bytes.{zeros};
ghost use Rattle.record_model.specs.Constants.{bitmap_type, names_index};
ghost use Rattle.record_model.specs.Records.{used_of};
ghost use Rattle.record_model.specs.Pairs.{cluster_limit, HasSpelling};
ghost use Rattle.state_model.specs.declared.stream.Stream.TheVariants.{Held, Placed};
ghost use Rattle.state_model.specs.Loads.{total_clusters};
ghost use Rattle.state_model.specs.Streams.{attributes_of, stream_of};
ghost use Rattle.space_model.specs.Choosing.{chosen, with_runs};
ghost use Rattle.plan_space.specs.Choices.{TakesFirst};
ghost use Rattle.stream_runs.specs.Runs.{last_cluster};
ghost use Rattle.data_plan.specs.record_streams.Fitting.{FitsButRoom};
ghost use Rattle.data_plan.specs.record_values.Values.{valued_record};
ghost use Rattle.data_plan.specs.step_model.Plans.{full_row};
ghost use Rattle.data_plan.specs.step_model.Streams.{wanted_size, used_key};
ghost use Rattle.data_plan.specs.Changes.{BeginsAtZero, LiesBelow, StandsBelow, IsReady};
ghost use Rattle.data_plan.specs.Faults.{IsShortOf, HasRow};
ghost use Rattle.directory_growth.specs.Clusters.{IsLonger, counted_record};
ghost use Rattle.directory_growth.specs.Growing.{IsShortValue, AreReadyBits};
ghost use Rattle.directory_growth.specs.Bitmap.{counted_bytes, MustLeave, BitsAfter};

use crate::change::BitsChange;
use crate::clusters::{lacking, longer, unplaced};
use crate::counting::{counted, used, valued, zeroed};
use data_plan::{DataFault, Resized, valued_record};
use file_record::FileRec;
use host_base::{Bytes, Memory};
use plan_space::FreeBits;
use record_model::{BITMAP_TYPE, NAMES_INDEX};
use state_model::{ClusterSize, Extents, Stream};
use std::alloc::{AllocError, Global};
use tree_model::clusters_for;

// The most bytes that a record uses.
const MOST_USED: u64 = 1024;

// What comes of the bitmap, and the bytes that the record uses then.
#[derive(Drop)]
pub struct CountedBits {
    pub bits: BitsChange,
    pub used: u64,
}

// The same of one that stands in clusters.
#[derive(Drop)]
struct CountedRuns {
    bits: Resized,
    used: u64,
}

// So many used bytes, where the record has room for them.
fn with_room(used: u64) -> Result<u64, DataFault>
    ensures same { IfOk result (λ bytes. bytes ≡ used) }
    ensures room { HasRow (full_row (used ∷ [])) result }
{
    if used > MOST_USED {
        return Err(DataFault::Full { used });
    }
    Ok(used)
}

// The bytes that the record uses with the bitmap in these clusters, where it has room.
fn used_in(
    alloc: Global,
    per: ClusterSize,
    extents: &Extents,
    wanted: u64,
    beside: FileRec,
) -> Result<u64, DataFault>
    requires spelled { HasSpelling 0 extents.now.runs }
    requires few { length extents.now.runs ≤ 2 ^ 16 }
    requires fits { FitsButRoom beside }
    ensures same { IfOk result (λ bytes. bytes ≡ used_of (counted_record per bitmap_type wanted extents.now beside).attrs) }
    ensures room { HasRow (full_row (used_of (counted_record per bitmap_type wanted extents.now beside).attrs ∷ [])) result }
{
    let with = counted(alloc, per, BITMAP_TYPE, extents, wanted, beside)?;
    with_room(used(&with))
}

// The bitmap in clusters with this size, and with so many more, where the record has room.
fn in_clusters<B: FreeBits>(
    alloc: Global,
    per: ClusterSize,
    bits: &mut B,
    extents: &Extents,
    file: &FileRec,
    beside: FileRec,
    size: u64,
    wanted: u64,
) -> Result<CountedRuns, DataFault>
    requires last { IfSome (last_cluster extents.now.runs) (λ at. at < length (B.bits bits.old)) }
    requires clusters { length (B.bits bits.old) ≤ cluster_limit }
    requires spelled { HasSpelling 0 extents.now.runs }
    requires total { 0 < wanted → total_clusters extents.now.runs + wanted ≤ cluster_limit }
    requires few { length extents.now.runs + wanted ≤ 2 ^ 16 }
    requires fits { FitsButRoom file.now }
    requires beside_fits { FitsButRoom beside }
    ensures value { IfOk result (λ x. IsLonger per bitmap_type extents.now file.now size wanted (chosen (B.bits bits.old) (last_cluster extents.now.runs) wanted) x.bits) }
    ensures used { IfOk result (λ x. x.used ≡ counted_bytes per size wanted (chosen (B.bits bits.old) (last_cluster extents.now.runs) wanted) extents.now beside) }
    ensures taken { IfOk result (λ _. B.bits bits.new ≡ with_runs (chosen (B.bits bits.old) (last_cluster extents.now.runs) wanted) (B.bits bits.old)) }
    ensures short { count_by not (B.bits bits.old) < wanted → IsShortOf (count_by not (B.bits bits.old)) result }
    ensures room { wanted ≤ count_by not (B.bits bits.old) → HasRow (full_row (counted_bytes per size wanted (chosen (B.bits bits.old) (last_cluster extents.now.runs) wanted) extents.now beside ∷ [])) result }
    ensures first { OnErr result (TakesFirst (chosen (B.bits bits.old) (last_cluster extents.now.runs) wanted) (B.bits bits.old) (B.bits bits.new)) }
    ensures ready { IfOk result (λ x. IsReady x.bits) }
{
    let z = longer(alloc, per, bits, BITMAP_TYPE, extents, file, size, wanted)?;
    let used = used_in(alloc, per, &z.extents, wanted, beside)?;
    Ok(CountedRuns { bits: z, used })
}

// A copy of the value with zeros behind it, so that it has as many bytes.
fn longer_value(alloc: Global, value: &[u8], size: u64) -> Result<Bytes, AllocError>
    requires short { length value.now ≤ 4096 }
    requires size { size ≤ 2 ^ 16 }
    ensures value { IfOk result (λ bytes. bytes ≡ value.now ++ zeros (size - length value.now)) }
    ensures short { IfOk result (λ bytes. length bytes ≤ 2 ^ 16) }
{
    let more = zeroed(alloc, (size as usize).saturating_sub(value.len()))?;
    let mut bytes = Vec::from_slice(alloc, value)?;
    bytes.extend_from_slice(&more)?;
    Ok(Bytes::from(bytes))
}

// The size of a value that is to have at least so many bytes.
fn size_then(value: &[u8], least: u64) -> u64
    ensures { result ≡ max (length value.now) least }
{
    least.max(value.len() as u64)
}

// The size of a stream in clusters that is to have at least so many bytes.
fn real_then(extents: &Extents, least: u64) -> u64
    ensures { result ≡ max extents.now.real least }
{
    least.max(extents.real)
}

// The record in which the value has so many bytes.
fn stays(alloc: Global, value: &[u8], file: &FileRec, size: u64) -> Result<FileRec, Memory>
    requires short { length value.now ≤ 4096 }
    requires size { size ≤ 2 ^ 16 }
    requires fits { FitsButRoom file.now }
    ensures value { IfOk result (λ r. r ≡ valued_record bitmap_type names_index (value.now ++ zeros (size - length value.now)) file.now) }
    ensures fits { IfOk result FitsButRoom }
{
    let bytes = longer_value(alloc, value, size)?;
    valued_record(alloc, BITMAP_TYPE, &NAMES_INDEX, bytes.as_slice(), file)
}

// A value that has no room leaves the record.
fn leaves<B: FreeBits>(
    alloc: Global,
    per: ClusterSize,
    bits: &mut B,
    value: &[u8],
    file: &FileRec,
    beside: FileRec,
    least: u64,
) -> Result<CountedBits, DataFault>
    requires per { per ≡ 8 }
    requires clusters { length (B.bits bits.old) ≤ cluster_limit }
    requires begins { BeginsAtZero (attributes_of bitmap_type names_index beside.attrs) }
    requires held { stream_of bitmap_type names_index beside.attrs ≡ Some (Held value.now) }
    requires short { length value.now ≤ 4096 }
    requires some { 0 < least }
    requires least { least ≤ 2 ^ 16 }
    requires fits { FitsButRoom file.now }
    requires beside_fits { FitsButRoom beside }
    requires full { MustLeave beside (max (length value.now) least) }
    ensures after { (n : ℕ) → BitsAfter (B.bits bits.old) (B.bits bits.new) beside file.now (Some (Held value.now)) (wanted_size (used_key n) (Some (Held value.now)) least) result }
    ensures ready { IfOk result (λ x. AreReadyBits x.bits) }
{
    let size = size_then(value, least);
    let none = unplaced(alloc, size);
    let wanted = clusters_for(least);
    let x = in_clusters(alloc, per, bits, &none, file, beside, size, wanted)?;
    Ok(CountedBits {
        bits: BitsChange::Leaves(x.bits),
        used: x.used,
    })
}

// What comes of a value.
fn held_after<B: FreeBits>(
    alloc: Global,
    per: ClusterSize,
    bits: &mut B,
    value: &[u8],
    file: &FileRec,
    beside: FileRec,
    least: u64,
) -> Result<CountedBits, DataFault>
    requires per { per ≡ 8 }
    requires clusters { length (B.bits bits.old) ≤ cluster_limit }
    requires begins { BeginsAtZero (attributes_of bitmap_type names_index beside.attrs) }
    requires held { stream_of bitmap_type names_index beside.attrs ≡ Some (Held value.now) }
    requires short { length value.now ≤ 4096 }
    requires some { 0 < least }
    requires least { least ≤ 2 ^ 16 }
    requires fits { FitsButRoom file.now }
    requires beside_fits { FitsButRoom beside }
    ensures after { (n : ℕ) → BitsAfter (B.bits bits.old) (B.bits bits.new) beside file.now (Some (Held value.now)) (wanted_size (used_key n) (Some (Held value.now)) least) result }
    ensures ready { IfOk result (λ x. AreReadyBits x.bits) }
{
    let size = size_then(value, least);
    let with = valued(alloc, BITMAP_TYPE, size, &beside)?;
    let used = used(&with);
    if used > MOST_USED {
        return leaves(alloc, per, bits, value, file, beside, least);
    }
    let new = stays(alloc, value, file, size)?;
    Ok(CountedBits {
        bits: BitsChange::Stays(new),
        used,
    })
}

// What comes of a bitmap in clusters.
fn placed_after<B: FreeBits>(
    alloc: Global,
    per: ClusterSize,
    bits: &mut B,
    extents: &Extents,
    file: &FileRec,
    beside: FileRec,
    least: u64,
) -> Result<CountedBits, DataFault>
    requires per { per ≡ 8 }
    requires clusters { length (B.bits bits.old) ≤ cluster_limit }
    requires begins { BeginsAtZero (attributes_of bitmap_type names_index beside.attrs) }
    requires placed { stream_of bitmap_type names_index beside.attrs ≡ Some (Placed extents.now) }
    requires lies { LiesBelow (length (B.bits bits.old)) extents.now }
    requires least { least ≤ 2 ^ 16 }
    requires fits { FitsButRoom file.now }
    requires beside_fits { FitsButRoom beside }
    ensures after { (n : ℕ) → BitsAfter (B.bits bits.old) (B.bits bits.new) beside file.now (Some (Placed extents.now)) (wanted_size (used_key n) (Some (Placed extents.now)) least) result }
    ensures ready { IfOk result (λ x. AreReadyBits x.bits) }
{
    let size = real_then(extents, least);
    let wanted = lacking(extents, least);
    let x = in_clusters(alloc, per, bits, extents, file, beside, size, wanted)?;
    Ok(CountedBits {
        bits: BitsChange::Placed(x.bits),
        used: x.used,
    })
}

// What comes of a bitmap that is to have at least so many bytes: in the record of this file, by the
// bytes that the one beside it uses then.
pub fn bits_after<B: FreeBits>(
    alloc: Global,
    per: ClusterSize,
    bits: &mut B,
    stream: &Stream,
    file: &FileRec,
    beside: FileRec,
    least: u64,
) -> Result<CountedBits, DataFault>
    requires per { per ≡ 8 }
    requires clusters { length (B.bits bits.old) ≤ cluster_limit }
    requires begins { BeginsAtZero (attributes_of bitmap_type names_index beside.attrs) }
    requires is { stream_of bitmap_type names_index beside.attrs ≡ Some stream.now }
    requires stands { StandsBelow (length (B.bits bits.old)) (Some stream.now) }
    requires short { IsShortValue (Some stream.now) }
    requires some { 0 < least }
    requires least { least ≤ 2 ^ 16 }
    requires fits { FitsButRoom file.now }
    requires beside_fits { FitsButRoom beside }
    ensures after { (n : ℕ) → BitsAfter (B.bits bits.old) (B.bits bits.new) beside file.now (Some stream.now) (wanted_size (used_key n) (Some stream.now) least) result }
    ensures ready { IfOk result (λ x. AreReadyBits x.bits) }
{
    match stream {
        Stream::Held(value) => held_after(alloc, per, bits, value.as_slice(), file, beside, least),
        Stream::Placed(extents) => placed_after(alloc, per, bits, extents, file, beside, least),
    }
}
