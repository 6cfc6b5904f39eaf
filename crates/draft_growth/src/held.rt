//! A bitmap that is a value of its record and becomes longer: in the record, or in clusters where
//! that would be too full with it.
ghost use Rattle.std.specs.Prelude.{◌≡◌, ◌+◌, ◌-◌, ◌≤◌, ◌^◌, [], All, IfOk, length};
ghost use Rattle.host_base.specs.Answers.{GivesOrFails};
ghost use Rattle.record_model.specs.Pairs.{cluster_limit};
ghost use Rattle.draft_bitmaps.specs.record_streams.Fitting.{FitsButRoom};
ghost use Rattle.draft_bitmaps.specs.space_model.Choosing.{with_runs};
ghost use Rattle.draft_bitmaps.specs.state_model.declared.stream.Stream.TheVariants.{Held, Placed};
ghost use Rattle.draft_bitmaps.specs.stream_runs.Runs.{IsNear};
ghost use Rattle.draft_bitmaps.specs.resized_streams.Resizing.{unplaced};
ghost use Rattle.draft_numbers.specs.draft_records.Records.{fits_room};
ghost use Rattle.draft_bitmaps.specs.Bitmaps.{with_value, IsBitmap};
ghost use Rattle.draft_growth.specs.Faults.{space_cause};
ghost use Rattle.draft_growth.specs.Growing.{filled_up, has_room, more_for, space_for, standing, wanted_for, with_room, IsLonger};

use crate::longer::{Longer, longer_placed};
use crate::zeros::zero_bytes;
use draft_bitmaps::{
    Bitmap, ClusterSize, Extents, FileRec, FreeBits, RoomFault, SpaceFault, Stream, placed_fits,
    valued_record,
};
use draft_numbers::written_file;
use host_base::Bytes;
use record_model::{Run, Runs};
use std::alloc::{AllocError, Global};

// A copy of the value with zeros behind it, so that it has as many bytes.
fn filled_up(alloc: Global, value: &[u8], size: u64) -> Result<Bytes, AllocError>
    requires short { length value.now ≤ 2 ^ 15 }
    requires size { size ≤ 2 ^ 16 }
    ensures value { IfOk result (λ bytes. bytes ≡ filled_up size value.now) }
    ensures short { IfOk result (λ bytes. length bytes ≤ 2 ^ 16) }
{
    let more = zero_bytes(alloc, (size as usize).saturating_sub(value.len()))?;
    let mut bytes = Vec::from_slice(alloc, value)?;
    bytes.extend_from_slice(&more)?;
    Ok(Bytes::from(bytes))
}

// Whether a record has room as it is written.
fn has_room(alloc: Global, file: &FileRec) -> Result<bool, AllocError>
    requires fits { FitsButRoom file.now }
    ensures value { IfOk result (λ room. room ≡ has_room (fits_room file.now)) }
{
    placed_fits();
    match written_file(alloc, file) {
        Ok(_) => Ok(true),
        Err(RoomFault::Full { .. }) => Ok(false),
        Err(RoomFault::Memory) => Err(AllocError),
    }
}

// The bitmap as a value of these bytes.
fn with_value(alloc: Global, bitmap: &Bitmap, bytes: &Bytes) -> Result<Bitmap, AllocError>
    requires short { length bytes.now ≤ 2 ^ 16 }
    requires stands { IsBitmap bitmap.now }
    ensures value { IfOk result (λ b. b ≡ with_value bytes.now bitmap.now) }
    ensures stands { IfOk result (λ b. IsBitmap b) }
{
    let bytes = bytes.clone()?;
    let Ok(file) = valued_record(alloc, bitmap.kind, &[], bytes.as_slice(), &bitmap.file) else {
        return Err(AllocError);
    };
    Ok(Bitmap {
        number: bitmap.number,
        kind: bitmap.kind,
        file,
        stream: Stream::Held(bytes),
    })
}

// A value of so many bytes as a stream that has no clusters yet.
fn unplaced(alloc: Global, size: u64) -> Extents
    ensures { result ≡ unplaced size }
{
    Extents {
        runs: Runs::new(alloc),
        allocated: 0,
        real: size,
        initialised: size,
    }
}

// The bitmap of which the value leaves the record, for clusters for so many bytes.
fn leaves<B: FreeBits>(
    alloc: Global,
    per: ClusterSize,
    bits: &mut B,
    bitmap: &Bitmap,
    bytes: Bytes,
    size: u64,
) -> Result<Longer, SpaceFault>
    requires stands { IsBitmap bitmap.now }
    requires few { length (B.bits bits.old) ≤ cluster_limit }
    requires short { length bytes ≤ 2 ^ 16 }
    requires size { size ≤ 2 ^ 16 }
    ensures value { IfOk result (λ l. l.bitmap ≡ with_room per size (more_for per size (B.bits bits.old) (Placed (unplaced size))) (Placed (unplaced size)) bitmap.now) }
    ensures taken { IfOk result (λ l. l.taken.items ≡ more_for per size (B.bits bits.old) (Placed (unplaced size))) }
    ensures leaving { IfOk result (λ l. l.leaving ≡ bytes) }
    ensures bits { IfOk result (λ l. B.bits bits.new ≡ with_runs l.taken.items (B.bits bits.old)) }
    ensures space { GivesOrFails (λ _. tt) space_cause result (space_for (wanted_for per size (Placed (unplaced size))) (B.bits bits.old)) }
    ensures stands { IfOk result (λ l. IsBitmap l.bitmap) }
    ensures near { IfOk result (λ l. All IsNear l.taken.items) }
    ensures few { IfOk result (λ l. length l.leaving ≤ 2 ^ 16) }
{
    let stream = unplaced(alloc, size);
    let longer = longer_placed(alloc, per, bits, bitmap, &stream, size)?;
    Ok(Longer {
        bitmap: longer.bitmap,
        taken: longer.taken,
        leaving: bytes,
    })
}

fn no_runs(alloc: Global) -> Vec<Run>
    ensures { result.items ≡ [] }
{
    Vec::new(alloc)
}

// The bitmap with a longer value of these bytes, in its record or, where that would be too full, in
// clusters.
fn stays_or_leaves<B: FreeBits>(
    alloc: Global,
    per: ClusterSize,
    bits: &mut B,
    bitmap: &Bitmap,
    value: &[u8],
    held: Bitmap,
    bytes: Bytes,
    size: u64,
) -> Result<Longer, SpaceFault>
    requires stands { IsBitmap bitmap.now }
    requires few { length (B.bits bits.old) ≤ cluster_limit }
    requires size { size ≤ 2 ^ 16 }
    requires stream { bitmap.now.stream ≡ Held value.now }
    requires bytes { bytes ≡ filled_up size value.now }
    requires short { length bytes ≤ 2 ^ 16 }
    requires held { held ≡ with_value (filled_up size value.now) bitmap.now }
    requires as_value { IsBitmap held }
    ensures value { IfOk result (λ l. IsLonger per size (B.bits bits.old) bitmap.now l) }
    ensures bits { IfOk result (λ l. B.bits bits.new ≡ with_runs l.taken.items (B.bits bits.old)) }
    ensures space { GivesOrFails (λ _. tt) space_cause result (space_for (wanted_for per size (standing size bitmap.now)) (B.bits bits.old)) }
    ensures stands { IfOk result (λ l. IsBitmap l.bitmap) }
    ensures near { IfOk result (λ l. All IsNear l.taken.items) }
    ensures few { IfOk result (λ l. length l.leaving ≤ 2 ^ 16) }
{
    if has_room(alloc, &held.file)? {
        let taken = no_runs(alloc);
        return Ok(Longer {
            bitmap: held,
            taken,
            leaving: Bytes::new(alloc),
        });
    }
    leaves(alloc, per, bits, bitmap, bytes, size)
}

// The bitmap that is this value, with room for so many bytes.
pub fn longer_held<B: FreeBits>(
    alloc: Global,
    per: ClusterSize,
    bits: &mut B,
    bitmap: &Bitmap,
    value: &[u8],
    size: u64,
) -> Result<Longer, SpaceFault>
    requires stands { IsBitmap bitmap.now }
    requires few { length (B.bits bits.old) ≤ cluster_limit }
    requires short { length value.now ≤ 2 ^ 15 }
    requires size { size ≤ 2 ^ 16 }
    requires stream { bitmap.now.stream ≡ Held value.now }
    ensures value { IfOk result (λ l. IsLonger per size (B.bits bits.old) bitmap.now l) }
    ensures bits { IfOk result (λ l. B.bits bits.new ≡ with_runs l.taken.items (B.bits bits.old)) }
    ensures space { GivesOrFails (λ _. tt) space_cause result (space_for (wanted_for per size (standing size bitmap.now)) (B.bits bits.old)) }
    ensures stands { IfOk result (λ l. IsBitmap l.bitmap) }
    ensures near { IfOk result (λ l. All IsNear l.taken.items) }
    ensures few { IfOk result (λ l. length l.leaving ≤ 2 ^ 16) }
{
    let bytes = filled_up(alloc, value, size)?;
    let held = with_value(alloc, bitmap, &bytes)?;
    stays_or_leaves(alloc, per, bits, bitmap, value, held, bytes, size)
}
