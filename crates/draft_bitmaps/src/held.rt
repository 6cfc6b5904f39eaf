//! Bits of a bitmap that is a value in its record.
ghost use Rattle.std.specs.Prelude.{◌≡◌, ◌+◌, ◌*◌, ◌<◌, ◌≤◌, ◌^◌, IfErr, IfOk, IfSome, length};
ghost use Rattle.host_base.specs.Answers.{GivesOrFails};
ghost use Rattle.block_view.specs.Views.{AsksView};
ghost use Rattle.record_values.specs.record_streams.Fitting.{FitsButRoom, IsPlaceable};
ghost use Rattle.draft_resized.specs.draft_bits.Filling.{FillsBytes};
ghost use Rattle.draft_resized.specs.draft_records.Faults.{draft_cause};
ghost use Rattle.draft_resized.specs.draft_records.Records.{fits_room, StaysWhereFull};
ghost use Rattle.draft_bitmaps.specs.Bitmaps.{with_value, with_record, HasFilled};

use crate::bitmap::Bitmap;
use block_view::View;
use draft_resized::{ClusterSize, Draft, DraftFault, Extents, Stream, fill_bits, put_file};
use host_base::Bytes;
use record_values::{placed_fits, valued_record};
use std::alloc::{AllocError, Global};

// A copy of the value with the bits set or clear.
fn filled_value(
    alloc: Global,
    value: &[u8],
    first: u64,
    len: u64,
    bit: bool,
) -> Result<Bytes, AllocError>
    requires short { length value.now ≤ 2 ^ 16 }
    requires within { first + len ≤ 8 * length value.now }
    ensures { IfOk result (λ bytes. FillsBytes value.now bytes first (first + len) bit) }
{
    let mut bytes = Vec::from_slice(alloc, value)?;
    fill_bits(&mut bytes, first, first + len, bit);
    Ok(Bytes::from(bytes))
}

// The bitmap as a value of these bytes.
fn with_value(alloc: Global, bitmap: &Bitmap, bytes: Bytes) -> Result<Bitmap, AllocError>
    requires short { length bytes ≤ 2 ^ 16 }
    requires kind { IsPlaceable bitmap.now.kind }
    requires fits { FitsButRoom bitmap.now.file }
    ensures value { IfOk result (λ b. b ≡ with_value bytes bitmap.now) }
    ensures fits { IfOk result (λ b. FitsButRoom b.file) }
{
    let Ok(file) = valued_record(alloc, bitmap.kind, &[], bytes.as_slice(), &bitmap.file) else {
        return Err(AllocError);
    };
    Ok(Bitmap {
        number: bitmap.number,
        kind: bitmap.kind,
        file,
        stream: Stream::Held(bytes),
    })
}

/// Sets or clears `len` bits of a bitmap that is this value in its record, from the number `first`
/// on, and leaves the others: the record with the changed value is put as [`put_file`] does, and the
/// bitmap is the one that is answered (Linux-NTFS documentation, "$Bitmap"). Bits count from the low
/// bit of the first byte, and are those of the value, which has at most 65,536 bytes. `table` has the
/// clusters of the file table and `mirror` those of its mirror, of `per` sectors each.
/// [`bitmap_is_put`](crate::bitmap_is_put) says what stands there then.
///
/// - [`DraftFault::Full`]: the record would use these bytes, which are above 1,024, with this value
///   and whatever its bits; the draft is as it was.
/// - [`DraftFault::Fault`]: the view failed, which is asked where a block wasn't touched.
/// - [`DraftFault::Memory`]: want of memory.
///
/// After the last two the draft is as it was, or has the record in its own block alone. It takes
/// time and memory linear in the record, and a [`put_file`].
pub fn put_held_bits<V: View>(
    draft: &mut Draft<'_, V>,
    alloc: Global,
    per: ClusterSize,
    table: &Extents,
    mirror: &Extents,
    bitmap: &Bitmap,
    value: &[u8],
    first: u64,
    len: u64,
    bit: bool,
) -> Result<Bitmap, DraftFault>
    requires number { bitmap.now.number < 2 ^ 48 }
    requires kind { IsPlaceable bitmap.now.kind }
    requires fits { FitsButRoom bitmap.now.file }
    requires short { length value.now ≤ 2 ^ 16 }
    requires within { first + len ≤ 8 * length value.now }
    ensures room { GivesOrFails (λ _. tt) draft_cause result (fits_room (with_value value.now bitmap.now).file) }
    ensures bitmap { IfOk result (λ b. HasFilled bitmap.now value.now first len bit b) }
    ensures put { IfOk result (λ b. IfSome (V.content draft.old.view.now) (λ c. draft.new.touched.items ≡ with_record c per table.now mirror.now b draft.old.touched.items)) }
    ensures fits { IfOk result (λ b. FitsButRoom b.file) }
    ensures full { IfErr result (StaysWhereFull draft.old.touched.items draft.new.touched.items) }
    ensures asks { AsksView V.content V.kept V.faults draft_cause draft.old.view.now draft.new.view.now result }
    ensures reference { draft.new.view.ghost_name ≡ draft.old.view.ghost_name }
{
    let bytes = filled_value(alloc, value, first, len, bit)?;
    let new = with_value(alloc, bitmap, bytes)?;
    placed_fits();
    put_file(draft, alloc, per, table, mirror, new.number, &new.file)?;
    Ok(new)
}
