//! Bits of a bitmap wherever it stands.
ghost use Rattle.std.specs.Prelude.{◌≡◌, ◌+◌, ◌*◌, ◌<◌, ◌≤◌, ◌^◌, IfErr, IfOk, IfSome, OnErr, OnOk, length};
ghost use Rattle.host_base.specs.Answers.{GivesOrFails};
ghost use Rattle.draft_resized.specs.state_model.declared.stream.Stream.TheVariants.{Placed};
ghost use Rattle.block_view.specs.Views.{AsksView};
ghost use Rattle.record_values.specs.record_streams.Fitting.{FitsButRoom, IsPlaceable};
ghost use Rattle.draft_resized.specs.draft_records.Faults.{draft_cause};
ghost use Rattle.draft_resized.specs.draft_records.Records.{StaysWhereFull};
ghost use Rattle.draft_bitmaps.specs.Bitmaps.{is_below, changed_or, bit_count, IsBitmap, IsShortPlaced, PutsBitsOf, PutsPlaced};
ghost use Rattle.draft_bitmaps.specs.Effects.{room_in, room_of};

use crate::bitmap::Bitmap;
use crate::held::put_held_bits;
use crate::raised::{byte_end, put_raised};
use block_view::View;
use draft_resized::{ClusterSize, Draft, DraftFault, Extents, Stream, put_bits};
use std::alloc::Global;

// Whether the bits lie below the initialised size.
fn is_below(extents: &Extents, first: u64, len: u64) -> bool
    requires { first + len < 2 ^ 60 }
    ensures { result ≡ is_below extents.now first len }
{
    byte_end(first, len) <= extents.initialised
}

// The bits of a bitmap in clusters; the bitmap that comes of it, if it is another one.
fn put_placed<V: View>(
    draft: &mut Draft<'_, V>,
    alloc: Global,
    per: ClusterSize,
    table: &Extents,
    mirror: &Extents,
    bitmap: &Bitmap,
    extents: &Extents,
    first: u64,
    len: u64,
    bit: bool,
) -> Result<Option<Bitmap>, DraftFault>
    requires number { bitmap.now.number < 2 ^ 48 }
    requires kind { IsPlaceable bitmap.now.kind }
    requires fits { FitsButRoom bitmap.now.file }
    requires stream { IsShortPlaced extents.now }
    requires place { first + len < 2 ^ 60 }
    ensures room { GivesOrFails (λ _. tt) draft_cause result (room_in (Placed extents.now) per bitmap.now first len) }
    ensures put { IfOk result (λ b. IfSome (V.content draft.old.view.now) (λ c. PutsPlaced c per table.now mirror.now bitmap.now extents.now first len bit draft.old.touched.items draft.new.touched.items (changed_or bitmap.now b))) }
    ensures stands { bitmap.now.stream ≡ Placed extents.now → IfOk result (λ b. IsBitmap (changed_or bitmap.now b)) }
    ensures count { bitmap.now.stream ≡ Placed extents.now → IfOk result (λ b. bit_count (changed_or bitmap.now b).stream ≡ bit_count bitmap.now.stream) }
    ensures full { IfErr result (StaysWhereFull draft.old.touched.items draft.new.touched.items) }
    ensures asks { AsksView V.content V.kept V.faults draft_cause draft.old.view.now draft.new.view.now result }
    ensures reference { draft.new.view.ghost_name ≡ draft.old.view.ghost_name }
{
    if is_below(extents, first, len) {
        put_bits(draft, alloc, per, extents, first, len, bit)?;
        return Ok(None);
    }
    let new = put_raised(
        draft, alloc, per, table, mirror, bitmap, extents, first, len, bit,
    )?;
    Ok(Some(new))
}

// The bits of a bitmap; the bitmap that comes of it, if it is another one.
fn put_into<V: View>(
    draft: &mut Draft<'_, V>,
    alloc: Global,
    per: ClusterSize,
    table: &Extents,
    mirror: &Extents,
    bitmap: &Bitmap,
    first: u64,
    len: u64,
    bit: bool,
) -> Result<Option<Bitmap>, DraftFault>
    requires stands { IsBitmap bitmap.now }
    requires within { first + len ≤ bit_count bitmap.now.stream }
    requires place { first + len < 2 ^ 60 }
    ensures room { GivesOrFails (λ _. tt) draft_cause result (room_of per bitmap.now first len) }
    ensures put { IfOk result (λ b. IfSome (V.content draft.old.view.now) (λ c. PutsBitsOf c per table.now mirror.now bitmap.now first len bit draft.old.touched.items draft.new.touched.items (changed_or bitmap.now b))) }
    ensures stands { IfOk result (λ b. IsBitmap (changed_or bitmap.now b)) }
    ensures count { IfOk result (λ b. bit_count (changed_or bitmap.now b).stream ≡ bit_count bitmap.now.stream) }
    ensures full { IfErr result (StaysWhereFull draft.old.touched.items draft.new.touched.items) }
    ensures asks { AsksView V.content V.kept V.faults draft_cause draft.old.view.now draft.new.view.now result }
    ensures reference { draft.new.view.ghost_name ≡ draft.old.view.ghost_name }
{
    match &bitmap.stream {
        Stream::Held(value) => {
            let value = value.as_slice();
            let new = put_held_bits(
                draft, alloc, per, table, mirror, bitmap, value, first, len, bit,
            )?;
            Ok(Some(new))
        }
        Stream::Placed(extents) => put_placed(
            draft, alloc, per, table, mirror, bitmap, extents, first, len, bit,
        ),
    }
}

/// Sets or clears `len` bits of a bitmap of a volume, from the number `first` on, wherever it
/// stands, and leaves the others (Linux-NTFS documentation, "$Bitmap"): in a value of its record as
/// [`put_held_bits`] does, in clusters below the initialised size as [`put_bits`] does, and past it
/// as [`put_raised`] does. `bitmap` becomes what it is then, with its record and its sizes.
/// `table` has the clusters of the file table and `mirror` those of its mirror, of `per` sectors each.
/// [`bitmap_is_put`](crate::bitmap_is_put) says what the bits are then.
///
/// - [`DraftFault::Full`]: the bitmap's record would use these bytes, which are above 1,024; the
///   draft is as it was.
/// - [`DraftFault::Fault`]: the view failed, which is asked where a block wasn't touched.
/// - [`DraftFault::Memory`]: want of memory.
///
/// After an error the bitmap is as it was; after the last two some of it is put in the draft.
pub fn put_bits_of<V: View>(
    draft: &mut Draft<'_, V>,
    alloc: Global,
    per: ClusterSize,
    table: &Extents,
    mirror: &Extents,
    bitmap: &mut Bitmap,
    first: u64,
    len: u64,
    bit: bool,
) -> Result<(), DraftFault>
    requires stands { IsBitmap bitmap.old }
    requires within { first + len ≤ bit_count bitmap.old.stream }
    requires place { first + len < 2 ^ 60 }
    ensures room { GivesOrFails (λ x. x) draft_cause result (room_of per bitmap.old first len) }
    ensures put { OnOk result (IfSome (V.content draft.old.view.now) (λ c. PutsBitsOf c per table.now mirror.now bitmap.old first len bit draft.old.touched.items draft.new.touched.items bitmap.new)) }
    ensures stands { IsBitmap bitmap.new }
    ensures count { bit_count bitmap.new.stream ≡ bit_count bitmap.old.stream }
    ensures unchanged { OnErr result (bitmap.new ≡ bitmap.old) }
    ensures full { IfErr result (StaysWhereFull draft.old.touched.items draft.new.touched.items) }
    ensures asks { AsksView V.content V.kept V.faults draft_cause draft.old.view.now draft.new.view.now result }
    ensures reference { draft.new.view.ghost_name ≡ draft.old.view.ghost_name }
{
    let changed = put_into(draft, alloc, per, table, mirror, bitmap, first, len, bit)?;
    if let Some(new) = changed {
        *bitmap = new;
    }
    Ok(())
}
