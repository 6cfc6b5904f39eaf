//! Bits of a bitmap in clusters past its initialised size.
ghost use Rattle.std.specs.Prelude.{◌≡◌, ◌+◌, ◌*◌, ◌/◌, ◌<◌, ◌≤◌, ◌^◌, IfErr, IfOk, IfSome, OnOk, length};
ghost use Rattle.host_base.specs.Answers.{GivesOrFails};
ghost use Rattle.disk_model.specs.Bytes.{zeros};
ghost use Rattle.block_view.specs.Views.{AsksView};
ghost use Rattle.record_model.specs.Pairs.{HasSpelling};
ghost use Rattle.record_values.specs.record_streams.Fitting.{FitsButRoom, IsPlaceable};
ghost use Rattle.draft_resized.specs.plan_draft.Faults.{fault_cause};
ghost use Rattle.draft_resized.specs.draft_bits.Filling.{first_past};
ghost use Rattle.draft_resized.specs.draft_records.Faults.{draft_cause};
ghost use Rattle.draft_resized.specs.draft_records.Records.{fits_room, StaysWhereFull};
ghost use Rattle.draft_bitmaps.specs.Bitmaps.{byte_end, raised, with_initialised, with_extents, with_zeros, PutsPast, PutsRaised};

use crate::bitmap::Bitmap;
use block_view::{View, ViewFault};
use draft_resized::{
    ClusterSize, Draft, DraftFault, Extents, Resized, Stream, put_bits, put_bytes, put_file, sized,
};
use host_base::Memory;
use record_values::placed_fits;
use std::alloc::{AllocError, Global};

// So many zeros.
#[tactic(auto, unfolding(disk_model::specs::Bytes::zeros))]
fn zeros(alloc: Global, count: usize) -> Result<Vec<u8>, AllocError>
    ensures value { IfOk result (λ room. room.items ≡ zeros count) }
    ensures count { IfOk result (λ room. length room.items ≡ count) }
{
    vec![in alloc; 0u8; count]
}

// The first sector that lies wholly past the initialised size.
fn first_past(extents: &Extents) -> u64
    requires { extents.now.initialised < 2 ^ 62 }
    ensures { result ≡ first_past extents.now }
{
    (extents.initialised + 511) / 512
}

// Where the bytes end that have these bits.
pub fn byte_end(first: u64, len: u64) -> u64
    requires { first + len < 2 ^ 60 }
    ensures value { result ≡ byte_end first len }
    ensures small { result < 2 ^ 58 }
{
    (first + len + 7) / 8
}

// Puts zeros from the initialised size on, below `end`.
fn put_zeros<V: View>(
    draft: &mut Draft<'_, V>,
    alloc: Global,
    per: ClusterSize,
    extents: &Extents,
    end: u64,
) -> Result<(), ViewFault>
    requires size { extents.now.initialised < 2 ^ 61 }
    requires end { end < 2 ^ 61 }
    ensures touched { OnOk result (IfSome (V.content draft.old.view.now) (λ c. draft.new.touched.items ≡ with_zeros c per extents.now end draft.old.touched.items)) }
    ensures asks { AsksView V.content V.kept V.faults fault_cause draft.old.view.now draft.new.view.now result }
    ensures reference { draft.new.view.ghost_name ≡ draft.old.view.ghost_name }
{
    let at = extents.initialised;
    let count = end.saturating_sub(at);
    let bytes = zeros(alloc, count as usize)?;
    let fresh = first_past(extents);
    put_bytes(draft, alloc, per, &extents.runs, fresh, at, &bytes)
}

// Puts the zeros, and then the bits into the stream of the raised size.
fn put_past<V: View>(
    draft: &mut Draft<'_, V>,
    alloc: Global,
    per: ClusterSize,
    extents: &Extents,
    higher: &Extents,
    first: u64,
    len: u64,
    bit: bool,
) -> Result<(), ViewFault>
    requires size { extents.now.initialised < 2 ^ 61 }
    requires place { first + len < 2 ^ 60 }
    requires higher { higher.now ≡ raised first len extents.now }
    ensures put { OnOk result (IfSome (V.content draft.old.view.now) (λ c. PutsPast c per extents.now first len bit draft.old.touched.items draft.new.touched.items)) }
    ensures asks { AsksView V.content V.kept V.faults fault_cause draft.old.view.now draft.new.view.now result }
    ensures reference { draft.new.view.ghost_name ≡ draft.old.view.ghost_name }
{
    put_zeros(draft, alloc, per, extents, byte_end(first, len))?;
    put_bits(draft, alloc, per, higher, first, len, bit)
}

// The file whose stream has the raised size.
fn raised(
    alloc: Global,
    per: ClusterSize,
    bitmap: &Bitmap,
    extents: &Extents,
    end: u64,
) -> Result<Resized, AllocError>
    requires kind { IsPlaceable bitmap.now.kind }
    requires fits { FitsButRoom bitmap.now.file }
    requires spelled { HasSpelling 0 extents.now.runs }
    requires few { length extents.now.runs ≤ 2 ^ 16 }
    ensures extents { IfOk result (λ z. z.extents ≡ with_initialised end extents.now) }
    ensures file { IfOk result (λ z. z.file ≡ (with_extents per (with_initialised end extents.now) bitmap.now).file) }
    ensures fits { IfOk result (λ z. FitsButRoom z.file) }
{
    let initialised = extents.initialised.max(end);
    match sized(
        alloc,
        per,
        bitmap.kind,
        &[],
        extents,
        &bitmap.file,
        extents.real,
        initialised,
    ) {
        Ok(resized) => Ok(resized),
        Err(Memory) => Err(AllocError),
    }
}

/// Sets or clears `len` bits of a bitmap in these clusters, from the number `first` on, of which
/// some lie past its initialised size, and leaves the others: that size is raised so that they lie
/// below it. The record with the raised size is put as [`put_file`] does, the bytes from the
/// initialised size on are put as zeros, and then the bits; the bitmap is the one that is answered
/// (Linux-NTFS documentation, "$Bitmap", "Attribute Header"). The volume has `per` sectors a cluster.
/// [`bitmap_is_put`](crate::bitmap_is_put) says what the bitmap is then.
///
/// - [`DraftFault::Full`]: the record would use these bytes, which are above 1,024; the draft is as
///   it was.
/// - [`DraftFault::Fault`]: the view failed, which is asked where a block wasn't touched.
/// - [`DraftFault::Memory`]: want of memory.
///
/// After the last two some of it is put, in this order. It takes a [`put_file`], and time and memory
/// linear in the bytes that have the bits or lie past the initialised size before them.
pub fn put_raised<V: View>(
    draft: &mut Draft<'_, V>,
    alloc: Global,
    per: ClusterSize,
    table: &Extents,
    mirror: &Extents,
    bitmap: &Bitmap,
    extents: &Extents,
    first: u64,
    len: u64,
    bit: bool,
) -> Result<Bitmap, DraftFault>
    requires number { bitmap.now.number < 2 ^ 48 }
    requires kind { IsPlaceable bitmap.now.kind }
    requires fits { FitsButRoom bitmap.now.file }
    requires spelled { HasSpelling 0 extents.now.runs }
    requires few { length extents.now.runs ≤ 2 ^ 16 }
    requires size { extents.now.initialised < 2 ^ 61 }
    requires place { first + len < 2 ^ 60 }
    ensures room { GivesOrFails (λ _. tt) draft_cause result (fits_room (with_extents per (raised first len extents.now) bitmap.now).file) }
    ensures bitmap { IfOk result (λ b. b ≡ with_extents per (raised first len extents.now) bitmap.now) }
    ensures put { IfOk result (λ b. IfSome (V.content draft.old.view.now) (λ c. PutsRaised c per table.now mirror.now b extents.now first len bit draft.old.touched.items draft.new.touched.items)) }
    ensures fits { IfOk result (λ b. FitsButRoom b.file) }
    ensures full { IfErr result (StaysWhereFull draft.old.touched.items draft.new.touched.items) }
    ensures asks { AsksView V.content V.kept V.faults draft_cause draft.old.view.now draft.new.view.now result }
    ensures reference { draft.new.view.ghost_name ≡ draft.old.view.ghost_name }
{
    let end = byte_end(first, len);
    let resized = raised(alloc, per, bitmap, extents, end)?;
    placed_fits();
    put_file(
        draft,
        alloc,
        per,
        table,
        mirror,
        bitmap.number,
        &resized.file,
    )?;
    put_past(
        draft,
        alloc,
        per,
        extents,
        &resized.extents,
        first,
        len,
        bit,
    )?;
    Ok(Bitmap {
        number: bitmap.number,
        kind: bitmap.kind,
        file: resized.file,
        stream: Stream::Placed(resized.extents),
    })
}
