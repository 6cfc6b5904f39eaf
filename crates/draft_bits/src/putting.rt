//! Bits that a draft puts into the sectors of a bitmap.
ghost use Rattle.std.specs.Prelude.{◌≡◌, ◌+◌, ◌-◌, ◌*◌, ◌/◌, ◌%◌, ◌<◌, ◌≤◌, ◌^◌, IfOk, IfSome, OnOk, OnErr, length};
ghost use Rattle.draft_streams.specs.block_view.Views.{AsksView};
ghost use Rattle.draft_streams.specs.plan_draft.Drafts.{drafted};
ghost use Rattle.draft_streams.specs.plan_draft.Faults.{fault_cause};
ghost use Rattle.draft_bits.specs.Filling.{byte_count, bytes_from, first_past, AreFilled, PutsBits, PutsFront};

use crate::bytes::fill_bits;
use draft_streams::{Body, ClusterSize, Draft, Extents, View, ViewFault, fill, put_bytes};
use std::alloc::{AllocError, Global};

// So many zeros.
fn zeros(alloc: Global, count: usize) -> Result<Vec<u8>, AllocError>
    ensures { IfOk result (λ room. length room.items ≡ count) }
{
    vec![in alloc; 0u8; count]
}

// The first sector that lies wholly past the initialised size.
fn first_past(extents: &Extents) -> u64
    requires { extents.now.initialised < 2 ^ 63 }
    ensures { result ≡ first_past extents.now }
{
    (extents.initialised + 511) / 512
}

// So many bytes of a stream from a place on, as the draft has them.
fn bytes_from<V: View>(
    draft: &mut Draft<'_, V>,
    alloc: Global,
    per: ClusterSize,
    extents: &Extents,
    at: u64,
    count: usize,
) -> Result<Vec<u8>, ViewFault>
    requires place { at + count ≤ 2 ^ 64 }
    ensures bytes { IfSome (V.content draft.old.view.now) (λ c. IfOk result (λ bytes. bytes.items ≡ bytes_from (drafted draft.old.touched.items c) per extents.now at count)) }
    ensures count { IfOk result (λ bytes. length bytes.items ≡ count) }
    ensures touched { draft.new.touched.items ≡ draft.old.touched.items }
    ensures asks { AsksView V.content V.kept V.faults fault_cause draft.old.view.now draft.new.view.now result }
    ensures reference { draft.new.view.ghost_name ≡ draft.old.view.ghost_name }
{
    let mut body = Body::empty(alloc)?;
    let mut bytes = zeros(alloc, count)?;
    fill(draft, per, extents, at, &mut body, &mut bytes)?;
    Ok(bytes)
}

// The bytes that have these bits, as the draft has them, with the bits filled.
fn filled_bytes<V: View>(
    draft: &mut Draft<'_, V>,
    alloc: Global,
    per: ClusterSize,
    extents: &Extents,
    first: u64,
    len: u64,
    value: bool,
) -> Result<Vec<u8>, ViewFault>
    requires place { first + len < 2 ^ 60 }
    ensures bytes { IfSome (V.content draft.old.view.now) (λ c. IfOk result (λ bytes. AreFilled c per extents.now first len value draft.old.touched.items bytes.items)) }
    ensures count { IfOk result (λ bytes. length bytes.items ≡ byte_count first len) }
    ensures touched { draft.new.touched.items ≡ draft.old.touched.items }
    ensures asks { AsksView V.content V.kept V.faults fault_cause draft.old.view.now draft.new.view.now result }
    ensures reference { draft.new.view.ghost_name ≡ draft.old.view.ghost_name }
{
    let at = first / 8;
    let count = (first + len + 7) / 8 - at;
    let mut bytes = bytes_from(draft, alloc, per, extents, at, count as usize)?;
    fill_bits(&mut bytes, first % 8, first % 8 + len, value);
    Ok(bytes)
}

/// Sets or clears `len` bits of a bitmap in clusters, from the number `first` on, and leaves the
/// others: the bits of clusters in the data of `$Bitmap`, or those of records in the bitmap of
/// `$MFT` (Linux-NTFS documentation, "$Bitmap"). Bits count from the low bit of the first byte. Its
/// sectors wholly past the initialised size count as fresh, and its bytes from that size on as
/// zeros. The volume has `per` sectors a cluster.
///
/// - [`ViewFault::Fault`]: the view failed, which is asked where a sector wasn't touched.
/// - [`ViewFault::Memory`]: want of memory.
///
/// After an error the first of its sectors are put, in order, or none. It takes time and memory
/// linear in the bytes that have the bits, and for each sector a look-up, a
/// [`Draft::put_part`] and two passes over the runs.
pub fn put_bits<V: View>(
    draft: &mut Draft<'_, V>,
    alloc: Global,
    per: ClusterSize,
    extents: &Extents,
    first: u64,
    len: u64,
    value: bool,
) -> Result<(), ViewFault>
    requires size { extents.now.initialised < 2 ^ 63 }
    requires place { first + len < 2 ^ 60 }
    ensures put { OnOk result (IfSome (V.content draft.old.view.now) (λ c. PutsBits c per extents.now first len value draft.old.touched.items draft.new.touched.items)) }
    ensures front { OnErr result (IfSome (V.content draft.old.view.now) (λ c. PutsFront c per extents.now first len value draft.old.touched.items draft.new.touched.items)) }
    ensures asks { AsksView V.content V.kept V.faults fault_cause draft.old.view.now draft.new.view.now result }
    ensures reference { draft.new.view.ghost_name ≡ draft.old.view.ghost_name }
{
    let bytes = filled_bytes(draft, alloc, per, extents, first, len, value)?;
    let fresh = first_past(extents);
    put_bytes(draft, alloc, per, &extents.runs, fresh, first / 8, &bytes)
}
