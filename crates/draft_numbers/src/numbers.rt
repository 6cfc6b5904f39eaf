//! Spare numbers of records.
ghost use Rattle.std.specs.Prelude.{◌≡◌, ◌+◌, ◌*◌, ◌<◌, ◌≤◌, ◌^◌, true, IfOk, IfSome, OnOk, OnErr, length};
ghost use Rattle.block_view.specs.Views.{AsksView};
ghost use Rattle.volume_model.specs.Nodes.{spare_sequence};
ghost use Rattle.draft_records.specs.plan_draft.Drafts.{drafted};
ghost use Rattle.draft_records.specs.plan_draft.Faults.{fault_cause};
ghost use Rattle.draft_numbers.specs.Numbers.{new_sequence, IsLowestSpare, MarksNumber, PutsNumber, PutsNumberFront};

use bit_set::BitSet;
use block_view::{View, ViewFault};
use disk_model::{Block, BlockKind, Body, u16_at};
use draft_bits::put_bits;
use draft_records::{ClusterSize, Draft, Extents, block_at, is_past};
use file_tree::FIRST_USER_RECORD;
use host_base::FileRef;
use std::alloc::Global;

// The sequence that a new file would get in a record with these bytes.
#[tactic(auto, unfolding(volume_model::specs::Nodes::spare_sequence))]
fn sequence_of(body: &[u8]) -> u16
    requires { length body.now ≡ 1024 }
    ensures { result ≡ spare_sequence body.now }
{
    let is_signed = body.starts_with(b"FILE");
    let sequence = u16_at(body, 0x10);
    if is_signed && sequence != 0 {
        sequence
    } else {
        1
    }
}

// The same of a record that the draft has in this block.
fn sequence_in<V: View>(
    draft: &mut Draft<'_, V>,
    alloc: Global,
    block: Block,
) -> Result<u16, ViewFault>
    requires { block.kind ≡ BlockKind.FileRec }
    ensures sequence { IfSome (V.content draft.old.view.now) (λ c. IfOk result (λ seq. seq ≡ spare_sequence (drafted draft.old.touched.items c block).bytes)) }
    ensures touched { draft.new.touched.items ≡ draft.old.touched.items }
    ensures asks { AsksView V.content V.kept V.faults fault_cause draft.old.view.now draft.new.view.now result }
    ensures reference { draft.new.view.ghost_name ≡ draft.old.view.ghost_name }
{
    let mut body = Body::empty(alloc)?;
    draft.body(block, &mut body)?;
    Ok(sequence_of(body.bytes()))
}

// The same of the record with this number.
fn sequence_at<V: View>(
    draft: &mut Draft<'_, V>,
    alloc: Global,
    per: ClusterSize,
    table: &Extents,
    number: u64,
) -> Result<u16, ViewFault>
    requires number { number < 2 ^ 48 }
    ensures sequence { IfSome (V.content draft.old.view.now) (λ c. IfOk result (λ seq. seq ≡ new_sequence (drafted draft.old.touched.items c) per table.now number)) }
    ensures touched { draft.new.touched.items ≡ draft.old.touched.items }
    ensures asks { AsksView V.content V.kept V.faults fault_cause draft.old.view.now draft.new.view.now result }
    ensures reference { draft.new.view.ghost_name ≡ draft.old.view.ghost_name }
{
    if is_past(table, number) {
        return Ok(1);
    }
    match block_at(per, table.runs.as_slice(), BlockKind::FileRec, number) {
        None => Ok(1),
        Some(block) => sequence_in(draft, alloc, block),
    }
}

/// The lowest number from 24 on whose bit is clear, with the sequence that a new file would get
/// there: that of its record's bytes as they are now in the draft, or 1 where these don't begin
/// `FILE` or have sequence 0 (Linux-NTFS documentation, "FILE Record"); none where each bit is set.
/// It is the spare number of a volume whose record bits these are, as
/// [`spares_are_those`](crate::spares_are_those) says. `table` has the clusters of the file table,
/// of `per` sectors each. Nothing is put.
///
/// - [`ViewFault::Fault`]: the view failed, which is asked where the record wasn't touched.
/// - [`ViewFault::Memory`]: want of memory.
///
/// It takes one search among the bits, reads one block at most, and passes once over the runs.
pub fn spare_number<V: View>(
    draft: &mut Draft<'_, V>,
    alloc: Global,
    per: ClusterSize,
    table: &Extents,
    bits: &BitSet,
) -> Result<Option<FileRef>, ViewFault>
    requires few { length bits.now ≤ 2 ^ 48 }
    ensures number { IfOk result (λ spare. IsLowestSpare bits.now spare) }
    ensures sequence { IfSome (V.content draft.old.view.now) (λ c. IfOk result (λ spare. IfSome spare (λ r. r.seq ≡ new_sequence (drafted draft.old.touched.items c) per table.now r.number))) }
    ensures touched { draft.new.touched.items ≡ draft.old.touched.items }
    ensures asks { AsksView V.content V.kept V.faults fault_cause draft.old.view.now draft.new.view.now result }
    ensures reference { draft.new.view.ghost_name ≡ draft.old.view.ghost_name }
{
    let Some(number) = bits.lowest(FIRST_USER_RECORD) else {
        return Ok(None);
    };
    let seq = sequence_at(draft, alloc, per, table, number)?;
    Ok(Some(FileRef { number, seq }))
}

/// Takes the lowest spare number ([`spare_number`]) in a table whose bitmap lies in clusters: its
/// bit is set there, in the draft, and among `bits`, so that the next call takes another one; none
/// is taken where each bit is set. `bitmap` has the clusters of the bitmap of `$MFT`.
///
/// - [`ViewFault::Fault`]: the view failed, which is asked where a block wasn't touched.
/// - [`ViewFault::Memory`]: want of memory.
///
/// After an error `bits` are as they were, and the draft is, or has the bit in its sector. It takes
/// a [`spare_number`] and a [`put_bits`](draft_bits::put_bits).
pub fn take_number<V: View>(
    draft: &mut Draft<'_, V>,
    alloc: Global,
    per: ClusterSize,
    table: &Extents,
    bitmap: &Extents,
    bits: &mut BitSet,
) -> Result<Option<FileRef>, ViewFault>
    requires size { bitmap.now.initialised < 2 ^ 63 }
    requires few { length bits.old ≤ 2 ^ 48 }
    ensures number { IfOk result (λ spare. IsLowestSpare bits.old spare) }
    ensures sequence { IfSome (V.content draft.old.view.now) (λ c. IfOk result (λ spare. IfSome spare (λ r. r.seq ≡ new_sequence (drafted draft.old.touched.items c) per table.now r.number))) }
    ensures marked { IfOk result (λ spare. MarksNumber bits.old bits.new spare) }
    ensures put { IfSome (V.content draft.old.view.now) (λ c. IfOk result (λ spare. PutsNumber c per bitmap.now draft.old.touched.items draft.new.touched.items spare)) }
    ensures unmarked { OnErr result (bits.new ≡ bits.old) }
    ensures front { OnErr result (IfSome (V.content draft.old.view.now) (λ c. PutsNumberFront c per bitmap.now draft.old.touched.items draft.new.touched.items)) }
    ensures asks { AsksView V.content V.kept V.faults fault_cause draft.old.view.now draft.new.view.now result }
    ensures reference { draft.new.view.ghost_name ≡ draft.old.view.ghost_name }
{
    let Some(spare) = spare_number(draft, alloc, per, table, bits)? else {
        return Ok(None);
    };
    put_bits(draft, alloc, per, bitmap, spare.number, 1, true)?;
    bits.set_run(spare.number, 1);
    Ok(Some(spare))
}
