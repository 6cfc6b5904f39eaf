//! Records that come with a table that grows.
ghost use Rattle.std.specs.Prelude.{◌≡◌, ◌+◌, ◌<◌, ◌^◌, IfOk, IfSome, OnOk, length};
ghost use Rattle.disk_model.specs.Bytes.{zeros};
ghost use Rattle.block_view.specs.Views.{AsksView};
ghost use Rattle.draft_bitmaps.specs.plan_draft.Faults.{fault_cause};
ghost use Rattle.draft_growth.specs.Growing.{with_empty, with_empty_records};

use block_view::{View, ViewFault};
use disk_model::BlockKind;
use draft_bitmaps::{ClusterSize, Draft, Extents, block_at};
use std::alloc::{AllocError, Global};

// So many zeros, as in the body of a record that was never used.
#[tactic(auto, unfolding(disk_model::specs::Bytes::zeros))]
pub fn zero_bytes(alloc: Global, count: usize) -> Result<Vec<u8>, AllocError>
    ensures value { IfOk result (λ bytes. bytes.items ≡ zeros count) }
    ensures count { IfOk result (λ bytes. length bytes.items ≡ count) }
{
    vec![in alloc; 0u8; count]
}

// Puts this body into the block of a record, if it has one; the block is fresh.
fn put_empty<V: View>(
    draft: &mut Draft<'_, V>,
    alloc: Global,
    per: ClusterSize,
    table: &Extents,
    number: u64,
    body: &[u8],
) -> Result<(), ViewFault>
    requires number { number < 2 ^ 48 }
    requires size { length body.now ≡ 1024 }
    ensures touched { OnOk result (IfSome (V.content draft.old.view.now) (λ c. draft.new.touched.items ≡ with_empty c per table.now body.now number draft.old.touched.items)) }
    ensures asks { AsksView V.content V.kept V.faults fault_cause draft.old.view.now draft.new.view.now result }
    ensures reference { draft.new.view.ghost_name ≡ draft.old.view.ghost_name }
{
    match block_at(per, table.runs.as_slice(), BlockKind::FileRec, number) {
        None => Ok(()),
        Some(block) => draft.put(alloc, block, true, body),
    }
}

// Puts this body into so many records.
fn put_all<V: View>(
    draft: &mut Draft<'_, V>,
    alloc: Global,
    per: ClusterSize,
    table: &Extents,
    first: u64,
    count: u64,
    body: &[u8],
) -> Result<(), ViewFault>
    requires number { first + count < 2 ^ 48 }
    requires size { length body.now ≡ 1024 }
    ensures touched { OnOk result (IfSome (V.content draft.old.view.now) (λ c. draft.new.touched.items ≡ with_empty_records c per table.now body.now first count draft.old.touched.items)) }
    ensures asks { AsksView V.content V.kept V.faults fault_cause draft.old.view.now draft.new.view.now result }
    ensures reference { draft.new.view.ghost_name ≡ draft.old.view.ghost_name }
{
    for i in 0..count {
        put_empty(draft, alloc, per, table, first + i, body)?;
    }
    Ok(())
}

// Puts zeros as the whole bodies of so many records from a number on, each fresh.
pub fn put_empty_records<V: View>(
    draft: &mut Draft<'_, V>,
    alloc: Global,
    per: ClusterSize,
    table: &Extents,
    first: u64,
    count: u64,
) -> Result<(), ViewFault>
    requires number { first + count < 2 ^ 48 }
    ensures touched { OnOk result (IfSome (V.content draft.old.view.now) (λ c. draft.new.touched.items ≡ with_empty_records c per table.now (zeros 1024) first count draft.old.touched.items)) }
    ensures asks { AsksView V.content V.kept V.faults fault_cause draft.old.view.now draft.new.view.now result }
    ensures reference { draft.new.view.ghost_name ≡ draft.old.view.ghost_name }
{
    let body = zero_bytes(alloc, 1024)?;
    put_all(draft, alloc, per, table, first, count, &body)
}
