//! Blocks of an index that come to be initialised.
ghost use Rattle.std.specs.Prelude.{◌≡◌, ◌+◌, ◌<◌, ◌^◌, IfOk, IfSome, OnOk, length};
ghost use Rattle.disk_model.specs.Bytes.{zeros};
ghost use Rattle.block_view.specs.Views.{AsksView};
ghost use Rattle.plan_draft.specs.Faults.{fault_cause};
ghost use Rattle.draft_indexes.specs.Growing.{with_block, with_blocks};

use block_view::{View, ViewFault};
use disk_model::BlockKind;
use plan_draft::Draft;
use state_model::{ClusterSize, Extents};
use std::alloc::{AllocError, Global};
use stream_map::block_at;

// So many zeros, as in the body of a block that holds no node.
#[tactic(auto, unfolding(disk_model::specs::Bytes::zeros))]
fn zero_bytes(alloc: Global, count: usize) -> Result<Vec<u8>, AllocError>
    ensures value { IfOk result (λ bytes. bytes.items ≡ zeros count) }
    ensures count { IfOk result (λ bytes. length bytes.items ≡ count) }
{
    vec![in alloc; 0u8; count]
}

// Puts this body into the index block with this number, if it has one; the block is fresh.
pub fn put_block<V: View>(
    draft: &mut Draft<'_, V>,
    alloc: Global,
    per: ClusterSize,
    index: &Extents,
    number: u64,
    body: &[u8],
) -> Result<(), ViewFault>
    requires number { number < 2 ^ 48 }
    requires size { length body.now ≡ 4096 }
    ensures touched { OnOk result (IfSome (V.content draft.old.view.now) (λ c. draft.new.touched.items ≡ with_block c per index.now body.now number draft.old.touched.items)) }
    ensures asks { AsksView V.content V.kept V.faults fault_cause draft.old.view.now draft.new.view.now result }
    ensures reference { draft.new.view.ghost_name ≡ draft.old.view.ghost_name }
{
    match block_at(per, index.runs.as_slice(), BlockKind::Index, number) {
        None => Ok(()),
        Some(block) => draft.put(alloc, block, true, body),
    }
}

// Puts this body into so many blocks.
fn put_all<V: View>(
    draft: &mut Draft<'_, V>,
    alloc: Global,
    per: ClusterSize,
    index: &Extents,
    first: u64,
    count: u64,
    body: &[u8],
) -> Result<(), ViewFault>
    requires number { first + count < 2 ^ 48 }
    requires size { length body.now ≡ 4096 }
    ensures touched { OnOk result (IfSome (V.content draft.old.view.now) (λ c. draft.new.touched.items ≡ with_blocks c per index.now body.now first count draft.old.touched.items)) }
    ensures asks { AsksView V.content V.kept V.faults fault_cause draft.old.view.now draft.new.view.now result }
    ensures reference { draft.new.view.ghost_name ≡ draft.old.view.ghost_name }
{
    for i in 0..count {
        put_block(draft, alloc, per, index, first + i, body)?;
    }
    Ok(())
}

// Puts zeros as the whole bodies of so many blocks from a number on, each fresh.
pub fn put_empty_blocks<V: View>(
    draft: &mut Draft<'_, V>,
    alloc: Global,
    per: ClusterSize,
    index: &Extents,
    first: u64,
    count: u64,
) -> Result<(), ViewFault>
    requires number { first + count < 2 ^ 48 }
    ensures touched { OnOk result (IfSome (V.content draft.old.view.now) (λ c. draft.new.touched.items ≡ with_blocks c per index.now (zeros 4096) first count draft.old.touched.items)) }
    ensures asks { AsksView V.content V.kept V.faults fault_cause draft.old.view.now draft.new.view.now result }
    ensures reference { draft.new.view.ghost_name ≡ draft.old.view.ghost_name }
{
    let body = zero_bytes(alloc, 4096)?;
    put_all(draft, alloc, per, index, first, count, &body)
}
