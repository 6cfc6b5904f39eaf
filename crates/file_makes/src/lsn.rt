//! The LSN that a record's block had.
ghost use Rattle.std.specs.Prelude.{◌≡◌, ◌<◌, ◌^◌, IfOk, IfSome, length};
ghost use Rattle.block_view.specs.Views.{AsksView};
ghost use Rattle.plan_draft.specs.Drafts.{drafted};
ghost use Rattle.plan_draft.specs.Faults.{fault_cause};
ghost use Rattle.draft_numbers.specs.Numbers.{number_bytes};
ghost use Rattle.file_makes.specs.Making.{kept_lsn};

use block_view::{View, ViewFault};
use disk_model::{Block, BlockKind, Body, u64_at};
use draft_numbers::is_past;
use plan_draft::Draft;
use state_model::{ClusterSize, Extents};
use std::alloc::Global;
use stream_map::block_at;

// The LSN of a record with these bytes.
#[tactic(auto, unfolding(crate::specs::Making::kept_lsn))]
fn lsn_of(body: &[u8]) -> u64
    requires { length body.now ≡ 1024 }
    ensures { result ≡ kept_lsn body.now }
{
    if body.starts_with(b"FILE") {
        u64_at(body, 8)
    } else {
        0
    }
}

// The same of a record that the draft has in this block.
fn lsn_in<V: View>(draft: &mut Draft<'_, V>, alloc: Global, block: Block) -> Result<u64, ViewFault>
    requires { block.kind ≡ BlockKind.FileRec }
    ensures lsn { IfSome (V.content draft.old.view.now) (λ c. IfOk result (λ lsn. lsn ≡ kept_lsn (drafted draft.old.touched.items c block).bytes)) }
    ensures touched { draft.new.touched.items ≡ draft.old.touched.items }
    ensures asks { AsksView V.content V.kept V.faults fault_cause draft.old.view.now draft.new.view.now result }
    ensures reference { draft.new.view.ghost_name ≡ draft.old.view.ghost_name }
{
    let mut body = Body::empty(alloc)?;
    draft.body(block, &mut body)?;
    Ok(lsn_of(body.bytes()))
}

/// The LSN that the block of a record has, in the draft, where its bytes begin `FILE`, else 0.
pub fn lsn_at<V: View>(
    draft: &mut Draft<'_, V>,
    alloc: Global,
    per: ClusterSize,
    table: &Extents,
    number: u64,
) -> Result<u64, ViewFault>
    requires number { number < 2 ^ 48 }
    ensures lsn { IfSome (V.content draft.old.view.now) (λ c. IfOk result (λ lsn. lsn ≡ kept_lsn (number_bytes (drafted draft.old.touched.items c) per table.now number))) }
    ensures touched { draft.new.touched.items ≡ draft.old.touched.items }
    ensures asks { AsksView V.content V.kept V.faults fault_cause draft.old.view.now draft.new.view.now result }
    ensures reference { draft.new.view.ghost_name ≡ draft.old.view.ghost_name }
{
    if is_past(table, number) {
        return Ok(0);
    }
    match block_at(per, table.runs.as_slice(), BlockKind::FileRec, number) {
        None => Ok(0),
        Some(block) => lsn_in(draft, alloc, block),
    }
}
