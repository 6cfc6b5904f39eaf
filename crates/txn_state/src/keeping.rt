//! Bodies that a change keeps.
ghost use Rattle.std.specs.Prelude.{◌≡◌, ◌+◌, ◌≤◌, true, false, None, IfOk, OnOk, OnErr, IsSome, length, unwrap_or};
ghost use Rattle.txn_log.specs.disk_model.Bytes.{written};
ghost use Rattle.txn_log.specs.block_pool.Pools.{held};
ghost use Rattle.txn_log.specs.store_pools.Pools.{body_of_kept, bodies_of, marks_of};
ghost use Rattle.txn_log.specs.txn_model.Values.{put_at};

use crate::marks::mark_block;
use host_base::Bytes;
use std::alloc::{AllocError, Global};
use txn_log::{Block, KeptBody, Mark, Pool, put_bytes};

/// The body with these bytes over its own from `at` on. The error is want of memory.
pub fn changed_body(
    alloc: Global,
    present: &KeptBody,
    at: usize,
    new: &[u8],
) -> Result<KeptBody, AllocError>
    requires { at + length new.now ≤ length present.now.bytes }
    ensures { IfOk result (λ x. x ≡ record { bytes = written at new.now present.now.bytes; torn = false }) }
{
    let mut bytes = Vec::from_slice(alloc, present.bytes.as_slice())?;
    put_bytes(&mut bytes, at, new);
    Ok(KeptBody {
        bytes: Bytes::from(bytes),
        torn: false,
    })
}

// Keeps this body of a block unless one is kept, and answers whether it does. The error is want of
// memory; then nothing changes.
fn keep_first(
    before: &mut Pool<KeptBody>,
    block: Block,
    present: KeptBody,
) -> Result<bool, AllocError>
    ensures kept { OnOk result (bodies_of before.new ≡ put_at block (unwrap_or (bodies_of before.old block) (body_of_kept present)) (bodies_of before.old)) }
    ensures first { IfOk result (λ first. first ≡ true → held before.old block ≡ None) }
    ensures again { IfOk result (λ first. first ≡ false → before.new ≡ before.old) }
    ensures err { OnErr result (before.new ≡ before.old) }
{
    match before.get(block) {
        Some(_) => Ok(false),
        None => {
            before.put(block, present)?;
            Ok(true)
        }
    }
}

/// Keeps what a change makes of a block, `changed`, and what it was before the transaction, which
/// is `present` where that didn't change it yet; and sees to it that the block has a mark. The
/// error is want of memory; then the same bodies are kept as before, and the same is marked.
pub fn keep(
    bodies: &mut Pool<KeptBody>,
    before: &mut Pool<KeptBody>,
    marks: &mut Pool<Mark>,
    block: Block,
    present: KeptBody,
    changed: KeptBody,
) -> Result<(), AllocError>
    ensures bodies { OnOk result (bodies_of bodies.new ≡ put_at block (body_of_kept changed) (bodies_of bodies.old)) }
    ensures before { OnOk result (bodies_of before.new ≡ put_at block (unwrap_or (bodies_of before.old block) (body_of_kept present)) (bodies_of before.old)) }
    ensures marks { marks_of marks.new ≡ marks_of marks.old }
    ensures some { OnOk result (IsSome (held marks.new block)) }
    ensures same { OnErr result (bodies_of bodies.new ≡ bodies_of bodies.old) }
    ensures same_before { OnErr result (bodies_of before.new ≡ bodies_of before.old) }
{
    mark_block(marks, block)?;
    let first = keep_first(before, block, present)?;
    match bodies.put(block, changed) {
        Ok(()) => Ok(()),
        Err(fault) => {
            if first {
                before.take(block);
            }
            Err(fault)
        }
    }
}
