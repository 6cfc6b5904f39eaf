//! The pages that changes will take.
ghost use Rattle.std.specs.Prelude.{◌≡◌, ◌+◌, ◌≤◌, ◌*◌, ◌++◌, ℕ, true, false, All, IfOk, OnOk, List, Some, cond, if◌then◌else◌, length, map};
ghost use Rattle.std.specs.List.{list_any};
ghost use Rattle.store_pools.specs.disk_model.declared.block.Block.{Block as BlockOf};
ghost use Rattle.store_pools.specs.disk_model.Bytes.{up8};
ghost use Rattle.store_pools.specs.disk_model.Sectors.{same_block};
ghost use Rattle.store_pools.specs.log_model.Logs.{is_in_grid};
ghost use Rattle.store_pools.specs.block_pool.Pools.{held};
ghost use Rattle.store_pools.specs.Pools.{marks_of};
ghost use Rattle.store_pools.specs.txn_model.Calls.{rivals_of};
ghost use Rattle.store_pools.specs.txn_model.Pieces.{pieces};
ghost use Rattle.txn_log.specs.Counts.{begins_page, free_after, piece_size, change_sizes, pages_needed, capped};
ghost use Rattle.txn_log.specs.Counting.{counted, imaged_in};

use crate::acts::{MOST, PIECES};
use crate::rivals::{rival, rival_count};
use std::alloc::{AllocError, Global};
use store_pools::{Block, Change, LogArea, Mark, Pool};

// How far pages are filled: the offset of the first free byte of the last one, and how many were
// begun.
#[derive(Clone, Copy, Drop)]
struct Filled {
    free: usize,
    pages: u64,
}

// With an entry of so many bytes.
fn put(filled: Filled, bytes: usize) -> Filled
    requires full { filled.free ≤ 4096 }
    requires bytes { bytes ≤ 4032 }
    ensures free { result.free ≡ free_after filled.free bytes }
    ensures below { result.free ≤ 4096 }
    ensures pages { result.pages ≡ capped (filled.pages + (if begins_page filled.free bytes then 1 else 0)) }
{
    let fits = filled.free + bytes <= 4096;
    let front = if fits { filled.free } else { 0x40 };
    let begins = !(filled.free > 0x40 && fits);
    Filled {
        free: front + bytes,
        pages: filled.pages.saturating_add(u64::from(begins)),
    }
}

// The bytes of an update whose redo has so many.
fn update_size(count: usize) -> usize
    requires { count ≤ MOST }
    ensures value { result ≡ 0x58 + 2 * up8 count }
    ensures small { result ≤ 4032 }
{
    0x58 + 2 * (8 * ((count + 7) / 8))
}

// With the updates of the pieces of so many bytes.
fn put_pieces(filled: Filled, len: usize) -> Filled
    requires { filled.free ≤ 4096 }
    ensures below { result.free ≤ 4096 }
    ensures counted { (at : ℕ) (sizes : List ℕ) → counted result.pages result.free sizes ≡ counted filled.pages filled.free (map piece_size (pieces at len) ++ sizes) }
{
    let mut filled = filled;
    let mut left = len;
    'pieces: for _ in 0..PIECES {
        if left > 0 {
            let count = MOST.min(left);
            filled = put(filled, update_size(count));
            left -= count;
        }
    }
    filled
}

// With the updates of a change, whose block stands whole in the log or not.
fn put_change(filled: Filled, imaged: bool, change: &Change) -> Filled
    requires { filled.free ≤ 4096 }
    ensures below { result.free ≤ 4096 }
    ensures counted { (sizes : List ℕ) → counted result.pages result.free sizes ≡ counted filled.pages filled.free (change_sizes imaged change.now ++ sizes) }
{
    if imaged {
        put_pieces(filled, change.new.len())
    } else {
        put_pieces(filled, 512 * change.block.kind.sectors())
    }
}

// Whether the block stands whole in the log, where it is told of these blocks since the marks.
fn is_imaged(told: &Pool<bool>, marks: &Pool<Mark>, block: Block) -> bool
    ensures { result ≡ imaged_in told.now marks.now block }
{
    match told.get(block) {
        Some(imaged) => *imaged,
        None => match marks.get(block) {
            Some(mark) => mark.imaged,
            None => false,
        },
    }
}

// The rivals of a block don't stand whole in the log.
fn tell_rivals(told: &mut Pool<bool>, block: Block) -> Result<(), AllocError>
    requires { is_in_grid block ≡ true }
    ensures { OnOk result ((b : BlockOf) → held told.new b ≡ cond (list_any (same_block b) (rivals_of block)) (Some false) (held told.old b)) }
{
    for k in 0..rival_count(block) {
        told.put(rival(block, k), false)?;
    }
    Ok(())
}

// A change of the block is logged.
fn tell_change(told: &mut Pool<bool>, block: Block) -> Result<(), AllocError>
    requires { is_in_grid block ≡ true }
    ensures { OnOk result ((b : BlockOf) → held told.new b ≡ cond (same_block b block) (Some true) (cond (list_any (same_block b) (rivals_of block)) (Some false) (held told.old b))) }
{
    tell_rivals(told, block)?;
    told.put(block, true)
}

/// The pages of the ring that are begun when these changes are logged in order, and then a commit:
/// a block that doesn't stand whole in the log by the marks and the changes before is logged whole.
/// A change of no bytes counts for nothing. More than 2^64 - 1 are said as that.
///
/// The error is want of memory. Time and memory are near-linear in the changes.
pub fn pages_for(
    alloc: Global,
    area: &LogArea,
    marks: &Pool<Mark>,
    changes: &[Change],
) -> Result<u64, AllocError>
    requires grid { All (λ c. is_in_grid c.block ≡ true) changes.now }
    ensures { IfOk result (λ pages. pages ≡ capped (pages_needed area.now.free (λ b. (marks_of marks.now b).imaged) changes.now)) }
{
    let mut told = Pool::new(alloc);
    let mut filled = Filled {
        free: area.free_at(),
        pages: 0,
    };
    for change in changes {
        if !change.new.is_empty() {
            let imaged = is_imaged(&told, marks, change.block);
            filled = put_change(filled, imaged, change);
            tell_change(&mut told, change.block)?;
        }
    }
    Ok(put(filled, 0x58).pages)
}
