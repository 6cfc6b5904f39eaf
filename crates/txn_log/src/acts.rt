//! The updates that a change logs.
ghost use Rattle.std.specs.Prelude.{◌≡◌, ◌+◌, ◌*◌, ◌≤◌, IfOk, length, map};
ghost use Rattle.store_pools.specs.disk_model.Bytes.{part, written};
ghost use Rattle.store_pools.specs.disk_model.Sectors.{sectors};
ghost use Rattle.store_pools.specs.block_pool.Numbers.{kind_number};
ghost use Rattle.store_pools.specs.txn_model.Pieces.{pieces, update_of_piece, logged_acts};

use host_base::Bytes;
use std::alloc::{AllocError, Global};
use store_pools::{Act, Block, BlockKind, put_bytes};

/// The most bytes of one update.
pub const MOST: usize = 1900;

/// So many pieces have all bytes of any block.
pub const PIECES: usize = 3;

fn kind_number(kind: BlockKind) -> u16
    ensures { result ≡ kind_number kind }
{
    match kind {
        BlockKind::Plain => 0,
        BlockKind::FileRec => 1,
        BlockKind::Index => 2,
    }
}

// So many bytes from this one on.
fn part_of(alloc: Global, bytes: &[u8], at: usize, count: usize) -> Result<Bytes, AllocError>
    requires { at + count ≤ length bytes.now }
    ensures { IfOk result (λ b. b ≡ part at count bytes.now) }
{
    Bytes::copy_of(alloc, &bytes[at..at + count])
}

// The update of a piece of a body.
fn piece_act(
    alloc: Global,
    block: Block,
    before: &[u8],
    after: &[u8],
    at: usize,
    count: usize,
) -> Result<Act, AllocError>
    requires before { at + count ≤ length before.now }
    requires after { at + count ≤ length after.now }
    requires small { length after.now ≤ 4096 }
    ensures { IfOk result (λ act. act ≡ update_of_piece block before.now after.now (record { at = at; count = count })) }
{
    Ok(Act::Update {
        first: block.first,
        kind: kind_number(block.kind),
        at: at as u16,
        redo: part_of(alloc, after, at, count)?,
        undo: part_of(alloc, before, at, count)?,
    })
}

// The updates of the pieces of so many bytes.
fn cut_acts(
    alloc: Global,
    block: Block,
    before: &[u8],
    after: &[u8],
    at: usize,
    len: usize,
) -> Result<Vec<Act>, AllocError>
    requires before { at + len ≤ length before.now }
    requires after { at + len ≤ length after.now }
    requires small { length after.now ≤ 4096 }
    ensures { IfOk result (λ acts. acts.items ≡ map (update_of_piece block before.now after.now) (pieces at len)) }
{
    let mut acts = Vec::new(alloc);
    let mut from = at;
    let mut left = len;
    'pieces: for _ in 0..PIECES {
        if left > 0 {
            let count = MOST.min(left);
            acts.push(piece_act(alloc, block, before, after, from, count)?)?;
            from += count;
            left -= count;
        }
    }
    Ok(acts)
}

/// The updates that a change logs, of the bytes `new` from the byte `at` on of a block whose body
/// is `present`, and was `before` when the transaction began. They have the whole body, unless it is
/// `imaged`, that is to say stands in the log already.
///
/// The error is want of memory. Time and memory are linear in the body.
pub fn update_acts(
    alloc: Global,
    imaged: bool,
    block: Block,
    at: usize,
    new: &[u8],
    before: &[u8],
    present: &[u8],
) -> Result<Vec<Act>, AllocError>
    requires before { length before.now ≡ 512 * sectors block.kind }
    requires present { length present.now ≡ 512 * sectors block.kind }
    requires inside { at + length new.now ≤ length present.now }
    ensures { IfOk result (λ acts. acts.items ≡ logged_acts imaged block at new.now before.now present.now) }
{
    let mut after = Vec::from_slice(alloc, present)?;
    put_bytes(&mut after, at, new);
    if imaged {
        cut_acts(alloc, block, before, &after, at, new.len())
    } else {
        cut_acts(alloc, block, before, &after, 0, 512 * block.kind.sectors())
    }
}
