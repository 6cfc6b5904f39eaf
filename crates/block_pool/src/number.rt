//! Blocks by numbers.
ghost use Rattle.std.specs.Prelude.{◌≡◌, ◌*◌, ◌^◌, ◌<◌, ◌≤◌};
ghost use Rattle.block_pool.specs.Numbers.{kind_number, block_number, kind_at, block_at, number_after};

use disk_model::{Block, BlockKind};

fn kind_number(kind: BlockKind) -> u128
    ensures value { result ≡ kind_number kind }
    ensures small { result ≤ 2 }
{
    match kind {
        BlockKind::Plain => 0,
        BlockKind::FileRec => 1,
        BlockKind::Index => 2,
    }
}

/// The number of a block, which no other block has.
pub fn block_number(block: Block) -> u128
    ensures value { result ≡ block_number block }
    ensures small { result < 3 * 2 ^ 64 }
{
    3 * u128::from(block.first) + kind_number(block.kind)
}

/// The least number behind that of a block, or of all.
pub fn number_after(after: Option<Block>) -> u128
    ensures value { result ≡ number_after after }
    ensures small { result ≤ 3 * 2 ^ 64 }
{
    match after {
        Some(block) => block_number(block) + 1,
        None => 0,
    }
}

fn kind_at(number: u128) -> BlockKind
    ensures { result ≡ kind_at number }
{
    match number {
        0 => BlockKind::Plain,
        1 => BlockKind::FileRec,
        _ => BlockKind::Index,
    }
}

/// The block of a number.
pub fn block_at(number: u128) -> Block
    requires small { number < 3 * 2 ^ 64 }
    ensures { result ≡ block_at number }
{
    Block {
        first: (number / 3) as u64,
        kind: kind_at(number % 3),
    }
}
