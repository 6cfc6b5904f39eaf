//! The rivals of a block.
ghost use Rattle.std.specs.Prelude.{◌≡◌, ◌<◌, ◌+◌, ◌/◌, ◌%◌, ◌^◌, true, ◌∷◌, [], ◌++◌, get_or, length, map};
ghost use Rattle.std.specs.List.{range_with_len};
ghost use Rattle.store_pools.specs.disk_model.declared.block.Block.{Block as BlockOf};
ghost use Rattle.store_pools.specs.log_model.Logs.{is_in_grid};
ghost use Rattle.store_pools.specs.txn_model.Calls.{plain_at, record_at, index_at, rivals_of};

use store_pools::{Block, BlockKind};

fn plain_at(first: u64) -> Block
    ensures { result ≡ plain_at first }
{
    Block {
        first,
        kind: BlockKind::Plain,
    }
}

fn record_at(n: u64) -> Block
    requires { n < 2 ^ 63 }
    ensures { result ≡ record_at n }
{
    Block {
        first: 2 * n,
        kind: BlockKind::FileRec,
    }
}

fn index_at(n: u64) -> Block
    requires { n < 2 ^ 61 }
    ensures { result ≡ index_at n }
{
    Block {
        first: 8 * n,
        kind: BlockKind::Index,
    }
}

fn rival_of_plain(first: u64, k: u64) -> Block
    requires { k < 2 }
    ensures { (d : BlockOf) → result ≡ get_or (record_at (first / 2) ∷ index_at (first / 8) ∷ []) k d }
{
    if k == 0 {
        record_at(first / 2)
    } else {
        index_at(first / 8)
    }
}

fn rival_of_record(first: u64, k: u64) -> Block
    requires inside { k < 3 }
    requires grid { first % 2 ≡ 0 }
    ensures value { (d : BlockOf) → result ≡ get_or (plain_at first ∷ plain_at (first + 1) ∷ index_at (first / 8) ∷ []) k d }
{
    if k < 2 {
        plain_at(first + k)
    } else {
        index_at(first / 8)
    }
}

fn rival_of_index(first: u64, k: u64) -> Block
    requires inside { k < 12 }
    requires grid { first % 8 ≡ 0 }
    ensures value { (d : BlockOf) → result ≡ get_or (map plain_at (range_with_len first 8) ++ map record_at (range_with_len (first / 2) 4)) k d }
{
    if k < 8 {
        plain_at(first + k)
    } else {
        record_at(first / 2 + (k - 8))
    }
}

/// How many rivals a block has that begin where their kind may.
pub fn rival_count(block: Block) -> u64
    ensures { result ≡ length (rivals_of block) }
{
    match block.kind {
        BlockKind::Plain => 2,
        BlockKind::FileRec => 3,
        BlockKind::Index => 12,
    }
}

/// One of them.
pub fn rival(block: Block, k: u64) -> Block
    requires inside { k < length (rivals_of block) }
    requires grid { is_in_grid block ≡ true }
    ensures { (d : BlockOf) → result ≡ get_or (rivals_of block) k d }
{
    match block.kind {
        BlockKind::Plain => rival_of_plain(block.first, k),
        BlockKind::FileRec => rival_of_record(block.first, k),
        BlockKind::Index => rival_of_index(block.first, k),
    }
}
