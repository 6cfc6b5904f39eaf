//! Values by block.
use block_pool::Pool;
use disk_model::{Block, BlockKind};
use std::test::Fail;

/// What is done with the value of a block.
enum Step {
    Get,
    Put(u32),
    Replace(u32),
    Take,
}

use BlockKind::{FileRec, Index, Plain};
use Step::{Get, Put, Replace, Take};

/// A step, its block, and the value that the block had.
struct Row(Step, u64, BlockKind, Option<u32>);

static STEPS: [Row; 12] = [
    Row(Get, 8, Plain, None),
    Row(Put(1), 8, Plain, None),
    Row(Put(2), 8, Index, None),
    Row(Put(3), 8, FileRec, None),
    Row(Put(4), 6, FileRec, None),
    Row(Put(5), 0xffff_ffff_ffff_ffff, Index, None),
    Row(Get, 8, FileRec, Some(3)),
    Row(Replace(6), 8, Plain, Some(1)),
    Row(Put(7), 6, FileRec, Some(4)),
    Row(Take, 8, Index, Some(2)),
    Row(Take, 8, Index, None),
    Row(Get, 7, FileRec, None),
];

/// Does a step; the value that the block had before, or a number of no row for want of memory.
fn done(pool: &mut Pool<u32>, step: &Step, block: Block) -> Option<u32> {
    let before = pool.get(block).copied();
    match step {
        Get => before,
        Put(value) => match pool.put(block, *value) {
            Ok(()) => before,
            Err(_) => Some(99),
        },
        Replace(value) => match before {
            Some(_) => pool.replace(block, *value),
            None => None,
        },
        Take => pool.take(block),
    }
}

/// What is left, from the first block on.
static LEFT: [(u64, BlockKind, u32); 4] = [
    (6, FileRec, 7),
    (8, Plain, 6),
    (8, FileRec, 3),
    (0xffff_ffff_ffff_ffff, Index, 5),
];

#[test]
fn values_are_put_found_and_taken(rt: HostRuntime) -> Result<(), Fail> {
    let mut pool = Pool::new(rt.alloc());
    for (number, Row(step, first, kind, before)) in STEPS.iter().enumerate() {
        let block = Block {
            first: *first,
            kind: *kind,
        };
        let found = done(&mut pool, step, block);
        assert_eq!(rt; found, *before, "row {number}");
    }
    for (first, kind, value) in &LEFT {
        let block = Block {
            first: *first,
            kind: *kind,
        };
        assert_eq!(rt; pool.pop(), Some((block, *value)));
    }
    assert_eq!(rt; pool.pop(), None);
    Ok(())
}
