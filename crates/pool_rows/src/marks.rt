//! Marks of blocks, and bodies that are kept.
use block_pool::Pool;
use disk_model::{Block, BlockKind};
use host_base::Bytes;
use std::alloc::{AllocError, Global};
use std::test::Fail;
use store_pools::{KeptBody, Mark, changed, ousted, settle};

const CLEAN: Mark = Mark {
    dirty: false,
    dead: false,
    wet: false,
    owed: false,
    due: false,
    imaged: false,
    until: 0,
    commit: 0,
    killed: 0,
};

const DIRTY: Mark = Mark {
    dirty: true,
    imaged: true,
    until: 3,
    commit: 2,
    ..CLEAN
};

const DEAD: Mark = Mark {
    dead: true,
    owed: true,
    until: 3,
    killed: 5,
    ..CLEAN
};

/// A mark; what it is once the block, and once a rival of it, was changed by entries on pages before
/// the seventh.
struct Change(Mark, Mark, Mark);

static CHANGES: [Change; 3] = [
    Change(
        CLEAN,
        Mark {
            dirty: true,
            imaged: true,
            until: 7,
            ..CLEAN
        },
        CLEAN,
    ),
    Change(
        DIRTY,
        Mark { until: 7, ..DIRTY },
        Mark {
            dirty: false,
            dead: true,
            imaged: false,
            killed: 7,
            ..DIRTY
        },
    ),
    Change(
        DEAD,
        Mark {
            dirty: true,
            dead: false,
            imaged: true,
            until: 7,
            ..DEAD
        },
        DEAD,
    ),
];

#[test]
fn a_change_marks_its_block_and_its_rivals(rt: HostRuntime) -> Result<(), Fail> {
    for (number, Change(before, own, rival)) in CHANGES.iter().enumerate() {
        let found = (changed(*before, 7), ousted(*before, 7));
        assert_eq!(rt; found, (*own, *rival), "row {number}");
    }
    Ok(())
}

/// A mark, how many pages are durable by a sync, the mark after it, and whether the body stays.
struct Sync(Mark, u64, Mark, bool);

static SYNCS: [Sync; 4] = [
    Sync(
        Mark {
            wet: true,
            due: true,
            ..DIRTY
        },
        9,
        DIRTY,
        true,
    ),
    Sync(DEAD, 4, DEAD, true),
    Sync(
        DEAD,
        5,
        Mark {
            dead: false,
            owed: false,
            ..DEAD
        },
        false,
    ),
    Sync(
        Mark {
            dirty: true,
            dead: false,
            ..DEAD
        },
        5,
        Mark {
            dirty: true,
            dead: false,
            ..DEAD
        },
        true,
    ),
];

const BLOCK: Block = Block {
    first: 4,
    kind: BlockKind::FileRec,
};

/// The mark of a block with a body after a sync, and whether its body stays.
fn synced(alloc: Global, mark: Mark, pages: u64) -> Result<(Option<Mark>, bool), AllocError> {
    let mut bodies = Pool::new(alloc);
    let mut marks = Pool::new(alloc);
    let body = KeptBody {
        bytes: Bytes::new(alloc),
        torn: false,
    };
    bodies.put(BLOCK, body)?;
    marks.put(BLOCK, mark)?;
    settle(&mut bodies, &mut marks, pages);
    Ok((marks.get(BLOCK).copied(), bodies.get(BLOCK).is_some()))
}

#[test]
fn a_sync_settles_marks_and_drops_dead_bodies(rt: HostRuntime) -> Result<(), Fail> {
    for (number, Sync(before, pages, after, stays)) in SYNCS.iter().enumerate() {
        let found = synced(rt.alloc(), *before, *pages)?;
        assert_eq!(rt; found, (Some(*after), *stays), "row {number}");
    }
    Ok(())
}
