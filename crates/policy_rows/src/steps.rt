//! The next step by what a store tells: each condition alone, and beside those that come later.

use disk_model::{Block, BlockKind};
use flush_policy::{Facts, StoreStep, next_step};
use std::test::Fail;

// A block that is ready in some rows.
const SECTOR: Block = Block {
    first: 4800,
    kind: BlockKind::Plain,
};

// What is told with yes.
#[derive(Clone, Copy, PartialEq, Eq)]
enum Told {
    Filling,
    Unsynced,
    Ready,
    Begun,
    Fresh,
}

use Told::{Begun, Filling, Fresh, Ready, Unsynced};

// What is told with yes; the sealed pages, the noted blocks that are left, the used pages and those
// of the ring; and the step.
struct Row(&'static [Told], [u64; 4], Option<StoreStep>);

const WRITES_OUT: Option<StoreStep> = Some(StoreStep::WriteOut(SECTOR));

static ROWS: [Row; 20] = [
    // All that can be left to do at once, and less each time.
    Row(
        &[Filling, Unsynced, Ready, Begun, Fresh],
        [3, 2, 90, 124],
        Some(StoreStep::WritePage),
    ),
    Row(
        &[Filling, Unsynced, Ready, Begun, Fresh],
        [0, 2, 90, 124],
        WRITES_OUT,
    ),
    Row(
        &[Filling, Unsynced, Begun, Fresh],
        [0, 2, 90, 124],
        Some(StoreStep::SyncDevice),
    ),
    Row(
        &[Filling, Begun, Fresh],
        [0, 2, 90, 124],
        Some(StoreStep::SealPage),
    ),
    Row(
        &[Filling, Begun, Fresh],
        [0, 0, 90, 124],
        Some(StoreStep::WriteRestart),
    ),
    Row(
        &[Filling, Fresh],
        [0, 0, 90, 124],
        Some(StoreStep::BeginCheckpoint),
    ),
    Row(&[Filling], [0, 0, 90, 124], Some(StoreStep::SealPage)),
    Row(&[], [0, 0, 90, 124], None),
    // Each thing alone.
    Row(&[], [1, 0, 0, 124], Some(StoreStep::WritePage)),
    Row(&[Ready], [0, 0, 0, 124], WRITES_OUT),
    Row(&[Unsynced], [0, 0, 0, 124], Some(StoreStep::SyncDevice)),
    Row(&[Begun], [0, 0, 0, 124], Some(StoreStep::WriteRestart)),
    Row(&[Begun], [0, 1, 0, 124], None),
    Row(&[Begun, Fresh], [0, 1, 90, 124], None),
    Row(&[Filling], [0, 0, 1, 124], Some(StoreStep::SealPage)),
    Row(&[Fresh], [0, 0, 1, 124], Some(StoreStep::BeginCheckpoint)),
    // Half of the ring: 61 of 124 pages, 62, and all that a number can say.
    Row(
        &[Filling, Fresh],
        [0, 0, 61, 124],
        Some(StoreStep::SealPage),
    ),
    Row(
        &[Filling, Fresh],
        [0, 0, 62, 124],
        Some(StoreStep::BeginCheckpoint),
    ),
    Row(
        &[Filling, Fresh],
        [0, 0, u64::MAX, 124],
        Some(StoreStep::BeginCheckpoint),
    ),
    Row(
        &[Filling, Fresh],
        [0, 0, 62, u64::MAX],
        Some(StoreStep::SealPage),
    ),
];

fn facts_of(row: &Row) -> Facts {
    let [sealed, noted_left, pages_used, pages] = row.1;
    Facts {
        filling: row.0.contains(&Filling),
        sealed,
        unsynced: row.0.contains(&Unsynced),
        ready: if row.0.contains(&Ready) {
            Some(SECTOR)
        } else {
            None
        },
        begun: row.0.contains(&Begun),
        fresh: row.0.contains(&Fresh),
        noted_left,
        pages_used,
        pages,
        next: 0x8088,
    }
}

#[test]
fn steps_of_a_table(rt: HostRuntime) -> Result<(), Fail> {
    for row in &ROWS {
        let facts = facts_of(row);
        assert_eq!(rt; next_step(&facts), row.2, "{facts:?}");
    }
    Ok(())
}
