//! The steps that a store takes by itself behind a hundred commits, and what it tells of itself.
use block_view::ViewFault;
use disk_model::{Block, BlockKind};
use flush_policy::StoreStep::{BeginCheckpoint, SyncDevice, WriteOut, WritePage, WriteRestart};
use flush_policy::{Facts, StoreStep};
use std::alloc::{AllocError, Global};
use std::test::Fail;
use store_images::{Answer, LOG, Run, commit_byte, disk, spare, times_written};

/// The pages of the log, of which 36 are the ring's.
const PAGES: u32 = 40;

/// So many commits are made, each of a sector of its own. Three of them take 3,600 bytes of a page,
/// so that they go into 34 pages, the last of which has one.
const COMMITS: u64 = 100;

/// The first of the sectors, and the last one.
const LOW: Block = Block {
    first: 345,
    kind: BlockKind::Plain,
};

const HIGH: Block = Block {
    first: 444,
    kind: BlockKind::Plain,
};

/// The LSNs of the next commit: in the page with one, 1,264 bytes from its begin, and at the front
/// of the page behind it. An LSN of the first lap is 2^15 and an eighth of the offset in the log.
const BEHIND: u64 = 32_768 + (4096 * 37 + 1264) / 8;

const FRONT: u64 = 32_768 + (4096 * 38 + 64) / 8;

/// What is told behind the commits.
const COMMITTED: Facts = Facts {
    filling: true,
    sealed: 33,
    unsynced: false,
    ready: None,
    begun: false,
    fresh: true,
    noted_left: 0,
    pages_used: 34,
    pages: 36,
    next: BEHIND,
};

/// What is told while a checkpoint waits for the last block.
const NOTED: Facts = Facts {
    filling: false,
    sealed: 0,
    unsynced: false,
    ready: None,
    begun: true,
    fresh: false,
    noted_left: 1,
    pages_used: 34,
    pages: 36,
    next: FRONT,
};

/// What is told once all is done.
const RESTED: Facts = Facts {
    filling: false,
    sealed: 0,
    unsynced: false,
    ready: None,
    begun: false,
    fresh: false,
    noted_left: 0,
    pages_used: 0,
    pages: 36,
    next: FRONT,
};

/// So many steps of a kind one behind the other, and what is told behind them.
struct Row(StoreStep, u64, Facts);

static ROWS: [Row; 11] = [
    Row(
        WritePage,
        33,
        Facts {
            sealed: 0,
            unsynced: true,
            ..COMMITTED
        },
    ),
    Row(
        SyncDevice,
        1,
        Facts {
            sealed: 0,
            ready: Some(LOW),
            ..COMMITTED
        },
    ),
    Row(
        WriteOut(LOW),
        99,
        Facts {
            sealed: 0,
            unsynced: true,
            ..COMMITTED
        },
    ),
    Row(
        SyncDevice,
        1,
        Facts {
            sealed: 0,
            ..COMMITTED
        },
    ),
    Row(BeginCheckpoint, 1, Facts { sealed: 1, ..NOTED }),
    Row(
        WritePage,
        1,
        Facts {
            unsynced: true,
            ..NOTED
        },
    ),
    Row(
        SyncDevice,
        1,
        Facts {
            ready: Some(HIGH),
            ..NOTED
        },
    ),
    Row(
        WriteOut(HIGH),
        1,
        Facts {
            unsynced: true,
            ..NOTED
        },
    ),
    Row(
        SyncDevice,
        1,
        Facts {
            noted_left: 0,
            ..NOTED
        },
    ),
    Row(
        WriteRestart,
        1,
        Facts {
            unsynced: true,
            pages_used: 34,
            ..RESTED
        },
    ),
    Row(SyncDevice, 1, RESTED),
];

/// Whether a step is of the same kind as this one.
fn is_kind(step: StoreStep, other: StoreStep) -> bool {
    match (step, other) {
        (WriteOut(_), WriteOut(_)) => true,
        _ => step == other,
    }
}

/// Takes the next step where it is of this kind; whether it went well.
fn is_taken(run: &mut Run, kind: StoreStep) -> bool {
    match run.next() {
        Some(step) if is_kind(step, kind) => matches!(run.turn(), Some((_, Answer::Done))),
        _ => false,
    }
}

/// Takes the next steps while they are of this kind and go well, and tells how many they were.
fn taken(run: &mut Run, kind: StoreStep) -> u64 {
    for count in 0..1000 {
        if !is_taken(run, kind) {
            return count;
        }
    }
    1000
}

/// The steps of this kind that are taken, and what is told behind them.
fn behind(run: &mut Run, kind: StoreStep) -> (u64, Facts) {
    (taken(run, kind), run.facts())
}

/// What differs of a row: the steps that were taken, and what is told.
type Other = (usize, u64, Facts);

/// The first row that differs.
fn first_other(run: &mut Run) -> Option<Other> {
    for (number, Row(kind, count, told)) in ROWS.iter().enumerate() {
        let (found, facts) = behind(run, *kind);
        if found != *count || facts != *told {
            return Some((number, found, facts));
        }
    }
    None
}

/// A store with its commits; none where it isn't opened or one isn't made.
fn committed(alloc: Global) -> Result<Option<Run>, ViewFault> {
    let Some(mut run) = Run::open(alloc, PAGES, disk(alloc, &[], 0)?)? else {
        return Ok(None);
    };
    if are_committed(alloc, &mut run)? {
        Ok(Some(run))
    } else {
        Ok(None)
    }
}

/// Makes the commits; whether each went well.
fn are_committed(alloc: Global, run: &mut Run) -> Result<bool, AllocError> {
    for number in 0..COMMITS {
        if !commit_byte(alloc, run, spare(number), 512, 0x22)? {
            return Ok(false);
        }
    }
    Ok(true)
}

#[test]
fn a_store_tells_of_itself_behind_each_kind_of_step(rt: HostRuntime) -> Result<(), Fail> {
    let mut run = committed(rt.alloc())?.ok_or("no store")?;
    assert_eq!(rt; run.facts(), COMMITTED);
    assert_eq!(rt; first_other(&mut run), None);
    assert_eq!(rt; run.next(), None);
    Ok(())
}

/// What is written: from a sector on, so many writes, each of so many sectors. They are the restart
/// page of the store's opening, the one that ends the checkpoint, each page of the log, and each
/// sector that was committed.
static WRITTEN: [(u64, u64, u64); 4] = [
    (LOG, 8, 1),
    (LOG + 8, 8, 1),
    (LOG + 32, 8, 34),
    (345, 1, 100),
];

/// How many writes begin at these sectors, where at each of them exactly one does; else the first
/// sector at which that isn't so.
fn written_once(run: &Run) -> Result<u64, u64> {
    let mut writes = 0u64;
    for (first, sectors, count) in &WRITTEN {
        for number in 0..*count {
            let sector = first.saturating_add(number.saturating_mul(*sectors));
            if times_written(run.memory(), sector) != 1 {
                return Err(sector);
            }
            writes = writes.saturating_add(1);
        }
    }
    Ok(writes)
}

#[test]
fn each_page_and_each_block_is_written_once(rt: HostRuntime) -> Result<(), Fail> {
    let mut run = committed(rt.alloc())?.ok_or("no store")?;
    assert_eq!(rt; first_other(&mut run), None);
    assert_eq!(rt; written_once(&run), Ok(136));
    assert_eq!(rt; (run.memory().writes, run.memory().syncs), (136, 6));
    Ok(())
}
