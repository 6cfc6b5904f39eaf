//! Restart pages that are written in part and sent again, and syncs before them that fail.
use flush_policy::StoreStep::{SyncDevice, WriteOut, WritePage, WriteRestart};
use log_recovery::RecoveryFault;
use std::alloc::{AllocError, Global};
use std::test::Fail;
use store_images::Answer::{Barred, Done, Fault};
use store_images::Step::{Begin, Change, Checkpoint, Commit, Next, Rest};
use store_images::{
    Answer, LOG, Row, Run, S0, Sight, Step, Watch, bytes_at, disk, first_wrong, make, restarts_left,
};

/// The pages of the log.
const PAGES: u32 = 16;

/// So many images are tried by a seed.
const IMAGES: u64 = 8;

const CHANGE: Step = Change(S0, 0, 512, 0x22);

/// Down to a restart page whose write fails.
static STEPS: [(Step, Answer); 9] = [
    (Begin, Done),
    (CHANGE, Done),
    (Commit, Done),
    (Checkpoint, Done),
    (Next(WritePage), Done),
    (Next(SyncDevice), Done),
    (Next(WriteOut(S0)), Done),
    (Next(SyncDevice), Done),
    (Next(WriteRestart), Fault),
];

/// The number of the call that writes it: the opening makes three, the change reads its sector, a
/// page takes a read and a write, a sector a write, a restart page a read before its write, and
/// there are two syncs.
const FAILING: u64 = 11;

/// Makes a step; whether it is answered so.
fn is_answered(
    alloc: Global,
    run: &mut Run,
    step: Step,
    answer: Answer,
) -> Result<bool, AllocError> {
    Ok(make(alloc, run, step)? == answer)
}

/// Makes the steps; whether each is answered so.
fn are_made(alloc: Global, run: &mut Run) -> Result<bool, AllocError> {
    for (step, answer) in &STEPS {
        if !is_answered(alloc, run, *step, *answer)? {
            return Ok(false);
        }
    }
    Ok(true)
}

/// The bytes of the second restart page as they stand.
fn page(alloc: Global, run: &Run) -> Result<Vec<u8>, AllocError> {
    bytes_at(alloc, run.memory(), LOG as usize + 8, 8)
}

/// Of how many of its sectors, from the first one on, these bytes are the same.
fn same_sectors(one: &[u8], other: &[u8]) -> usize {
    let mut same = 0usize;
    for (left, right) in one.iter().zip(other.iter()) {
        if left != right {
            return same / 512;
        }
        same = same.saturating_add(1);
    }
    same / 512
}

/// What is seen of a restart page that is sent twice: of how many sectors what stands behind the
/// failure is what stands at last; and whether some images name the first, and some the second
/// place as the next one's behind the failure, behind the second write, and behind the sync.
#[derive(Clone, Copy, Debug, PartialEq, Eq)]
struct Outcome {
    same: usize,
    torn: (bool, bool),
    sent: (bool, bool),
    synced: (bool, bool),
}

/// Sends it again, and tells of how many sectors these bytes are what stands then; none where that
/// isn't answered as it is to be.
fn sent_again(alloc: Global, run: &mut Run, before: &[u8]) -> Result<Option<usize>, AllocError> {
    if make(alloc, run, Next(WriteRestart))? != Done {
        return Ok(None);
    }
    Ok(Some(same_sectors(before, &page(alloc, run)?)))
}

/// Sends it again and syncs.
fn ended(alloc: Global, run: &mut Run) -> Result<Option<Outcome>, RecoveryFault> {
    let before = page(alloc, run)?;
    let torn = restarts_left(alloc, PAGES, run.memory(), IMAGES)?;
    let Some(same) = sent_again(alloc, run, &before)? else {
        return Ok(None);
    };
    let sent = restarts_left(alloc, PAGES, run.memory(), IMAGES)?;
    if make(alloc, run, Next(SyncDevice))? != Done {
        return Ok(None);
    }
    let synced = restarts_left(alloc, PAGES, run.memory(), IMAGES)?;
    Ok(Some(Outcome {
        same,
        torn,
        sent,
        synced,
    }))
}

/// A restart page of which so many sectors are written, and then all; none where a step isn't
/// answered as it is to be.
fn sent_twice(alloc: Global, tearing: usize) -> Result<Option<Outcome>, RecoveryFault> {
    let device = disk(alloc, &[FAILING], tearing)?;
    let Some(mut run) = Run::open(alloc, PAGES, device)? else {
        return Ok(None);
    };
    if !are_made(alloc, &mut run)? {
        return Ok(None);
    }
    ended(alloc, &mut run)
}

#[test]
fn a_restart_page_is_sent_again_as_it_was(rt: HostRuntime) -> Result<(), Fail> {
    for tearing in [1, 4, 7] {
        let wanted = Outcome {
            same: tearing,
            torn: (false, true),
            sent: (true, true),
            synced: (true, false),
        };
        assert_eq!(rt; sent_twice(rt.alloc(), tearing)?, Some(wanted), "{tearing}");
    }
    Ok(())
}

const WATCHED: [Watch; 1] = [Watch(S0, 0, 512)];

const SEEN: &[&[Sight]] = &[&[Some(0x22)]];

/// The noted block is written, and the sync behind it fails twice.
static UNSYNCED: [Row; 1] = [Row {
    steps: &[
        (Begin, Done),
        (CHANGE, Done),
        (Commit, Done),
        (Checkpoint, Done),
        (Next(WriteRestart), Barred),
        (Next(WritePage), Done),
        (Next(SyncDevice), Done),
        (Next(WriteRestart), Barred),
        (Next(WriteOut(S0)), Done),
        (Next(SyncDevice), Fault),
        (Next(WriteRestart), Barred),
        (Next(SyncDevice), Fault),
        (Next(WriteRestart), Barred),
        (Next(SyncDevice), Done),
        (Next(WriteRestart), Done),
        (Next(SyncDevice), Done),
        (Rest, Done),
    ],
    failing: &[9, 10],
    tearing: 0,
    counts: (1, 1),
    seen: SEEN,
}];

#[test]
fn a_checkpoint_waits_for_a_sync_that_answers(rt: HostRuntime) -> Result<(), Fail> {
    for (number, row) in UNSYNCED.iter().enumerate() {
        let wrong = first_wrong(rt.alloc(), PAGES, row, &WATCHED)?;
        assert!(rt; wrong.is_none(), "row {number}: {wrong:?}");
    }
    Ok(())
}
