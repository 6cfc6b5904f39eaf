//! What is logged of a block that is changed anew, before and behind a checkpoint.
use block_view::ViewFault;
use flush_policy::StoreStep::{SealPage, SyncDevice, WriteOut, WritePage, WriteRestart};
use std::alloc::{AllocError, Global};
use std::test::Fail;
use store_images::Answer::{Done, Fault};
use store_images::Step::{Begin, Change, Checkpoint, Commit, Next, Rest};
use store_images::{Answer, R, Row, Run, Sight, Step, Watch, disk, first_wrong, go_on, make};

/// The pages of the log.
const PAGES: u32 = 16;

const ALL: Step = Change(R, 0x40, 960, 0x22);

const BYTE: Step = Change(R, 0x50, 1, 0x33);

const NEXT_BYTE: Step = Change(R, 0x51, 1, 0x33);

/// By how much a step raises the LSN of the next commit, which is an eighth of an offset: a whole
/// record takes 2,136 bytes of the log, one byte of it 104, and a commit 88.
type Rise = (Step, u64);

/// From the start on: the record is logged whole once.
static BEFORE: [Rise; 7] = [
    (Begin, 0),
    (ALL, 267),
    (BYTE, 13),
    (Commit, 11),
    (Begin, 0),
    (BYTE, 13),
    (Commit, 11),
];

/// Behind a checkpoint: its first change logs it whole again.
static BEHIND: [Rise; 4] = [(Begin, 0), (BYTE, 267), (NEXT_BYTE, 13), (Commit, 11)];

/// Makes a step; whether that goes well and raises it by so many.
fn raises(alloc: Global, run: &mut Run, step: Step, rise: u64) -> Result<bool, AllocError> {
    let before = run.facts().next;
    let answer = make(alloc, run, step)?;
    Ok(answer == Done && run.facts().next.saturating_sub(before) == rise)
}

/// The first step that isn't made or raises it by another number.
fn first_other(alloc: Global, run: &mut Run, rises: &[Rise]) -> Result<Option<usize>, AllocError> {
    for (number, (step, rise)) in rises.iter().enumerate() {
        if !raises(alloc, run, *step, *rise)? {
            return Ok(Some(number));
        }
    }
    Ok(None)
}

/// The first step before a checkpoint that differs, the steps that the store takes down to rest, and
/// the first one behind the checkpoint that differs; none where the store isn't opened. It seals and
/// writes a page, syncs, writes the record, syncs, begins the checkpoint, ends it, and syncs.
type Outcome = (Option<usize>, Option<u64>, Option<usize>);

fn risen(alloc: Global) -> Result<Option<Outcome>, ViewFault> {
    let Some(mut run) = Run::open(alloc, PAGES, disk(alloc, &[], 0)?)? else {
        return Ok(None);
    };
    let before = first_other(alloc, &mut run, &BEFORE)?;
    let steps = go_on(&mut run, 100);
    let behind = first_other(alloc, &mut run, &BEHIND)?;
    Ok(Some((before, steps, behind)))
}

#[test]
fn a_checkpoint_has_a_block_logged_whole_again(rt: HostRuntime) -> Result<(), Fail> {
    let (before, steps, behind) = risen(rt.alloc())?.ok_or("no store")?;
    assert_eq!(rt; before, None);
    assert_eq!(rt; steps, Some(8));
    assert_eq!(rt; behind, None);
    Ok(())
}

/// One byte, and those behind it.
const WATCHED: [Watch; 2] = [Watch(R, 0x50, 1), Watch(R, 0x51, 900)];

const SEEN: &[&[Sight]] = &[&[Some(0x33), Some(0x22)]];

/// A checkpoint ends, one byte is changed, and the record is written out, which fails.
const CUT: &[(Step, Answer)] = &[
    (Begin, Done),
    (ALL, Done),
    (Commit, Done),
    (Checkpoint, Done),
    (Next(WritePage), Done),
    (Next(SyncDevice), Done),
    (Next(WriteOut(R)), Done),
    (Next(SyncDevice), Done),
    (Next(WriteRestart), Done),
    (Next(SyncDevice), Done),
    (Rest, Done),
    (Begin, Done),
    (BYTE, Done),
    (Commit, Done),
    (Next(SealPage), Done),
    (Next(WritePage), Done),
    (Next(SyncDevice), Done),
    (Next(WriteOut(R)), Fault),
];

static CUTS: [Row; 3] = [
    Row {
        steps: CUT,
        failing: &[17],
        tearing: 0,
        counts: (2, 2),
        seen: SEEN,
    },
    Row {
        steps: CUT,
        failing: &[17],
        tearing: 1,
        counts: (2, 2),
        seen: SEEN,
    },
    Row {
        steps: CUT,
        failing: &[17],
        tearing: 2,
        counts: (2, 2),
        seen: SEEN,
    },
];

#[test]
fn a_write_out_behind_a_checkpoint_that_is_cut_leaves_a_whole_record(
    rt: HostRuntime,
) -> Result<(), Fail> {
    for (number, row) in CUTS.iter().enumerate() {
        let wrong = first_wrong(rt.alloc(), PAGES, row, &WATCHED)?;
        assert!(rt; wrong.is_none(), "row {number}: {wrong:?}");
    }
    Ok(())
}
