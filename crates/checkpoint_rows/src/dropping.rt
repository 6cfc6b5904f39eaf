//! A block that is noted by a checkpoint, and over whose sector another kind of block comes.
use flush_policy::StoreStep::{
    BeginCheckpoint, SealPage, SyncDevice, WriteOut, WritePage, WriteRestart,
};
use log_recovery::RecoveryFault;
use std::alloc::{AllocError, Global};
use std::test::Fail;
use store_images::Answer::Done;
use store_images::Step::{Begin, Change, Checkpoint, Commit, Next, Page, Rest, Seal, Sync};
use store_images::{IN_X, Run, Sight, Step, Watch, X, disk, left, make, times_written};

/// The pages of the log.
const PAGES: u32 = 16;

/// A sector in an index block, and then all of that block.
const STALE: Step = Change(IN_X, 0, 512, 0x33);

const OVER: Step = Change(X, 0x40, 4032, 0x44);

/// A step, and how many noted blocks are left behind it. The block's entries go into three pages,
/// the last of which is durable with the second sync behind them: the sector's body leaves then.
static STEPS: [(Step, u64); 24] = [
    (Begin, 0),
    (STALE, 0),
    (Commit, 0),
    (Seal, 0),
    (Page, 0),
    (Sync, 0),
    (Checkpoint, 1),
    (Begin, 1),
    (OVER, 1),
    (Commit, 1),
    (Next(WritePage), 1),
    (Next(WritePage), 1),
    (Next(SyncDevice), 1),
    (Next(SealPage), 1),
    (Next(WritePage), 1),
    (Next(SyncDevice), 0),
    (Next(WriteOut(X)), 0),
    (Next(SyncDevice), 0),
    (Next(WriteRestart), 0),
    (Next(SyncDevice), 0),
    (Next(BeginCheckpoint), 0),
    (Next(WriteRestart), 0),
    (Next(SyncDevice), 0),
    (Rest, 0),
];

/// Makes a step; whether that goes well and so many noted blocks are left behind it.
fn leaves(alloc: Global, run: &mut Run, step: Step, noted: u64) -> Result<bool, AllocError> {
    let answer = make(alloc, run, step)?;
    Ok(answer == Done && run.facts().noted_left == noted)
}

/// Makes the steps, and tells the first one that isn't made, or behind which another number is
/// left.
fn first_other(alloc: Global, run: &mut Run) -> Result<Option<usize>, AllocError> {
    for (number, (step, noted)) in STEPS.iter().enumerate() {
        if !leaves(alloc, run, *step, *noted)? {
            return Ok(Some(number));
        }
    }
    Ok(None)
}

/// All of the index block behind its head, and the sector in it but for its last bytes, where the
/// block has a check word.
const WATCHED: [Watch; 2] = [Watch(X, 0x40, 4032), Watch(IN_X, 0, 500)];

/// What the steps come to: the first one that isn't made or leaves another number, how many writes
/// begin at the sector, and what is seen of the images then.
type Outcome = (Option<usize>, u64, Vec<Vec<Sight>>);

/// Of a new store; none where it isn't opened.
fn dropped(alloc: Global) -> Result<Option<Outcome>, RecoveryFault> {
    let Some(mut run) = Run::open(alloc, PAGES, disk(alloc, &[], 0)?)? else {
        return Ok(None);
    };
    let other = first_other(alloc, &mut run)?;
    let writes = times_written(run.memory(), IN_X.first);
    let seen = left(alloc, PAGES, run.memory(), &WATCHED)?;
    Ok(Some((other, writes, seen)))
}

/// Whether each image has the index block's bytes alone.
fn is_over(seen: &[Vec<Sight>]) -> bool {
    match seen {
        [sights] => sights.as_slice() == [Some(0x44), Some(0x44)].as_slice(),
        _ => false,
    }
}

#[test]
fn a_noted_block_that_is_stale_leaves_unwritten(rt: HostRuntime) -> Result<(), Fail> {
    let (other, writes, seen) = dropped(rt.alloc())?.ok_or("no store")?;
    assert_eq!(rt; other, None);
    assert_eq!(rt; writes, 0);
    assert!(rt; is_over(&seen), "{seen:?}");
    Ok(())
}
