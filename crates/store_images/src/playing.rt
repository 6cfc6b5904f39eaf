//! Steps of a store, one behind the other.
use crate::devices::disk;
use crate::images::{Sight, Watch, left};
use crate::running::{Answer, Run};
use disk_model::Block;
use flush_policy::StoreStep;
use log_recovery::RecoveryFault;
use std::alloc::{AllocError, Global};

/// A step of a row: a call of a store.
#[derive(Clone, Copy, Debug)]
pub enum Step {
    /// A transaction begins.
    Begin,
    /// The bytes of a block from this one on, so many, become this one.
    Change(Block, usize, usize, u8),
    /// The open transaction is committed.
    Commit,
    /// It is given up.
    GiveUp,
    /// The page that is filled is sealed.
    Seal,
    /// The next sealed page is written.
    Page,
    /// The device is synced.
    Sync,
    /// A block is written out.
    Out(Block),
    /// A checkpoint begins.
    Checkpoint,
    /// The next step that the store takes by itself, if it is this one.
    Next(StoreStep),
    /// No step is next.
    Rest,
}

// Takes the next step of a store where it is this one, or where none is where none is meant.
fn take_next(run: &mut Run, step: Option<StoreStep>) -> Answer {
    if run.next() != step {
        return Answer::Barred;
    }
    match run.turn() {
        Some((_, answer)) => answer,
        None => Answer::Done,
    }
}

/// Makes a step of a row. The error is want of memory.
pub fn make(alloc: Global, run: &mut Run, step: Step) -> Result<Answer, AllocError> {
    match step {
        Step::Begin => Ok(run.begin()),
        Step::Change(block, at, count, byte) => {
            let new = vec![in alloc; byte; count.min(4096)]?;
            run.change(alloc, block, at, &new)
        }
        Step::Commit => run.commit(alloc),
        Step::GiveUp => Ok(run.give_up()),
        Step::Seal => Ok(run.seal()),
        Step::Page => Ok(run.write_page()),
        Step::Sync => Ok(run.sync()),
        Step::Out(block) => Ok(run.write_out(block)),
        Step::Checkpoint => Ok(run.begin_checkpoint()),
        Step::Next(step) => Ok(take_next(run, Some(step))),
        Step::Rest => Ok(take_next(run, None)),
    }
}

// What a run comes to: the number of the first step that isn't answered so, the commits and the
// durable ones, and what is seen of the images that a crash may leave.
type Outcome = (Option<usize>, u64, u64, Vec<Vec<Sight>>);

// Makes the steps of a row.
fn play(
    alloc: Global,
    pages: u32,
    run: &mut Run,
    steps: &[(Step, Answer)],
    watched: &[Watch],
) -> Result<Outcome, RecoveryFault> {
    let mut wrong = None;
    for (number, row) in steps.iter().enumerate() {
        let found = make(alloc, run, row.0)?;
        if wrong.is_none() && found != row.1 {
            wrong = Some(number);
        }
    }
    let state = run.state();
    let seen = left(alloc, pages, run.memory(), watched)?;
    Ok((wrong, state.commits(), state.durable(), seen))
}

// Whether these outcomes are those, in whatever order.
fn are_same(found: &[Vec<Sight>], wanted: &[&[Sight]]) -> bool {
    if found.len() != wanted.len() {
        return false;
    }
    for sights in found {
        let mut is_there = false;
        for other in wanted {
            if sights.as_slice() == *other {
                is_there = true;
            }
        }
        if !is_there {
            return false;
        }
    }
    true
}

/// A row: the steps with their answers, on a device whose calls with these numbers fail and put so
/// many sectors, the commits and the durable ones then, and what is seen of each image.
pub struct Row {
    /// Each with what it answers.
    pub steps: &'static [(Step, Answer)],
    /// The numbers of the calls that fail; the store's opening makes the first three.
    pub failing: &'static [u64],
    /// The sectors that a write that fails puts.
    pub tearing: usize,
    /// The commits, and the durable ones.
    pub counts: (u64, u64),
    /// What is seen of the images, each outcome once.
    pub seen: &'static [&'static [Sight]],
}

/// What differs of a row: the number of a step, the counts, or what is seen.
#[derive(Debug, Drop)]
pub enum Differs {
    /// The store wasn't opened.
    Opening,
    /// The first step, from 0, that is answered otherwise.
    Answer(usize),
    /// The commits, and the durable ones.
    Counts(u64, u64),
    /// What is seen of the images.
    Seen(Vec<Vec<Sight>>),
}

/// The first thing that differs of a row, by a log of so many pages and by what is watched of each
/// image; none where all is as the row says. The error is want of memory, or an image that recovery
/// refuses.
pub fn first_wrong(
    alloc: Global,
    pages: u32,
    row: &Row,
    watched: &[Watch],
) -> Result<Option<Differs>, RecoveryFault> {
    let device = disk(alloc, row.failing, row.tearing)?;
    let Some(mut run) = Run::open(alloc, pages, device)? else {
        return Ok(Some(Differs::Opening));
    };
    let (wrong, commits, durable, seen) = play(alloc, pages, &mut run, row.steps, watched)?;
    Ok(match wrong {
        Some(number) => Some(Differs::Answer(number)),
        None => {
            if (commits, durable) != row.counts {
                Some(Differs::Counts(commits, durable))
            } else if are_same(&seen, row.seen) {
                None
            } else {
                Some(Differs::Seen(seen))
            }
        }
    })
}
