//! Bytes that count commits: each transaction brings the next one into the same places.
use crate::images::{Sight, Watch, left_by_seed};
use crate::playing::{Step, make};
use crate::running::{Answer, Run};
use disk_model::Block;
use log_recovery::RecoveryFault;
use std::alloc::{AllocError, Global};

// The byte that stands everywhere before the first commit.
const FIRST: u64 = 0x11;

/// The byte that stands in the places behind so many commits, of which there are at most 238.
pub fn byte_behind(commits: u64) -> u8 {
    (FIRST + commits % 239) as u8
}

// The commits behind which all these have the byte that is seen; none where they haven't the same.
fn commits_of(sights: &[Sight]) -> Option<u64> {
    let first = sights.first().copied().flatten()?;
    if sights.iter().any(|sight| *sight != Some(first)) {
        return None;
    }
    u64::from(first).checked_sub(FIRST)
}

/// Whether each of these outcomes has the byte of a number of commits from this durable one on.
pub fn are_commits(seen: &[Vec<Sight>], durable: u64, commits: u64) -> bool {
    for sights in seen {
        match commits_of(sights) {
            Some(count) if durable <= count && count <= commits => {}
            _ => return false,
        }
    }
    true
}

/// Whether each of so many images that a crash may leave now, by a seed, recovers to the byte of a
/// number of commits from the last durable one on, the same in all places that are watched. The
/// error is want of memory, or why recovery refuses an image.
pub fn is_sound(
    alloc: Global,
    pages: u32,
    run: &Run,
    images: u64,
    watched: &[Watch],
) -> Result<bool, RecoveryFault> {
    let seen = left_by_seed(alloc, pages, run.memory(), images, watched)?;
    let state = run.state();
    Ok(are_commits(&seen, state.durable(), state.commits()))
}

/// Makes a transaction that brings this byte into so many of a block, from the first one on;
/// whether each of its calls went well. The error is want of memory.
pub fn commit_byte(
    alloc: Global,
    run: &mut Run,
    block: Block,
    count: usize,
    byte: u8,
) -> Result<bool, AllocError> {
    for step in [
        Step::Begin,
        Step::Change(block, 0, count, byte),
        Step::Commit,
    ] {
        if make(alloc, run, step)? != Answer::Done {
            return Ok(false);
        }
    }
    Ok(true)
}

/// Takes the next steps of a store down to none, fewer than so many, and tells how many they were;
/// none where one of them fails, or more are left.
pub fn go_on(run: &mut Run, most: u64) -> Option<u64> {
    for count in 0..most {
        match run.turn() {
            None => return Some(count),
            Some((_, Answer::Done)) => {}
            Some(_) => return None,
        }
    }
    None
}
