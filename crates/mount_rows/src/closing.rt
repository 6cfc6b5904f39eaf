//! Stores that are closed behind many commits.
use crate::mounting::PAGES;
use disk_model::Block;
use log_page::{Restart, chosen};
use log_recovery::RecoveryFault;
use sector_device::MemoryDevice;
use std::alloc::{AllocError, Global};
use std::test::Fail;
use store_images::{
    Answer, BlindDevice, LOG, Run, S0, S1, Step, Watch, are_commits, byte_behind, commit_byte,
    disk, go_on, images_after, left_by_seed, make,
};
use txn_close::{CloseFault, close};

/// So many images are tried by a seed behind a close.
const IMAGES: u64 = 5;

/// The commits of a store that is closed.
const COMMITS: u64 = 100;

/// Makes so many commits, each of which brings the next byte into a sector, and goes on behind each
/// eighth but the last ones; whether all went well.
fn are_made(alloc: Global, run: &mut Run, commits: u64) -> Result<bool, AllocError> {
    for number in 0..commits {
        let byte = byte_behind(number.saturating_add(1));
        if !commit_byte(alloc, run, S0, 512, byte)? {
            return Ok(false);
        }
        let is_last = commits <= number.saturating_add(5);
        if number % 8 == 7 && !is_last && go_on(run, 100).is_none() {
            return Ok(false);
        }
    }
    Ok(true)
}

/// Begins a transaction that changes another sector; whether that went well.
fn is_left_open(alloc: Global, run: &mut Run) -> Result<bool, AllocError> {
    for step in [Step::Begin, Step::Change(S1, 0, 512, 0x77)] {
        if make(alloc, run, step)? != Answer::Done {
            return Ok(false);
        }
    }
    Ok(true)
}

/// A store with so many commits and a transaction that is open; none where one of its calls doesn't
/// go well.
fn filled(alloc: Global, device: MemoryDevice, commits: u64) -> Result<Option<Run>, RecoveryFault> {
    let Some(mut run) = Run::open(alloc, PAGES, device)? else {
        return Ok(None);
    };
    if are_made(alloc, &mut run, commits)? && is_left_open(alloc, &mut run)? {
        return Ok(Some(run));
    }
    Ok(None)
}

/// A store that was closed: what that answered, the device behind it, its calls before, and the
/// commits and the durable ones.
#[derive(Drop)]
struct Closed {
    result: Result<(), CloseFault>,
    device: MemoryDevice,
    calls: u64,
    commits: u64,
    durable: u64,
}

/// A store that was closed behind so many commits, on a device whose calls with these numbers fail,
/// and whose write that fails puts so many sectors; none where a call before doesn't go well.
fn close_behind(
    alloc: Global,
    commits: u64,
    failing: &[u64],
    tearing: usize,
) -> Result<Option<Closed>, RecoveryFault> {
    let device = disk(alloc, failing, tearing)?;
    let Some(run) = filled(alloc, device, commits)? else {
        return Ok(None);
    };
    let calls = run.memory().calls;
    let (commits, durable) = (run.state().commits(), run.state().durable());
    let (result, BlindDevice { device }) = close(run.into_store());
    Ok(Some(Closed {
        result,
        device,
        calls,
        commits,
        durable,
    }))
}

/// The restart page that stands at this place of an image.
fn restart_at(image: &[u8], place: usize) -> Option<Restart> {
    let at = 512 * LOG as usize + 4096 * place.min(1);
    if image.len() < at + 4096 {
        return None;
    }
    Restart::read(&image[at..at + 4096]).ok()
}

/// Whether an image has a clean log.
fn is_clean(image: &[u8]) -> bool {
    match (restart_at(image, 0), restart_at(image, 1)) {
        (Some(first), Some(second)) => match chosen(Ok(first), Ok(second)) {
            Some(page) => page.is_clean(),
            None => false,
        },
        _ => false,
    }
}

/// Whether each of some images that a crash may leave has a clean log.
fn are_clean(alloc: Global, device: &MemoryDevice) -> Result<bool, AllocError> {
    let images = images_after(alloc, device, device.done.len(), IMAGES)?;
    Ok(images.iter().all(|image| is_clean(image)))
}

/// Whether a sector has in some images the byte of a number of commits, from this one on.
fn has_bytes(
    alloc: Global,
    device: &MemoryDevice,
    sector: Block,
    durable: u64,
    commits: u64,
) -> Result<bool, RecoveryFault> {
    let seen = left_by_seed(alloc, PAGES, device, IMAGES, &[Watch(sector, 0, 512)])?;
    Ok(are_commits(&seen, durable, commits))
}

/// Whether some images recover to the content behind a number of commits from this one on, and to
/// nothing of the transaction that was open.
fn are_left(
    alloc: Global,
    device: &MemoryDevice,
    durable: u64,
    commits: u64,
) -> Result<bool, RecoveryFault> {
    Ok(has_bytes(alloc, device, S0, durable, commits)? && has_bytes(alloc, device, S1, 0, 0)?)
}

/// What a close comes to: what it answered, its calls, whether each image has a clean log, and
/// whether each has the last bodies.
type End = Option<(Result<(), CloseFault>, u64, bool, bool)>;

fn end(alloc: Global) -> Result<End, RecoveryFault> {
    let Some(it) = close_behind(alloc, COMMITS, &[], 0)? else {
        return Ok(None);
    };
    let clean = are_clean(alloc, &it.device)?;
    let last = are_left(alloc, &it.device, it.commits, it.commits)?;
    let calls = it.device.calls.saturating_sub(it.calls);
    Ok(Some((it.result, calls, clean, last)))
}

/// Five pages of the log and a restart page take a read and a write each, and two sectors a write;
/// there are three syncs.
#[test]
fn a_close_leaves_a_clean_log(rt: HostRuntime) -> Result<(), Fail> {
    assert_eq!(rt; end(rt.alloc())?, Some((Ok(()), 17, true, true)));
    Ok(())
}

/// Whether a close of which this call fails answers so, and each image recovers.
fn fails_well(alloc: Global, call: u64, tearing: usize) -> Result<bool, RecoveryFault> {
    let Some(it) = close_behind(alloc, COMMITS, &[call], tearing)? else {
        return Ok(false);
    };
    Ok(it.result == Err(CloseFault::Fault) && are_left(alloc, &it.device, it.durable, it.commits)?)
}

/// The first call of a close whose failure isn't answered, or leaves an image that doesn't recover;
/// none where there is none; the error is that nothing is closed.
fn first_lost(alloc: Global, tearing: usize) -> Result<Result<Option<u64>, ()>, RecoveryFault> {
    let Some(whole) = close_behind(alloc, COMMITS, &[], 0)? else {
        return Ok(Err(()));
    };
    for call in whole.calls.saturating_add(1)..=whole.device.calls {
        if !fails_well(alloc, call, tearing)? {
            return Ok(Ok(Some(call)));
        }
    }
    Ok(Ok(None))
}

#[test]
fn each_call_of_a_close_fails_in_turn(rt: HostRuntime) -> Result<(), Fail> {
    for tearing in [0, 1] {
        assert_eq!(rt; first_lost(rt.alloc(), tearing)?, Ok(None), "{tearing}");
    }
    Ok(())
}
