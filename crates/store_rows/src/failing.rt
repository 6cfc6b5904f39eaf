//! Runs of sixty steps in which each call of the device fails in turn.
use log_recovery::RecoveryFault;
use std::alloc::Global;
use std::test::Fail;
use store_images::{Answer, R, Run, S0, Step, Watch, byte_behind, disk, is_sound, make};

/// The pages of the log.
const PAGES: u32 = 16;

/// So many images are tried by a seed at each place.
const IMAGES: u64 = 4;

/// The number of a run's last step, from 0.
const LAST: u64 = 59;

/// Each transaction brings the same byte into both.
const WATCHED: [Watch; 2] = [Watch(S0, 0, 512), Watch(R, 0x40, 960)];

/// A step of a run by its number, behind so many commits.
fn step_of(number: u64, commits: u64) -> Step {
    let byte = byte_behind(commits.saturating_add(1));
    match number % 10 {
        0 => Step::Begin,
        1 => Step::Change(S0, 0, 512, byte),
        2 => Step::Change(R, 0x40, 960, byte),
        3 => Step::Commit,
        4 => Step::Seal,
        5 => Step::Page,
        7 => Step::Out(S0),
        8 => Step::Out(R),
        _ => Step::Sync,
    }
}

/// Makes a step. Images are tried behind one that fails, and behind the last one; whether they
/// recover.
fn goes_well(alloc: Global, run: &mut Run, number: u64) -> Result<bool, RecoveryFault> {
    let step = step_of(number, run.state().commits());
    let answer = make(alloc, run, step)?;
    if answer != Answer::Fault && number != LAST {
        return Ok(true);
    }
    is_sound(alloc, PAGES, run, IMAGES, &WATCHED)
}

/// Makes the steps of a run, up to the first behind which an image doesn't recover; none where each
/// does.
fn first_wrong(alloc: Global, run: &mut Run) -> Result<Option<u64>, RecoveryFault> {
    for number in 0..=LAST {
        if !goes_well(alloc, run, number)? {
            return Ok(Some(number));
        }
    }
    Ok(None)
}

/// What a run comes to: the first step behind which an image doesn't recover, the calls of the
/// device, and the commits.
type Outcome = (Option<u64>, u64, u64);

/// A run in which these calls fail; none where its store isn't opened.
fn run_with(
    alloc: Global,
    failing: &[u64],
    tearing: usize,
) -> Result<Option<Outcome>, RecoveryFault> {
    let device = disk(alloc, failing, tearing)?;
    let Some(mut run) = Run::open(alloc, PAGES, device)? else {
        return Ok(None);
    };
    let wrong = first_wrong(alloc, &mut run)?;
    let calls = run.memory().calls;
    Ok(Some((wrong, calls, run.state().commits())))
}

#[test]
fn a_run_makes_so_many_calls(rt: HostRuntime) -> Result<(), Fail> {
    let found = run_with(rt.alloc(), &[], 0)?;
    assert_eq!(rt; found, Some((None, 51, 6)));
    Ok(())
}

/// The first of the calls from this one up to that one whose failure leaves an image that doesn't
/// recover.
fn first_lost(
    alloc: Global,
    from: u64,
    upto: u64,
    tearing: usize,
) -> Result<Option<u64>, RecoveryFault> {
    for call in from..upto {
        match run_with(alloc, &[call], tearing)? {
            Some((None, _, _)) => {}
            _ => return Ok(Some(call)),
        }
    }
    Ok(None)
}

#[test]
fn each_of_the_first_calls_fails_in_turn(rt: HostRuntime) -> Result<(), Fail> {
    assert_eq!(rt; first_lost(rt.alloc(), 4, 28, 0)?, None);
    Ok(())
}

#[test]
fn each_of_the_last_calls_fails_in_turn(rt: HostRuntime) -> Result<(), Fail> {
    assert_eq!(rt; first_lost(rt.alloc(), 28, 52, 0)?, None);
    Ok(())
}

#[test]
fn each_of_the_first_calls_is_torn_in_turn(rt: HostRuntime) -> Result<(), Fail> {
    assert_eq!(rt; first_lost(rt.alloc(), 4, 28, 1)?, None);
    Ok(())
}

#[test]
fn each_of_the_last_calls_is_torn_in_turn(rt: HostRuntime) -> Result<(), Fail> {
    assert_eq!(rt; first_lost(rt.alloc(), 28, 52, 1)?, None);
    Ok(())
}
