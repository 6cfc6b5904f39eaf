//! What a crash leaves of a run, at each moment from its beginning on.
use crate::runs::change;
use crate::shown::{LINES, SCRIPT, are_among, sets_behind};
use crate::volume::{device_of, volume};
use crate::watched::{MomentGate, WatchedDevice};
use sector_device::{KeptCall, MemoryDevice};
use std::alloc::Global;
use std::ops::Range;
use std::sync::Wait;
use std::sync::atomic::{AtomicU64, Ordering};
use std::test::Fail;
use std::thread::Threads;
use writing_run::Ran;

// So many images are tried at a moment, where there are many.
const IMAGES: u64 = 5;

// No write, the first one, the first two: the last one isn't begun before the sync is answered.
const STATES: u8 = 0b0000_1011;

// The first two, all.
const SYNCED_STATES: u8 = 0b1000_1000;

/// Whether a text has the lines of turns in which the device doesn't fail.
pub fn is_whole(text: &str) -> bool {
    let mut count = 0usize;
    for (line, wanted) in text.split('\n').zip(LINES.iter()) {
        if line != wanted.0 {
            return false;
        }
        count = count.saturating_add(1);
    }
    count == 4
}

/// The device behind a run that went well, and how many calls it had kept when the reply to the
/// sync was known.
pub fn ran<R: Threads + Wait>(rt: &R, alloc: Global) -> Result<(MemoryDevice, usize), Fail> {
    let noted = AtomicU64::new(0);
    let gate = MomentGate {
        number: 4,
        noted: &noted,
        passed: AtomicU64::new(0),
    };
    let device = WatchedDevice {
        device: device_of(alloc, volume(alloc)?, &[])?,
        noted: &noted,
    };
    let Ran {
        text,
        flushed,
        device: WatchedDevice { device, noted: _ },
    } = change(rt, alloc, SCRIPT, device, &gate)?;
    match text {
        Ok(text) if flushed && is_whole(text.as_str()) => {}
        _ => return Err("another text".into()),
    }
    Ok((device, (gate.passed.load(Ordering::SeqCst) / 2) as usize))
}

// Whether the last of so many calls is a write or a sync, or there is none.
fn is_change(device: &MemoryDevice, calls: usize) -> bool {
    match device.done.iter().take(calls).last() {
        None => true,
        Some(KeptCall::Write { .. }) => true,
        Some(KeptCall::Sync { .. }) => true,
        Some(_) => false,
    }
}

// The first number of calls among these, by this step, behind which an image shows none of the
// states, if there is one, and the states that images show before.
fn first_lost<R: Threads + Wait>(
    rt: &R,
    alloc: Global,
    device: &MemoryDevice,
    counts: Range<usize>,
    step: usize,
    states: u8,
) -> Result<(Option<usize>, u8), Fail> {
    let mut seen = 0u8;
    for calls in counts.step_by(step.max(1)) {
        if is_change(device, calls) {
            let sets = sets_behind(rt, alloc, device, calls, IMAGES)?;
            if !are_among(sets, states) {
                return Ok((Some(calls), seen));
            }
            seen |= sets;
        }
    }
    Ok((None, seen))
}

// The same before the reply to the sync.
fn first_lost_before<R: Threads + Wait>(
    rt: &R,
    alloc: Global,
) -> Result<(Option<usize>, u8), Fail> {
    let (device, synced) = ran(rt, alloc)?;
    first_lost(rt, alloc, &device, 0..synced, 1, STATES)
}

// The same from so many calls behind that reply on, for each second number.
fn first_lost_behind<R: Threads + Wait>(
    rt: &R,
    alloc: Global,
    calls: usize,
) -> Result<(Option<usize>, u8), Fail> {
    let (device, synced) = ran(rt, alloc)?;
    let end = device.done.len().saturating_add(1);
    let first = synced.saturating_add(calls);
    first_lost(rt, alloc, &device, first..end, 2, SYNCED_STATES)
}

#[test]
fn a_crash_before_a_sync_leaves_a_front_of_the_run(rt: HostRuntime) -> Result<(), Fail> {
    assert_eq!(rt; first_lost_before(&rt, rt.alloc())?, (None, STATES));
    Ok(())
}

#[test]
fn a_crash_behind_a_sync_undoes_nothing_of_it(rt: HostRuntime) -> Result<(), Fail> {
    assert_eq!(rt;
        first_lost_behind(&rt, rt.alloc(), 0)?,
        (None, SYNCED_STATES)
    );
    Ok(())
}

#[test]
fn a_crash_a_call_later_undoes_nothing_of_it(rt: HostRuntime) -> Result<(), Fail> {
    assert_eq!(rt;
        first_lost_behind(&rt, rt.alloc(), 1)?,
        (None, SYNCED_STATES)
    );
    Ok(())
}
