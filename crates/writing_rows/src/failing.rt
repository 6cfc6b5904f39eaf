//! Runs of which each call of the device fails in turn.
use crate::crashing::{is_whole, ran};
use crate::runs::change;
use crate::shown::{LINES, SCRIPT, are_among, sets_behind};
use crate::volume::{device_of, volume};
use host_base::NoGate;
use sector_device::{KeptCall, MemoryDevice};
use std::alloc::{AllocError, Global};
use std::ops::Range;
use std::sync::Wait;
use std::test::Fail;
use std::thread::Threads;
use writing_run::{Ran, StartFault};

// So many images are tried behind a run, where there are many.
const IMAGES: u64 = 2;

// How a run ends whose device fails: no call fails, and all is well; or one does, which is told,
// and each image has a state that the replies allow; or otherwise.
#[derive(Clone, Copy, Debug, PartialEq)]
enum End {
    Whole,
    Told,
    Wrong,
}

// The sets of writes that the replies and the closing flush leave to a crash; none where a line is
// neither the one that is wanted nor that of a fault.
fn sets_told(text: &str, flushed: bool) -> u8 {
    let mut set = 0u8;
    let mut sets = 1u8;
    for (line, wanted) in text.split('\n').zip(LINES.iter()) {
        if line == wanted.0 {
            set |= wanted.2;
            sets = if wanted.2 == 0 { 0 } else { sets } | 1 << (set % 8);
        } else if line != wanted.1 {
            return 0;
        }
    }
    if flushed { 1 << (set % 8) } else { sets }
}

// What a run leaves to a crash: nothing is changed where it didn't begin.
fn sets_left(text: &Result<String, StartFault>, flushed: bool) -> u8 {
    match text {
        Ok(text) => sets_told(text.as_str(), flushed),
        Err(StartFault::Device) => 1,
        Err(_) => 0,
    }
}

// Whether a run is told as one in which no call of the device failed.
fn is_told_whole(text: &Result<String, StartFault>, flushed: bool) -> bool {
    match text {
        Ok(text) => flushed && is_whole(text.as_str()),
        Err(_) => false,
    }
}

// How a run ended, behind which the device has this many faults.
fn end_of<R: Threads + Wait>(
    rt: &R,
    alloc: Global,
    ran: &Ran<MemoryDevice>,
    faults: u64,
) -> Result<End, Fail> {
    let is_told_whole = is_told_whole(&ran.text, ran.flushed);
    let sets = sets_behind(rt, alloc, &ran.device, ran.device.done.len(), IMAGES)?;
    if is_told_whole != (faults == 0) || !are_among(sets, sets_left(&ran.text, ran.flushed)) {
        return Ok(End::Wrong);
    }
    Ok(if faults == 0 { End::Whole } else { End::Told })
}

// How a run ends in which the call of this number fails, of which so many sectors are put where it
// is a write.
fn ended<R: Threads + Wait>(
    rt: &R,
    alloc: Global,
    image: &[u8],
    call: u64,
    tearing: usize,
) -> Result<End, Fail> {
    let mut device = device_of(alloc, image.to_vec(alloc)?, &[call])?;
    device.tearing = tearing;
    let ran = change(rt, alloc, SCRIPT, device, &NoGate)?;
    let faults = if ran.device.calls < call { 0 } else { 1 };
    end_of(rt, alloc, &ran, faults)
}

// The first call of these whose failure isn't told, and how the run ends then; 0 where each one is
// told.
fn first_untold<R: Threads + Wait>(
    rt: &R,
    alloc: Global,
    calls: Range<u64>,
) -> Result<(u64, End), Fail> {
    let image = volume(alloc)?;
    for call in calls {
        let end = ended(rt, alloc, &image, call, 0)?;
        if end != End::Told {
            return Ok((call, end));
        }
    }
    Ok((0, End::Told))
}

// The first calls are those of the mount.
#[test]
fn each_of_the_first_calls_that_fails_is_told(rt: HostRuntime) -> Result<(), Fail> {
    assert_eq!(rt; first_untold(&rt, rt.alloc(), 1..51)?, (0, End::Told));
    Ok(())
}

#[test]
fn each_of_the_next_calls_that_fails_is_told(rt: HostRuntime) -> Result<(), Fail> {
    assert_eq!(rt; first_untold(&rt, rt.alloc(), 51..101)?, (0, End::Told));
    Ok(())
}

#[test]
fn each_call_of_the_commands_that_fails_is_told(rt: HostRuntime) -> Result<(), Fail> {
    assert_eq!(rt; first_untold(&rt, rt.alloc(), 101..131)?, (0, End::Told));
    Ok(())
}

#[test]
fn each_of_the_last_calls_that_fails_is_told(rt: HostRuntime) -> Result<(), Fail> {
    let (call, end) = first_untold(&rt, rt.alloc(), 131..1000)?;
    assert!(rt; call > 150 && end == End::Whole, "call {call} ends {end:?}");
    Ok(())
}

// The numbers of the writes among the calls of a device.
fn writes_of(alloc: Global, device: &MemoryDevice) -> Result<Vec<u64>, AllocError> {
    let mut numbers = Vec::new(alloc);
    let mut number = 0u64;
    for call in device.done.iter() {
        number = number.saturating_add(1);
        if let KeptCall::Write { .. } = call {
            numbers.push(number)?;
        }
    }
    Ok(numbers)
}

// The first write whose failure isn't told where one sector of it is put, of each second one from
// this one on, and how many there are in all.
fn first_torn<R: Threads + Wait>(
    rt: &R,
    alloc: Global,
    first: usize,
) -> Result<(Option<u64>, usize), Fail> {
    let image = volume(alloc)?;
    let (device, _) = ran(rt, alloc)?;
    let writes = writes_of(alloc, &device)?;
    for call in writes.iter().skip(first).step_by(2) {
        if ended(rt, alloc, &image, *call, 1)? != End::Told {
            return Ok((Some(*call), writes.len()));
        }
    }
    Ok((None, writes.len()))
}

#[test]
fn each_second_write_that_is_torn_is_told(rt: HostRuntime) -> Result<(), Fail> {
    let (torn, count) = first_torn(&rt, rt.alloc(), 0)?;
    assert!(rt; torn.is_none() && count > 20, "write {torn:?} of {count}");
    Ok(())
}

#[test]
fn each_other_write_that_is_torn_is_told(rt: HostRuntime) -> Result<(), Fail> {
    let (torn, count) = first_torn(&rt, rt.alloc(), 1)?;
    assert!(rt; torn.is_none() && count > 20, "write {torn:?} of {count}");
    Ok(())
}
