//! A log that a crash left, and one that is full.
use crate::crashing::ran;
use crate::runs::{change, look};
use crate::shown::LOOKS;
use crate::volume::{LOG, ROOT, device_of, is_clean, volume};
use host_base::NoGate;
use sector_device::{KeptCall, MemoryDevice};
use std::alloc::Global;
use std::sync::Wait;
use std::test::Fail;
use std::thread::Threads;
use writing_run::Ran;

// The image behind a run that has this text and is flushed.
fn image_behind<R: Threads + Wait>(
    rt: &R,
    alloc: Global,
    script: &[u8],
    text: &str,
    image: &[u8],
) -> Result<Vec<u8>, Fail> {
    let device = device_of(alloc, image.to_vec(alloc)?, &[])?;
    let Ran {
        text: found,
        flushed,
        device,
    } = change(rt, alloc, script, device, &NoGate)?;
    match found {
        Ok(found) if flushed && found.as_str() == text => {}
        _ => return Err("another text".into()),
    }
    Ok(device.left_by(alloc, device.done.len(), &[])?)
}

// The text of looks at an image.
fn looked<R: Threads + Wait>(rt: &R, alloc: Global, image: &[u8]) -> Result<String, Fail> {
    match look(rt, alloc, LOOKS, image)? {
        Ok(text) => Ok(text),
        Err(_) => Err("not mounted".into()),
    }
}

// Looks that a run that may change the volume has, since there is a sync behind them.
fn looks_and_sync(alloc: Global) -> Result<Vec<u8>, Fail> {
    let mut script = LOOKS.to_vec(alloc)?;
    for byte in b"1 sync\n" {
        script.push(*byte)?;
    }
    Ok(script)
}

// Whether an image is recovered by a run without a change: the log is clean behind it, and what is
// seen is what was, by a run that only looks and by another one.
fn is_recovered<R: Threads + Wait>(rt: &R, alloc: Global, image: &[u8]) -> Result<bool, Fail> {
    let before = looked(rt, alloc, image)?;
    let clean = image_behind(rt, alloc, b"1 sync\n", "1 1 1 0 synced 0\n", image)?;
    let after = looked(rt, alloc, &clean)?;
    let mut text = String::from_str(alloc, before.as_str())?;
    text.push_str("1 7 7 0 synced 6\n")?;
    let script = looks_and_sync(alloc)?;
    let again = image_behind(rt, alloc, &script, text.as_str(), &clean)?;
    Ok(is_clean(&clean) && is_clean(&again) && after.as_str() == before.as_str())
}

// How many images behind a sync that a crash leaves with a log that isn't clean are recovered; none
// where one isn't.
fn count_recovered<R: Threads + Wait>(rt: &R, alloc: Global) -> Result<usize, Fail> {
    let (device, synced) = ran(rt, alloc)?;
    let mut count = 0usize;
    for calls in (synced..device.done.len()).step_by(4) {
        let image = device.left_by(alloc, calls, &[])?;
        if !is_clean(&image) {
            if !is_recovered(rt, alloc, &image)? {
                return Ok(0);
            }
            count = count.saturating_add(1);
        }
    }
    Ok(count)
}

#[test]
fn a_log_that_a_crash_left_is_recovered(rt: HostRuntime) -> Result<(), Fail> {
    let count = count_recovered(&rt, rt.alloc())?;
    assert!(rt; count > 4, "{count} logs");
    Ok(())
}

// A script of so many fills of a cluster, twice.
fn fills(alloc: Global, count: usize) -> Result<String, Fail> {
    let mut script = String::new(alloc);
    for _ in 0..count {
        script.push_str("1 fill /b 0 4096 41\n1 fill /b 0 4096 42\n")?;
    }
    Ok(script)
}

// How many lines say that a cluster was filled.
fn count_filled(text: &str) -> usize {
    let mut count = 0usize;
    for line in text.split('\n') {
        if line.ends_with(" wrote 4096") {
            count = count.saturating_add(1);
        }
    }
    count
}

// How many sectors of the log were written.
fn count_logged(device: &MemoryDevice) -> usize {
    let mut count = 0usize;
    for call in device.done.iter() {
        match call {
            KeptCall::Write { at: _, first, old } if (LOG as u64..ROOT).contains(first) => {
                count = count.saturating_add(old.as_slice().len() / 512);
            }
            _ => {}
        }
    }
    count
}

// How many fills were answered, how many sectors of the log were written, and the image behind.
fn filled<R: Threads + Wait>(
    rt: &R,
    alloc: Global,
    count: usize,
) -> Result<(usize, usize, Vec<u8>), Fail> {
    let device = device_of(alloc, volume(alloc)?, &[])?;
    let script = fills(alloc, count)?;
    let Ran {
        text,
        flushed,
        device,
    } = change(rt, alloc, script.as_bytes(), device, &NoGate)?;
    let image = device.left_by(alloc, device.done.len(), &[])?;
    Ok(match text {
        Ok(text) if flushed => (count_filled(text.as_str()), count_logged(&device), image),
        _ => (0, 0, image),
    })
}

// Whether an image has the last fill alone.
fn has_last_fill<R: Threads + Wait>(rt: &R, alloc: Global, image: &[u8]) -> Result<bool, Fail> {
    let script = b"1 read /b 0 2\n1 read /b 4094 4\n";
    Ok(match look(rt, alloc, script, image)? {
        Ok(text) => text.as_str() == "1 1 1 0 bytes 4242\n1 2 2 0 bytes 4242\n",
        Err(_) => false,
    })
}

#[test]
fn a_full_log_gets_room(rt: HostRuntime) -> Result<(), Fail> {
    let (count, sectors, image) = filled(&rt, rt.alloc(), 150)?;
    assert!(rt;
        count == 300 && sectors > 513 * 8,
        "{count} fills, {sectors} sectors"
    );
    assert!(rt; is_clean(&image) && has_last_fill(&rt, rt.alloc(), &image)?);
    Ok(())
}
