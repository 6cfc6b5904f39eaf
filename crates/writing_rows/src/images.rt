//! Images that a crash may leave of a device.
use sector_device::{KeptCall, MemoryDevice};
use std::alloc::{AllocError, Global};
use store_images::images_after;

// All images are taken up to so many sectors that aren't durable.
const FEW: usize = 2;

// How many sectors were written by so many of the kept calls since the last sync that succeeded.
fn unsynced(done: &[KeptCall], calls: usize) -> usize {
    let mut count: usize = 0;
    for call in done.iter().take(calls) {
        match call {
            KeptCall::Write { old, .. } => {
                count = count.saturating_add(old.as_slice().len() / 512);
            }
            KeptCall::Sync { .. } => count = 0,
            KeptCall::Read => {}
            KeptCall::Failed => {}
        }
    }
    count
}

// So many flags by the bits of a number.
fn flags_of(alloc: Global, count: usize, number: u64) -> Result<Vec<bool>, AllocError> {
    let mut flags = Vec::new(alloc);
    let mut left = number;
    for _ in 0..count {
        flags.push(left % 2 == 1)?;
        left /= 2;
    }
    Ok(flags)
}

/// The images that a crash may leave behind so many of the kept calls, or so many of them by a
/// seed where a few sectors aren't durable. The error is want of memory.
pub fn images_behind(
    alloc: Global,
    device: &MemoryDevice,
    calls: usize,
    most: u64,
) -> Result<Vec<Vec<u8>>, AllocError> {
    let count = unsynced(&device.done, calls);
    if count > FEW {
        return images_after(alloc, device, calls, most);
    }
    let mut images = Vec::new(alloc);
    for number in 0..1u64 << count {
        let flags = flags_of(alloc, count, number)?;
        images.push(device.left_by(alloc, calls, &flags)?)?;
    }
    Ok(images)
}
