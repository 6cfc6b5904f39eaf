//! What recovery makes of the images that a crash may leave.
use crate::devices::place;
use block_view::{View, ViewFault};
use device_view::{DeviceView, piece_room};
use disk_model::{Block, Body};
use log_recovery::{RecoveredView, RecoveryFault, places_of, recover, recover_view};
use sector_device::{KeptCall, MemoryDevice};
use std::alloc::{AllocError, Global};

/// So many bytes of a block from this one on.
#[derive(Clone, Copy, Debug)]
pub struct Watch(pub Block, pub usize, pub usize);

/// The one byte that stands in all places that are watched of a block; none where there are
/// several, or the block is torn.
pub type Sight = Option<u8>;

// All images are tried up to so many sectors that aren't synced, and of more than those so many
// that a seed chooses.
const FEW: usize = 12;

const MANY: u64 = 1000;

// How many sectors were written by so many kept calls since the last sync that succeeded.
fn unsynced_after(device: &MemoryDevice, calls: usize) -> usize {
    let mut count: usize = 0;
    for call in device.done.iter().take(calls) {
        match call {
            KeptCall::Write {
                at: _,
                first: _,
                old,
            } => {
                count = count.saturating_add(old.as_slice().len() / 512);
            }
            KeptCall::Sync { at: _ } => count = 0,
            KeptCall::Read => {}
            KeptCall::Failed => {}
        }
    }
    count
}

// How many sectors were written since the last sync that succeeded.
fn unsynced(device: &MemoryDevice) -> usize {
    unsynced_after(device, device.done.len())
}

// So many images are tried, or one where there is no other.
fn images_of(device: &MemoryDevice, count: u64) -> u64 {
    if unsynced(device) == 0 { 1 } else { count }
}

// The next state of a generator.
fn next(state: u64) -> u64 {
    state
        .wrapping_mul(6_364_136_223_846_793_005)
        .wrapping_add(1_442_695_040_888_963_407)
}

// So many flags by the bits of a number.
fn flags_of(alloc: Global, count: usize, number: u64) -> Result<Vec<bool>, AllocError> {
    let mut flags = Vec::new(alloc);
    let mut left = number;
    for _ in 0..count {
        flags.push(left % 2 == 1)?;
        left /= 2;
    }
    Ok(flags)
}

// So many flags by a seed, which tells how many sixteenths of them are set: the first of 17 seeds
// sets none, and the fourth all.
fn flags_by(alloc: Global, count: usize, seed: u64) -> Result<Vec<bool>, AllocError> {
    let mut flags = Vec::new(alloc);
    let mut state = next(next(seed));
    let part = seed.wrapping_mul(11) % 17;
    for _ in 0..count {
        state = next(state);
        flags.push(state >> 60 < part)?;
    }
    Ok(flags)
}

// What is seen of a body.
fn sight(body: &Body, at: usize, count: usize) -> Sight {
    if body.torn() {
        return None;
    }
    let mut seen = None;
    for byte in body.bytes().iter().skip(at).take(count) {
        match seen {
            None => seen = Some(*byte),
            Some(first) => {
                if first != *byte {
                    return None;
                }
            }
        }
    }
    seen
}

fn push(all: &mut Vec<Sight>, sight: Sight) -> Result<(), AllocError> {
    all.push(sight)?;
    Ok(())
}

// What is seen of a view.
fn sights<V: View>(
    alloc: Global,
    view: &mut V,
    watched: &[Watch],
) -> Result<Vec<Sight>, RecoveryFault> {
    let mut all = Vec::new(alloc);
    let mut body = Body::empty(alloc)?;
    for Watch(block, at, count) in watched {
        view.body(*block, &mut body)?;
        push(&mut all, sight(&body, *at, *count))?;
    }
    Ok(all)
}

/// What is seen of an image once it is recovered, by a log of so many pages; nothing of one whose
/// last sector isn't whole. The error is want of memory, or why recovery refuses the image.
pub fn recovered(
    alloc: Global,
    pages: u32,
    image: Vec<u8>,
    watched: &[Watch],
) -> Result<Vec<Sight>, RecoveryFault> {
    if image.len() % 512 != 0 {
        return Ok(Vec::new(alloc));
    }
    let place = place(alloc, pages)?;
    let mut device = MemoryDevice::new(alloc, image, Vec::new(alloc));
    let mut room = piece_room(alloc)?;
    let mut view = DeviceView::new(&mut room, &mut device);
    let found = recover_view(alloc, &mut view, &place)?;
    let places = places_of(alloc, &found.blocks.bodies)?;
    let mut view = RecoveredView::new(&mut view, &found.blocks.bodies, &places);
    sights(alloc, &mut view, watched)
}

/// What is seen of the image by these flags, as `MemoryDevice::left_by` takes them, once it is
/// recovered. The error is want of memory, or why recovery refuses the image.
pub fn left_by(
    alloc: Global,
    pages: u32,
    device: &MemoryDevice,
    take: &[bool],
    watched: &[Watch],
) -> Result<Vec<Sight>, RecoveryFault> {
    let image = device.left_by(alloc, device.done.len(), take)?;
    recovered(alloc, pages, image, watched)
}

/// What is seen of some images by the seeds from 0 on, each outcome once. The first image has none
/// of the sectors that aren't synced, and the fourth all. The error is want of memory, or why
/// recovery refuses an image.
pub fn left_by_seed(
    alloc: Global,
    pages: u32,
    device: &MemoryDevice,
    count: u64,
    watched: &[Watch],
) -> Result<Vec<Vec<Sight>>, RecoveryFault> {
    let mut all = Vec::new(alloc);
    for seed in 0..images_of(device, count) {
        let flags = flags_by(alloc, unsynced(device), seed)?;
        put(&mut all, left_by(alloc, pages, device, &flags, watched)?)?;
    }
    Ok(all)
}

/// Some images by the seeds from 0 on, so many, that a crash may leave behind the first of the kept
/// calls, or one where all that they wrote is durable. The error is want of memory.
pub fn images_after(
    alloc: Global,
    device: &MemoryDevice,
    calls: usize,
    count: u64,
) -> Result<Vec<Vec<u8>>, AllocError> {
    let sectors = unsynced_after(device, calls);
    let mut images = Vec::new(alloc);
    for seed in 0..if sectors == 0 { 1 } else { count } {
        let flags = flags_by(alloc, sectors, seed)?;
        images.push(device.left_by(alloc, calls, &flags)?)?;
    }
    Ok(images)
}

// Puts what is seen among the rest, unless it is there.
fn put(all: &mut Vec<Vec<Sight>>, sights: Vec<Sight>) -> Result<(), AllocError> {
    for other in all.iter() {
        if other.as_slice() == sights.as_slice() {
            return Ok(());
        }
    }
    all.push(sights)?;
    Ok(())
}

/// What is seen of each image that a crash may leave now, or of some by a seed where there are
/// many: each outcome once. The error is want of memory, or why recovery refuses an image.
pub fn left(
    alloc: Global,
    pages: u32,
    device: &MemoryDevice,
    watched: &[Watch],
) -> Result<Vec<Vec<Sight>>, RecoveryFault> {
    let count = unsynced(device);
    if FEW < count {
        return left_by_seed(alloc, pages, device, MANY, watched);
    }
    let mut all = Vec::new(alloc);
    for number in 0..1u64 << count {
        let flags = flags_of(alloc, count, number)?;
        put(&mut all, left_by(alloc, pages, device, &flags, watched)?)?;
    }
    Ok(all)
}

// Where the next restart page goes by this image.
fn restart_of(alloc: Global, pages: u32, image: Vec<u8>) -> Result<Option<u32>, RecoveryFault> {
    if image.len() % 512 != 0 {
        return Ok(None);
    }
    let place = place(alloc, pages)?;
    let mut device = MemoryDevice::new(alloc, image, Vec::new(alloc));
    Ok(Some(recover(alloc, &mut device, &place)?.restart))
}

/// Whether some of so many images by the seeds from 0 on name the first, and some the second of the
/// two places as that of the next restart page: the other one holds the page by which such an image
/// is recovered. The error is want of memory, or why recovery refuses an image.
pub fn restarts_left(
    alloc: Global,
    pages: u32,
    device: &MemoryDevice,
    count: u64,
) -> Result<(bool, bool), RecoveryFault> {
    let mut named = (false, false);
    for seed in 0..images_of(device, count) {
        let flags = flags_by(alloc, unsynced(device), seed)?;
        let image = device.left_by(alloc, device.done.len(), &flags)?;
        match restart_of(alloc, pages, image)? {
            Some(0) => named.0 = true,
            Some(_) => named.1 = true,
            None => {}
        }
    }
    Ok(named)
}

/// How many of the device's writes began at this sector.
pub fn times_written(device: &MemoryDevice, sector: u64) -> u64 {
    let mut times = 0u64;
    for call in device.done.iter() {
        match call {
            KeptCall::Write {
                at: _,
                first,
                old: _,
            } => {
                if *first == sector {
                    times = times.saturating_add(1);
                }
            }
            KeptCall::Sync { at: _ } => {}
            KeptCall::Read => {}
            KeptCall::Failed => {}
        }
    }
    times
}

/// The bytes of so many sectors as reads give them now. The error is want of memory.
pub fn bytes_at(
    alloc: Global,
    device: &MemoryDevice,
    first: usize,
    count: usize,
) -> Result<Vec<u8>, AllocError> {
    let all = vec![in alloc; true; unsynced(device)]?;
    let image = device.left_by(alloc, device.done.len(), &all)?;
    let mut bytes = Vec::new(alloc);
    for byte in image
        .iter()
        .skip(first.saturating_mul(512))
        .take(count.saturating_mul(512))
    {
        bytes.push(*byte)?;
    }
    Ok(bytes)
}
