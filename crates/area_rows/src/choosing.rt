//! Three pages that are written before a sync: of the images that a crash leaves of their 24
//! sectors, some that a seed chooses.
use crate::rings::Step::{Commit, Seal, Update};
use crate::rings::{make, ring};
use crate::writing::written_of;
use log_page::{PageFault, read_page};
use sector_device::MemoryDevice;
use std::alloc::{AllocError, Global};
use std::test::Fail;

/// The bytes of the device, of eight pages.
const BYTES: usize = 32_768;

/// The LSN of the first entry of the ring's first page.
const FIRST: u64 = 10_248;

/// The next state of a generator.
fn next(state: u64) -> u64 {
    state
        .wrapping_mul(6_364_136_223_846_793_005)
        .wrapping_add(1_442_695_040_888_963_407)
}

/// Sets about 15 of 16 flags; the generator's state behind them.
fn choose(state: u64, take: &mut [bool; 24]) -> u64 {
    let mut state = state;
    for sector in 0..24 {
        state = next(state);
        take[sector] = state >> 60 > 0;
    }
    state
}

/// How many pages from the ring's first one on are whole by these flags, the newest page's first.
fn front_by(take: &[bool; 24]) -> usize {
    for page in 0..3 {
        for sector in 0..8 {
            if !take[16 - 8 * page + sector] {
                return page;
            }
        }
    }
    3
}

/// How many entries a page of the ring has by this image; none where it isn't whole.
fn entries_on(alloc: Global, image: &[u8], page: usize) -> Result<usize, AllocError> {
    if image.len() != BYTES || 3 < page {
        return Ok(0);
    }
    let raw = image.split_at(16_384 + 4096 * page).1.split_at(4096).0;
    match read_page(alloc, raw, 8, FIRST + 512 * page as u64) {
        Ok(entries) => Ok(entries.len()),
        Err(PageFault::Memory) => Err(AllocError),
        Err(_) => Ok(0),
    }
}

/// How many pages from the ring's first one on have their two entries by this image.
fn front_of(alloc: Global, image: &[u8]) -> Result<usize, AllocError> {
    for page in 0..3 {
        if entries_on(alloc, image, page)? != 2 {
            return Ok(page);
        }
    }
    Ok(3)
}

/// Of 1,000 images those with a front of 0, 1, 2 and 3 pages, and those with another front than
/// their flags say.
fn fronts(
    alloc: Global,
    device: &MemoryDevice,
    seed: u64,
) -> Result<([usize; 4], usize), AllocError> {
    let mut state = seed;
    let mut counts: [usize; 4] = [0; 4];
    let mut wrong: usize = 0;
    for _ in 0..1000 {
        let mut take = [false; 24];
        state = choose(state, &mut take);
        let image = device.left_by(alloc, device.done.len(), &take)?;
        let front = front_of(alloc, &image)?;
        if front != front_by(&take) {
            wrong = wrong.saturating_add(1);
        }
        counts[front.min(3)] = counts[front.min(3)].saturating_add(1);
    }
    Ok((counts, wrong))
}

/// The seed, and of 1,000 images those with a front of 0, 1, 2 and 3 pages.
struct Row(u64, [usize; 4]);

const ROWS: &[Row] = &[Row(1, [375, 275, 129, 221]), Row(37, [392, 244, 148, 216])];

#[test]
fn a_crash_leaves_a_front_of_the_pages(rt: HostRuntime) -> Result<(), Fail> {
    let alloc = rt.alloc();
    let bytes = vec![in alloc; 0xffu8; BYTES]?;
    let mut device = MemoryDevice::new(alloc, bytes, Vec::new(alloc));
    let Some(mut area) = ring(alloc, 8, 1)? else {
        panic!(rt; "eight pages are no ring");
    };
    for _ in 0..3 {
        make(alloc, &mut area, &[Update(512), Commit, Seal])?;
    }
    assert_eq!(rt;
        (area.room(), written_of(&mut area, &mut device, 3)),
        (1, 3)
    );
    for Row(seed, counts) in ROWS {
        assert_eq!(rt; fronts(alloc, &device, *seed)?, (*counts, 0), "{seed}");
    }
    Ok(())
}
