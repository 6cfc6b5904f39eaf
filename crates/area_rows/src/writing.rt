//! A page that is written to a device of five pages, and what a crash leaves of it.
use crate::rings::Step::{Commit, Seal, Update};
use crate::rings::{make, ring};
use log_area::LogArea;
use log_page::{PageFault, read_page};
use sector_device::{Device, MemoryDevice};
use std::alloc::{AllocError, Global};
use std::test::Fail;

/// The bytes of the device, and the LSN of the first entry of its ring.
pub const BYTES: usize = 20_480;

const FIRST: u64 = 6_152;

/// A device of old bytes, whose calls with these numbers fail, and a failed write puts three
/// sectors.
pub fn device(alloc: Global, failing: &[u64]) -> Result<MemoryDevice, AllocError> {
    let bytes = vec![in alloc; 0xffu8; BYTES]?;
    let mut device = MemoryDevice::new(alloc, bytes, failing.to_vec(alloc)?);
    device.tearing = 3;
    Ok(device)
}

/// Writes the next page, if there is one and the device has its place; whether it went well.
pub fn is_written(area: &mut LogArea, device: &mut MemoryDevice) -> bool {
    area.sealed() > 0 && area.sectors() <= device.sectors() && area.write_next(device).is_ok()
}

/// A page whose sectors end with these words, and 0xff at the other bytes.
fn page_ending(words: &[u16; 8]) -> [u8; 4096] {
    let mut page = [0xffu8; 4096];
    for sector in 0..8 {
        page[512 * sector + 510] = (words[sector] % 256) as u8;
        page[512 * sector + 511] = (words[sector] / 256) as u8;
    }
    page
}

/// Puts a page whose sectors end with these words at a place of the device; whether it went well.
pub fn is_put(device: &mut MemoryDevice, page: u64, words: &[u16; 8]) -> bool {
    let bytes = page_ending(words);
    page < 5
        && device.sectors() >= 40
        && device.write(8 * page, &bytes).is_ok()
        && device.sync().is_ok()
}

/// The words with which the sectors of a page of an image end.
pub fn words_of(image: &[u8], page: usize) -> [u16; 8] {
    let mut words = [0u16; 8];
    if image.len() != BYTES || 4 < page {
        return words;
    }
    for sector in 0..8 {
        let at = 4096 * page + 512 * sector + 510;
        words[sector] = u16::from(image[at]) + 256 * u16::from(image[at + 1]);
    }
    words
}

/// How many of so many writes of the next page went well.
pub fn written_of(area: &mut LogArea, device: &mut MemoryDevice, tries: usize) -> usize {
    let mut count: usize = 0;
    for _ in 0..tries {
        if is_written(area, device) {
            count = count.saturating_add(1);
        }
    }
    count
}

/// How many of so many syncs went well.
fn synced_of(area: &mut LogArea, device: &mut MemoryDevice, tries: usize) -> usize {
    let mut count: usize = 0;
    for _ in 0..tries {
        if area.sync(device).is_ok() {
            count = count.saturating_add(1);
        }
    }
    count
}

/// How many entries stand on the page in the ring by this image; none where it isn't whole.
fn entries_on(alloc: Global, image: &[u8]) -> Result<Option<usize>, AllocError> {
    if image.len() != BYTES {
        return Ok(None);
    }
    match read_page(alloc, image.split_at(16_384).1, 5, FIRST) {
        Ok(entries) => Ok(Some(entries.len())),
        Err(PageFault::Memory) => Err(AllocError),
        Err(_) => Ok(None),
    }
}

/// How many of the images by the first so many choices of eleven sectors hold the page.
pub fn holding(alloc: Global, device: &MemoryDevice, choices: usize) -> Result<usize, AllocError> {
    let mut count: usize = 0;
    for choice in 0..choices {
        let mut take = [false; 11];
        for sector in 0..11 {
            take[sector] = (choice >> sector) % 2 == 1;
        }
        let image = device.left_by(alloc, device.done.len(), &take)?;
        if entries_on(alloc, &image)? == Some(2) {
            count = count.saturating_add(1);
        }
    }
    Ok(count)
}

/// The calls that fail, how many writes and syncs are tried, how many of them went well, the LSN
/// behind the durable entries, and of 256 images those that hold the page.
struct Row(&'static [u64], (usize, usize), (usize, usize), u64, usize);

const ROWS: &[Row] = &[
    Row(&[], (1, 0), (1, 0), 0, 1),
    Row(&[], (1, 1), (1, 1), 6_292, 256),
    Row(&[], (2, 1), (1, 1), 6_292, 256),
    Row(&[1], (2, 1), (1, 1), 6_292, 256),
    Row(&[2], (1, 0), (0, 0), 0, 0),
    Row(&[2], (2, 0), (1, 0), 0, 1),
    Row(&[2], (2, 1), (1, 1), 6_292, 256),
    Row(&[3], (1, 1), (1, 0), 0, 1),
    Row(&[3], (1, 2), (1, 1), 6_292, 256),
    Row(&[1, 2], (2, 1), (0, 1), 0, 0),
];

#[test]
fn a_crash_leaves_a_page_or_none(rt: HostRuntime) -> Result<(), Fail> {
    let alloc = rt.alloc();
    for Row(failing, tries, wanted, durable, images) in ROWS {
        let mut device = device(alloc, failing)?;
        let Some(mut area) = ring(alloc, 5, 1)? else {
            panic!(rt; "five pages are no ring");
        };
        make(alloc, &mut area, &[Update(512), Commit, Seal])?;
        let done = written_of(&mut area, &mut device, tries.0);
        let synced = synced_of(&mut area, &mut device, tries.1);
        let found = (done, synced, area.durable(), holding(alloc, &device, 256)?);
        assert_eq!(rt;
            found,
            (wanted.0, wanted.1, *durable, *images),
            "{failing:?}"
        );
    }
    Ok(())
}
