//! A restart page that is tried again after calls of the device that failed.
use crate::naming::{goes_round, is_named, restart_at, said};
use crate::rings::Step::{Commit, Seal, Update};
use crate::rings::{make, ring};
use crate::writing::{device, is_put, is_written, words_of};
use host_base::Memory;
use log_area::{LogArea, Restart, SentRestart};
use sector_device::MemoryDevice;
use std::alloc::{AllocError, Global};
use std::test::Fail;

/// The words with which the sectors at the restart page's place end.
const WORDS: [u16; 8] = [1, 2, 3, 1, 5, 1, 1, 1];

/// The first restart page behind the ring's page.
fn first_page(clean: bool) -> Restart {
    Restart {
        major: 1,
        minor: 1,
        current: 10_248,
        oldest: 10_248,
        opens: 1,
        bytes: 20_480,
        used: true,
        clean,
        own: true,
    }
}

/// It, as it was sent with this check word.
fn sent_by(check: Option<u16>, clean: bool) -> Option<SentRestart> {
    match check {
        Some(check) => Some(SentRestart {
            page: first_page(clean),
            check,
        }),
        None => None,
    }
}

/// Puts the words, and fills and writes the ring's page by five calls; whether each went well.
fn is_begun(
    alloc: Global,
    area: &mut LogArea,
    device: &mut MemoryDevice,
) -> Result<bool, AllocError> {
    let full = make(alloc, area, &[Update(512), Commit, Seal])?.is_some();
    let put = !full && is_put(device, 0, &WORDS);
    Ok(put && is_written(area, device) && area.sync(device).is_ok())
}

/// How many of so many writes of the restart page went well.
fn named_of(area: &mut LogArea, device: &mut MemoryDevice, tries: usize, clean: bool) -> usize {
    let mut count: usize = 0;
    for _ in 0..tries {
        if is_named(area, device, clean) {
            count = count.saturating_add(1);
        }
    }
    count
}

/// How many of the images by 2,048 choices of eleven sectors hold the restart page.
fn naming(alloc: Global, device: &MemoryDevice, clean: bool) -> Result<usize, AllocError> {
    let mut count: usize = 0;
    for choice in 0..2048 {
        let mut take = [false; 11];
        for sector in 0..11 {
            take[sector] = (choice >> sector) % 2 == 1;
        }
        let image = device.left_by(alloc, device.done.len(), &take)?;
        if restart_at(&image, 0) == Ok(first_page(clean)) {
            count = count.saturating_add(1);
        }
    }
    Ok(count)
}

/// The calls that fail, whether the log is closed, how many tries fail, the check word of what they sent, the calls up to the
/// next try's end, and of 2,048 images those that hold the restart page then.
struct Row(&'static [u64], bool, usize, Option<u16>, u64, usize);

const ROWS: &[Row] = &[
    Row(&[], false, 0, None, 7, 8),
    Row(&[], true, 0, None, 7, 8),
    Row(&[6], false, 1, None, 8, 8),
    Row(&[7], false, 1, Some(4), 8, 27),
    Row(&[6, 8], false, 2, Some(4), 9, 27),
    Row(&[6, 8], true, 2, Some(4), 9, 27),
    Row(&[7, 8], true, 2, Some(4), 9, 27),
];

/// A ring whose page is written and synced by five calls, and the device, whose calls with these
/// numbers fail; none where one of the five went wrong.
fn begun(alloc: Global, failing: &[u64]) -> Result<Option<(LogArea, MemoryDevice)>, Memory> {
    let mut device = device(alloc, failing)?;
    let Some(mut area) = ring(alloc, 5, 1)? else {
        return Ok(None);
    };
    if is_begun(alloc, &mut area, &mut device)? {
        return Ok(Some((area, device)));
    }
    Ok(None)
}

#[test]
fn a_restart_page_is_sent_again(rt: HostRuntime) -> Result<(), Fail> {
    let alloc = rt.alloc();
    for Row(failing, clean, tries, check, calls, _) in ROWS {
        let Some((mut area, mut device)) = begun(alloc, failing)? else {
            panic!(rt; "the ring isn't written");
        };
        let early = named_of(&mut area, &mut device, *tries, *clean);
        assert_eq!(rt;
            (early, area.sent()),
            (0, sent_by(*check, *clean)),
            "{failing:?}"
        );
        let named = is_named(&mut area, &mut device, *clean);
        assert_eq!(rt; (named, device.calls), (true, *calls), "{failing:?}");
        let image = device.left_by(alloc, device.done.len(), &[true; 8])?;
        let found = (restart_at(&image, 0), words_of(&image, 0));
        assert_eq!(rt; found, (Ok(first_page(*clean)), [4; 8]), "{failing:?}");
    }
    Ok(())
}

#[test]
fn a_crash_leaves_a_restart_page_or_none(rt: HostRuntime) -> Result<(), Fail> {
    let alloc = rt.alloc();
    for Row(failing, clean, tries, _, _, images) in ROWS {
        let Some((mut area, mut device)) = begun(alloc, failing)? else {
            panic!(rt; "the ring isn't written");
        };
        let named = named_of(&mut area, &mut device, tries.saturating_add(1), *clean);
        let before = (named, area.room(), naming(alloc, &device, *clean)?);
        assert_eq!(rt; before, (1, 0, *images), "{failing:?}");
        let synced = area.sync(&mut device).is_ok();
        let after = (synced, area.room(), naming(alloc, &device, *clean)?);
        assert_eq!(rt; after, (true, 1, 2048), "{failing:?}");
    }
    Ok(())
}

/// Of the images by the first so many choices of eleven sectors, those of which the first restart
/// page is chosen, those of which the second one is, and all others.
fn chosen_of(
    alloc: Global,
    device: &MemoryDevice,
    choices: usize,
) -> Result<[usize; 3], AllocError> {
    let mut counts: [usize; 3] = [0, 0, 0];
    for choice in 0..choices {
        let mut take = [false; 11];
        for sector in 0..11 {
            take[sector] = (choice >> sector) % 2 == 1;
        }
        let image = device.left_by(alloc, device.done.len(), &take)?;
        let place = match said(&image) {
            Some((_, 10_248, 1)) => 0,
            Some((_, 14_344, 2)) => 1,
            _ => 2,
        };
        counts[place] = counts[place].saturating_add(1);
    }
    Ok(counts)
}

/// The calls that fail, how many tries of the second restart page, how many images, and of these
/// how many have the first one chosen, the second one, and another or none.
struct Torn(&'static [u64], usize, usize, [usize; 3]);

const TORN: &[Torn] = &[
    Torn(&[], 0, 256, [256, 0, 0]),
    Torn(&[], 1, 256, [255, 1, 0]),
    Torn(&[10], 1, 256, [256, 0, 0]),
    Torn(&[11], 1, 256, [256, 0, 0]),
    Torn(&[11], 2, 2048, [2021, 27, 0]),
    Torn(&[11, 12], 3, 2048, [2021, 27, 0]),
];

#[test]
fn a_torn_restart_page_is_passed_over(rt: HostRuntime) -> Result<(), Fail> {
    let alloc = rt.alloc();
    for Torn(failing, tries, choices, counts) in TORN {
        let mut device = device(alloc, failing)?;
        let Some(mut area) = ring(alloc, 5, 1)? else {
            panic!(rt; "five pages are no ring");
        };
        let round = goes_round(alloc, &mut area, &mut device)?;
        make(alloc, &mut area, &[Commit, Seal])?;
        let written = is_written(&mut area, &mut device) && area.sync(&mut device).is_ok();
        named_of(&mut area, &mut device, *tries, false);
        let found = (round, written, chosen_of(alloc, &device, *choices)?);
        assert_eq!(rt; found, (true, true, *counts), "{failing:?} {tries}");
    }
    Ok(())
}
