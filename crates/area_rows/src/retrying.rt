//! A page whose write failed behind some of its sectors, and is tried again.
use crate::rings::Step::{Commit, Seal, Update};
use crate::rings::{make, ring};
use crate::writing::{BYTES, device, holding, written_of};
use std::test::Fail;

/// How many sectors of the ring's page are the same in two images, from its first one on.
fn same_sectors(first: &[u8], second: &[u8]) -> usize {
    if first.len() != BYTES || second.len() != BYTES {
        return 0;
    }
    for sector in 0..8 {
        let at = 16_384 + 512 * sector;
        if first[at..at + 512] != second[at..at + 512] {
            return sector;
        }
    }
    8
}

/// The sectors that a failed write puts, the calls that fail, the calls up to the last of them, and
/// of 2,048 images those that hold the page once a write went well.
struct Row(usize, &'static [u64], usize, usize);

const ROWS: &[Row] = &[
    Row(0, &[2], 2, 8),
    Row(1, &[2], 2, 12),
    Row(2, &[2], 2, 18),
    Row(3, &[2], 2, 27),
    Row(3, &[1, 3], 3, 27),
    Row(1, &[2, 3], 3, 14),
    Row(7, &[2], 2, 27),
    Row(8, &[2], 2, 27),
];

#[test]
fn a_page_is_sent_again(rt: HostRuntime) -> Result<(), Fail> {
    let alloc = rt.alloc();
    for Row(tearing, failing, calls, images) in ROWS {
        let mut device = device(alloc, failing)?;
        device.tearing = *tearing;
        let Some(mut area) = ring(alloc, 5, 1)? else {
            panic!(rt; "five pages are no ring");
        };
        make(alloc, &mut area, &[Update(512), Commit, Seal])?;
        let written = written_of(&mut area, &mut device, failing.len().saturating_add(1));
        let torn = device.left_by(alloc, *calls, &[true; 24])?;
        let whole = device.left_by(alloc, device.done.len(), &[true; 8])?;
        let found = (
            written,
            same_sectors(&torn, &whole),
            holding(alloc, &device, 2048)?,
        );
        assert_eq!(rt; found, (1, *tearing, *images), "{tearing} {failing:?}");
        let synced = (
            area.sync(&mut device).is_ok(),
            holding(alloc, &device, 2048)?,
        );
        assert_eq!(rt; synced, (true, 2048), "{tearing} {failing:?}");
    }
    Ok(())
}
