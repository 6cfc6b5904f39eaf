//! A ring of one page that goes round through checkpoints, and the restart pages that name its
//! oldest places.
ghost use Rattle.std.specs.Prelude.{◌≡◌, IsTrue, IfSome};

use crate::rings::Step::{Commit, Seal, Update};
use crate::rings::{make, ring};
use crate::writing::{BYTES, device, is_written};
use log_area::LogArea;
use log_page::{PageFault, Restart, chosen};
use sector_device::{Device, MemoryDevice};
use std::alloc::{AllocError, Global};
use std::test::Fail;

/// Whether the restart page that was sent, if there is one, names this place with this flag.
fn is_again(area: &LogArea, oldest: u64, clean: bool) -> bool
    ensures { IsTrue result → IfSome area.now.sent (λ s. (s.page.oldest ≡ oldest) × (s.page.clean ≡ clean)) }
{
    match area.sent() {
        Some(sent) => sent.page.oldest == oldest && sent.page.clean == clean,
        None => true,
    }
}

/// Writes a restart page that names the place behind the last entry, perhaps of a closed log;
/// whether it went well.
pub fn is_named(area: &mut LogArea, device: &mut MemoryDevice, clean: bool) -> bool {
    let oldest = area.begin_checkpoint();
    if area.awaits_sync() || !is_again(area, oldest, clean) || !area.may_name(oldest) {
        return false;
    }
    area.has_lap(0x58)
        && area.sectors() <= device.sectors()
        && area.write_restart(device, oldest, clean).is_ok()
}

/// Fills, writes and frees the ring's page; whether each call went well.
pub fn goes_round(
    alloc: Global,
    area: &mut LogArea,
    device: &mut MemoryDevice,
) -> Result<bool, AllocError> {
    if make(alloc, area, &[Update(512), Commit, Seal])?.is_some() {
        return Ok(false);
    }
    let written = is_written(area, device) && area.sync(device).is_ok();
    Ok(written && is_named(area, device, false) && area.sync(device).is_ok())
}

/// What a restart page of an image says.
pub fn restart_at(image: &[u8], page: usize) -> Result<Restart, PageFault> {
    if image.len() != BYTES || 1 < page {
        return Err(PageFault::NotWhole);
    }
    Restart::read(image.split_at(4096 * page).1.split_at(4096).0)
}

/// The current LSN, the oldest one and the open count of the chosen restart page of an image.
pub fn said(image: &[u8]) -> Option<(u64, u64, u32)> {
    let restart = chosen(restart_at(image, 0), restart_at(image, 1))?;
    Some((restart.current, restart.oldest, restart.opens))
}

/// How often the ring goes round, the free pages then, and what the chosen restart page says.
struct Row(usize, u64, Option<(u64, u64, u32)>);

/// The LSNs of the page's first entries, from the second lap on.
const ROWS: &[Row] = &[
    Row(0, 1, None),
    Row(1, 1, Some((10_248, 10_248, 1))),
    Row(2, 1, Some((14_344, 14_344, 2))),
    Row(3, 1, Some((18_440, 18_440, 3))),
];

#[test]
fn a_ring_goes_round(rt: HostRuntime) -> Result<(), Fail> {
    let alloc = rt.alloc();
    for Row(rounds, room, wanted) in ROWS {
        let mut device = device(alloc, &[])?;
        let Some(mut area) = ring(alloc, 5, 1)? else {
            panic!(rt; "five pages are no ring");
        };
        for round in 0..*rounds {
            assert!(rt; goes_round(alloc, &mut area, &mut device)?, "{round}");
        }
        let image = device.left_by(alloc, device.done.len(), &[])?;
        assert_eq!(rt; (area.room(), said(&image)), (*room, *wanted), "{rounds}");
    }
    Ok(())
}
