//! Where the pages of a log begin.
ghost use Rattle.std.specs.Prelude.{◌≡◌, ℕ, ◌+◌, ◌*◌, ◌^◌, ◌<◌, Some, length, map, replicate, IfOk};
ghost use Rattle.std.specs.List.{range_with_len};
ghost use Rattle.log_reading.specs.LogPages.{sector_in};
ghost use Rattle.log_reading.specs.Rings.{IsRingPlace};
ghost use Rattle.log_area.specs.Areas.{no_page, page_first};

use crate::page::RingPage;
use log_reading::{Extent, LogPlace};
use std::alloc::{AllocError, Global};

// The sector with this number of those that the runs name in order, where that lies below a limit.
fn sector_in(runs: &[Extent], n: u64, limit: u64) -> u64
    ensures { (s : ℕ) → s < limit → sector_in runs.now n ≡ Some s → result ≡ s }
{
    let mut left = n;
    for run in runs {
        if left < run.sectors {
            return run.first.wrapping_add(left).min(limit);
        }
        left -= run.sectors;
    }
    limit
}

// Where the page with this number begins on the device.
fn page_first(place: &LogPlace, page: u64) -> u64
    requires ring { IsRingPlace place.now }
    requires inside { page < place.now.pages }
    ensures { result ≡ page_first place.now page }
{
    sector_in(place.runs.as_slice(), 8 * page, place.device)
}

/// Where each page begins on the device. The error is want of memory. Time is linear in the pages
/// and the runs before them.
pub fn page_firsts(alloc: Global, place: &LogPlace) -> Result<Vec<u64>, AllocError>
    requires { IsRingPlace place.now }
    ensures { IfOk result (λ firsts. firsts.items ≡ map (page_first place.now) (range_with_len 0 place.now.pages)) }
{
    let mut firsts = Vec::new(alloc);
    for page in 0..place.pages {
        firsts.push(page_first(place, page))?;
    }
    Ok(firsts)
}

/// So many pages without entries. The error is want of memory.
pub fn empty_pages(alloc: Global, count: u64) -> Result<Vec<RingPage>, AllocError>
    ensures { IfOk result (λ pages. pages.items ≡ replicate count no_page) }
{
    let mut pages = Vec::new(alloc);
    for _ in 0..count {
        pages.push(RingPage::new(alloc)?)?;
    }
    Ok(pages)
}
