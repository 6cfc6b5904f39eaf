//! The greatest LSN of a log.
ghost use Rattle.std.specs.Prelude.{◌≡◌, ◌∷◌, [], ◌^◌, ◌<◌, ◌≤◌, Some, MatchOption, IfOk, IfErr, IfSome, length};
ghost use Rattle.std.specs.Option.{option_map};
ghost use Rattle.log_page.specs.LiveLogs.{said_lsn, greater, greatest_lsn};
ghost use Rattle.block_view.specs.Views.{AsksView};
ghost use Rattle.log_reading.specs.Views.{NeverForeign, recovery_cause};
ghost use Rattle.log_reading.specs.LogPages.{sector_in, sector_below, sector_bytes, page_in, IsSmall, IsLogPlace};
ghost use Rattle.log_reading.specs.Laps.{is_read, NoneBetween, IsNext, IsBehind};

use crate::fault::RecoveryFault;
use crate::pages::read_sector;
use block_view::View;
use disk_model::{Body, u64_at};
use log_page::{Extent, LogPlace, Restart};

/// A page that begins on the device, and the sector where it begins.
#[derive(Clone, Copy)]
struct PageStart {
    page: u64,
    sector: u64,
}

/// A page, and how many sectors of the runs that are left lie ahead of it.
#[derive(Clone, Copy)]
struct Sought {
    page: u64,
    ahead: u64,
}

// The sector with this number of a run, if it has that one and the device has it too.
fn sector_on(run: &Extent, n: u64, device: u64) -> Option<u64>
    requires { IsSmall run.now }
    ensures value { result ≡ sector_below device (sector_in (run.now ∷ []) n) }
{
    if n >= run.sectors {
        return None;
    }
    let sector = run.first + n;
    if sector < device { Some(sector) } else { None }
}

// The first page from this one on that begins after the next run, which has so many sectors.
fn after(sought: Sought, sectors: u64) -> Sought
    requires { sought.page < 2 ^ 52 }
    ensures { IsBehind sectors sought result }
{
    if sectors <= sought.ahead {
        let ahead = sought.ahead - sectors;
        return Sought {
            page: sought.page,
            ahead,
        };
    }
    let rest = sectors - sought.ahead;
    Sought {
        page: sought.page + rest.div_ceil(8),
        ahead: (8 - rest % 8) % 8,
    }
}

// Whether a page is one of the log's, and begins below the initialised size.
fn is_read(place: &LogPlace, page: u64) -> bool
    requires { IsLogPlace place.now }
    ensures value { result ≡ is_read place.now page }
{
    page < place.pages && 4096 * page < place.initialised
}

// The next page from this one on that begins on the device. Linear in the runs.
fn next_page(place: &LogPlace, page: u64) -> Option<PageStart>
    requires place { IsLogPlace place.now }
    requires small { page ≤ 2 ^ 52 }
    ensures next { MatchOption result (NoneBetween place.now page place.now.pages) (IsNext place.now page) }
{
    let ahead = 8 * page;
    let mut sought = Sought { page, ahead };
    for run in place.runs.as_slice() {
        if !is_read(place, sought.page) {
            return None;
        }
        if let Some(sector) = sector_on(run, sought.ahead, place.device) {
            let page = sought.page;
            return Some(PageStart { page, sector });
        }
        sought = after(sought, run.sectors);
    }
    None
}

// The LSN that a page says by its first sector.
fn said_by(sector: &[u8]) -> Option<u64>
    requires { length sector.now ≡ 512 }
    ensures value { result ≡ said_lsn sector.now }
{
    if sector.starts_with(b"RCRD") {
        Some(u64_at(sector, 0x08))
    } else {
        None
    }
}

// The LSN that a page says that begins at this sector, of which so many bytes are initialised.
fn said_at<V: View>(
    view: &mut V,
    first: u64,
    valid: u64,
    body: &mut Body,
) -> Result<Option<u64>, RecoveryFault>
    ensures value { IfSome (V.content view.old) (λ c. IfOk result (λ lsn. lsn ≡ said_lsn (sector_bytes c valid (Some first)))) }
    ensures never { IfErr result NeverForeign }
    ensures kept { AsksView V.content V.kept V.faults recovery_cause view.old view.new result }
{
    read_sector(view, first, valid, body)?;
    Ok(said_by(body.bytes()))
}

// The current LSN of the chosen restart page.
fn current_of(chosen: Option<Restart>) -> Option<u64>
    ensures value { result ≡ option_map (λ r. r.current) chosen }
{
    chosen.map(|restart| restart.current)
}

// The greater one of two LSNs that may be missing.
fn greater(a: Option<u64>, b: Option<u64>) -> Option<u64>
    ensures value { result ≡ greater a b }
{
    match (a, b) {
        (Some(a), Some(b)) => Some(a.max(b)),
        (Some(a), None) => Some(a),
        (None, b) => b,
    }
}

/// The greatest of the chosen restart page's current LSN and the LSNs that the pages of the ring
/// say, whole or not; none where there is neither. It reads the first sector of each page that lies
/// on the device into `body`, which is room for a body.
///
/// - [`RecoveryFault::Fault`]: the view failed. The other error is want of memory.
///
/// Time is linear in the pages of the log that lie on the device, and for each in the log's runs.
pub fn greatest_lsn<V: View>(
    view: &mut V,
    place: &LogPlace,
    chosen: Option<Restart>,
    body: &mut Body,
) -> Result<Option<u64>, RecoveryFault>
    requires place { IsLogPlace place.now }
    ensures value { IfSome (V.content view.old) (λ c. IfOk result (λ lsn. lsn ≡ greatest_lsn place.now.pages (page_in c place.now) chosen)) }
    ensures never { IfErr result NeverForeign }
    ensures kept { AsksView V.content V.kept V.faults recovery_cause view.old view.new result }
{
    let mut greatest = current_of(chosen);
    let mut page = 4;
    while let Some(next) = next_page(place, page) {
        let valid = place.initialised - 4096 * next.page;
        let said = said_at(view, next.sector, valid, body)?;
        greatest = greater(greatest, said);
        page = next.page + 1;
    }
    Ok(greatest)
}
