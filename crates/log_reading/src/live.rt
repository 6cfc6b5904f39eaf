//! The live log, read page by page.
ghost use Rattle.std.specs.Prelude.{◌≡◌, ◌+◌, ◌*◌, ◌<◌, ◌≤◌, ◌^◌, true, [], All, None, IfOk, IfErr, IfSome};
ghost use Rattle.log_page.specs.log_model.Entries.{FitsEntry};
ghost use Rattle.log_page.specs.Places.{lap_of, page_of, page_lsn, is_in_ring, page_after, lap_after};
ghost use Rattle.log_page.specs.RecordPages.{is_whole_page, page_reading, AppendsPage};
ghost use Rattle.log_page.specs.LiveLogs.{live_log, start_in_page};
ghost use Rattle.block_view.specs.Views.{AsksView};
ghost use Rattle.log_reading.specs.Views.{NeverForeign, recovery_cause};
ghost use Rattle.log_reading.specs.LogPages.{page_in, IsLogPlace};
ghost use Rattle.log_reading.specs.Live.{reading_of};

use crate::fault::RecoveryFault;
use crate::pages::read_page;
use block_view::View;
use disk_model::Body;
use log_page::{Entry, LogPlace, PageFault, append_at, is_in_ring, lap_of, offset_of};
use std::alloc::{AllocError, Global};

/// The entries of a log that was read.
#[derive(Debug, Drop)]
pub struct LiveLog {
    /// In order, up to the first page that isn't whole at its place, or up to the first entry that
    /// isn't one of this host.
    pub entries: Vec<Entry>,
    /// The LSN of that entry's place.
    pub foreign: Option<u64>,
}

// Where a walk round the ring stands: an offset in a page of it, in a lap.
#[derive(Clone, Copy)]
struct Position {
    lap: u64,
    page: u64,
    from: usize,
}

impl Position {
    // Where entries are read from this LSN on.
    fn first(pages: u64, oldest: u64) -> Position
        requires small { pages < 2 ^ 52 }
        requires ring { is_in_ring pages oldest ≡ true }
        ensures value { result ≡ record { lap = lap_of pages oldest; page = page_of pages oldest; from = start_in_page pages oldest } }
        ensures begun { 4 ≤ result.page }
        ensures inside { result.page < pages }
        ensures place { 0x40 ≤ result.from }
        ensures near { result.from ≤ 4096 }
        ensures low { result.lap < 2 ^ 63 }
    {
        let offset = offset_of(pages, oldest);
        Position {
            lap: lap_of(pages, oldest),
            page: offset / 4096,
            from: ((offset % 4096) as usize).max(0x40),
        }
    }

    // The front of the page after.
    fn after(self, pages: u64) -> Position
        requires small { pages < 2 ^ 52 }
        requires begun { 4 ≤ self.page }
        requires inside { self.page < pages }
        requires low { self.lap < 2 ^ 63 + 2 ^ 52 }
        ensures value { result ≡ record { lap = lap_after pages self.lap self.page; page = page_after pages self.page; from = 0x40 } }
        ensures begun { 4 ≤ result.page }
        ensures inside { result.page < pages }
        ensures low { result.lap ≤ self.lap + 1 }
    {
        let from = 0x40;
        if self.page + 1 == pages {
            Position {
                lap: self.lap + 1,
                page: 4,
                from,
            }
        } else {
            Position {
                lap: self.lap,
                page: self.page + 1,
                from,
            }
        }
    }
}

// Room for a page, and for the body that it is read by.
#[derive(Drop)]
struct Room {
    body: Body,
    page: Vec<u8>,
}

impl Room {
    fn new(alloc: Global) -> Result<Room, AllocError> {
        let body = Body::empty(alloc)?;
        let page = Vec::new(alloc);
        Ok(Room { body, page })
    }
}

// Appends the entries of the page at a position, or says why there are no more.
fn append_page<V: View>(
    alloc: Global,
    view: &mut V,
    place: &LogPlace,
    at: Position,
    room: &mut Room,
    entries: &mut Vec<Entry>,
) -> Result<Result<(), PageFault>, RecoveryFault>
    requires place { IsLogPlace place.now }
    requires inside { at.page < place.now.pages }
    requires begin { 0x40 ≤ at.from }
    requires near { at.from ≤ 4096 }
    ensures value { IfSome (V.content view.old) (λ c. IfOk result (AppendsPage (is_whole_page place.now.pages (page_in c place.now at.page) (page_lsn place.now.pages at.lap at.page)) (page_reading (page_in c place.now at.page) (page_lsn place.now.pages at.lap at.page) at.from) entries.old.items entries.new.items)) }
    ensures fits { All FitsEntry entries.old.items → All FitsEntry entries.new.items }
    ensures never { IfErr result NeverForeign }
    ensures kept { AsksView V.content V.kept V.faults recovery_cause view.old view.new result }
{
    read_page(view, place, at.page, &mut room.body, &mut room.page)?;
    let pages = place.pages;
    Ok(append_at(alloc, entries, &room.page, pages, at.lap, at.page, at.from))
}

// Appends the entries from the place of this LSN on, and says the LSN of the place of an entry that
// isn't one of this host.
fn append_live<V: View>(
    alloc: Global,
    view: &mut V,
    place: &LogPlace,
    oldest: u64,
    entries: &mut Vec<Entry>,
) -> Result<Option<u64>, RecoveryFault>
    requires place { IsLogPlace place.now }
    requires ring { is_in_ring place.now.pages oldest ≡ true }
    requires empty { entries.old.items ≡ [] }
    ensures value { IfSome (V.content view.old) (λ c. IfOk result (λ foreign. record { entries = entries.new.items; foreign = foreign } ≡ live_log place.now.pages (page_in c place.now) oldest)) }
    ensures fits { All FitsEntry entries.new.items }
    ensures never { IfErr result NeverForeign }
    ensures kept { AsksView V.content V.kept V.faults recovery_cause view.old view.new result }
{
    let mut room = Room::new(alloc)?;
    let mut at = Position::first(place.pages, oldest);
    for _passed in 4..place.pages {
        match append_page(alloc, view, place, at, &mut room, entries)? {
            Ok(()) => {}
            Err(PageFault::NotWhole) => return Ok(None),
            Err(PageFault::Foreign { lsn }) => return Ok(Some(lsn)),
            Err(PageFault::Memory) => return Err(RecoveryFault::Memory),
        }
        at = at.after(place.pages);
    }
    Ok(None)
}

/// Reads the entries of a log from the place of this LSN on, page by page, once round its ring at
/// most; none where the place lies outside the ring.
///
/// - [`RecoveryFault::Fault`]: the view failed. The other error is want of memory.
///
/// Time and memory are linear in the pages that are read, and for each page in the log's runs.
#[tactic(auto, unfolding(log_page::specs::LiveLogs::live_log))]
pub fn live_log<V: View>(
    alloc: Global,
    view: &mut V,
    place: &LogPlace,
    oldest: u64,
) -> Result<LiveLog, RecoveryFault>
    requires place { IsLogPlace place.now }
    ensures value { IfSome (V.content view.old) (λ c. IfOk result (λ live. reading_of live ≡ live_log place.now.pages (page_in c place.now) oldest)) }
    ensures fits { IfOk result (λ live. All FitsEntry live.entries.items) }
    ensures never { IfErr result NeverForeign }
    ensures kept { AsksView V.content V.kept V.faults recovery_cause view.old view.new result }
{
    let mut entries = Vec::new(alloc);
    if !is_in_ring(place.pages, oldest) {
        let foreign = None;
        return Ok(LiveLog { entries, foreign });
    }
    let foreign = append_live(alloc, view, place, oldest, &mut entries)?;
    Ok(LiveLog { entries, foreign })
}
