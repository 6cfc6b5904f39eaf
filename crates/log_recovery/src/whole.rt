//! Recovery by the log as it stands on a disk.
ghost use Rattle.std.specs.Prelude.{◌≡◌, ◌+◌, ◌^◌, ◌<◌, true, nat_lt, None, All, IfOk, IfSome, IsErrOf};
ghost use Rattle.host_base.specs.Answers.{Gives, GivesOrFails};
ghost use Rattle.host_base.specs.Causes.{HasFailed, last_moment};
ghost use Rattle.log_reading.specs.disk_model.Sectors.{sector_of};
ghost use Rattle.log_reading.specs.disk_model.Content.{content_of};
ghost use Rattle.device_view.specs.Devices.{KeepsDevice, CountsOnDevice};
ghost use Rattle.log_model.specs.Entries.{FitsEntry};
ghost use Rattle.log_model.specs.Logs.{IsLevel, first_misplaced};
ghost use Rattle.log_reading.specs.log_page.LiveLogs.{lap_above};
ghost use Rattle.log_reading.specs.log_page.Places.{sequence_bits};
ghost use Rattle.log_reading.specs.block_view.Views.{AsksView};
ghost use Rattle.log_reading.specs.Views.{recovery_cause};
ghost use Rattle.log_reading.specs.LogPages.{page_in, IsLogPlace};
ghost use Rattle.log_reading.specs.Fronts.{front_in};
ghost use Rattle.log_reading.specs.Live.{reading_of};
ghost use Rattle.log_recovery.specs.Recovering.{IsSized};
ghost use Rattle.log_recovery.specs.LogStates.{own_entries, entries_by, live_entries_in, has_lap, lap_by, lap_in, recovery_in, RecoversLog};
ghost use Rattle.log_recovery.specs.Writing.{RecoversWith};

use crate::found::RecoveredBlocks;
use crate::recovering::recover_entries;
use crate::walks::misplaced;
use device_view::{Device, DeviceView, piece_room};
use log_model::Entry;
use log_reading::{
    Body, LiveLog, LogPlace, LogRefusal, RecoveryFault, Restart, RestartFront, View, front_of,
    greatest_lsn, lap_of, live_log, read_page, sequence_bits,
};
use std::alloc::Global;

// The laps that are to be left above the first one of a new session.
const SPARE_LAPS: u64 = 1 << 16;

/// What recovery finds by the log of a volume.
#[derive(Debug, Drop)]
pub struct Recovered {
    /// The blocks that it writes out, and the shadowed ones.
    pub blocks: RecoveredBlocks,
    /// The first lap of a new session.
    pub next_lap: u64,
    /// Where the next restart page goes, 0 or 1.
    pub restart: u32,
    /// The open count of that page.
    pub opens: u32,
}

/// The entries of a log, and what recovery finds by them.
#[derive(Drop)]
pub struct RecoveredLog {
    pub entries: Vec<Entry>,
    pub recovered: Recovered,
}

// What the log's restart pages say.
fn read_front<V: View>(
    alloc: Global,
    view: &mut V,
    place: &LogPlace,
) -> Result<RestartFront, RecoveryFault>
    requires place { IsLogPlace place.now }
    ensures answer { IfSome (V.content view.old) (λ c. GivesOrFails (λ front. front) recovery_cause result (front_in (page_in c place.now 0) (page_in c place.now 1))) }
    ensures kept { AsksView V.content V.kept V.faults recovery_cause view.old view.new result }
{
    let mut body = Body::empty(alloc)?;
    let mut first = Vec::new(alloc);
    let mut second = Vec::new(alloc);
    read_page(view, place, 0, &mut body, &mut first)?;
    read_page(view, place, 1, &mut body, &mut second)?;
    Ok(front_of(&first, &second)?)
}

// Refuses the first entry that is misplaced on a volume of so many clusters, and else the one of
// another shape after them.
fn own_entries(live: LiveLog, clusters: u64) -> Result<Vec<Entry>, RecoveryFault>
    ensures answer { Gives (λ entries. entries.items) recovery_cause result (own_entries (reading_of live) clusters) }
    ensures level { All FitsEntry live.entries.items → IfOk result (λ entries. All IsLevel entries.items) }
    ensures placed { IfOk result (λ entries. first_misplaced entries.items clusters ≡ None) }
{
    match misplaced(&live.entries, clusters).or(live.foreign) {
        Some(lsn) => Err(RecoveryFault::Refused(LogRefusal::ForeignLog { lsn })),
        None => Ok(live.entries),
    }
}

// The entries of a log with this restart page.
#[tactic(auto, unfolding(crate::specs::LogStates::entries_by))]
fn entries_by<V: View>(
    alloc: Global,
    view: &mut V,
    place: &LogPlace,
    restart: Restart,
) -> Result<Vec<Entry>, RecoveryFault>
    requires place { IsLogPlace place.now }
    ensures answer { IfSome (V.content view.old) (λ c. GivesOrFails (λ entries. entries.items) recovery_cause result (entries_by c place.now restart)) }
    ensures level { IfOk result (λ entries. All IsLevel entries.items) }
    ensures placed { IfOk result (λ entries. first_misplaced entries.items place.now.clusters ≡ None) }
    ensures kept { AsksView V.content V.kept V.faults recovery_cause view.old view.new result }
{
    if restart.is_clean() {
        return Ok(Vec::new(alloc));
    }
    if !restart.own {
        let lsn = restart.current;
        return Err(RecoveryFault::Refused(LogRefusal::ForeignLog { lsn }));
    }
    let live = live_log(alloc, view, place, restart.oldest)?;
    own_entries(live, place.clusters)
}

// The entries of a log; none where no restart page was chosen.
fn live_entries_in<V: View>(
    alloc: Global,
    view: &mut V,
    place: &LogPlace,
    chosen: Option<Restart>,
) -> Result<Vec<Entry>, RecoveryFault>
    requires place { IsLogPlace place.now }
    ensures answer { IfSome (V.content view.old) (λ c. GivesOrFails (λ entries. entries.items) recovery_cause result (live_entries_in c place.now chosen)) }
    ensures level { IfOk result (λ entries. All IsLevel entries.items) }
    ensures placed { IfOk result (λ entries. first_misplaced entries.items place.now.clusters ≡ None) }
    ensures kept { AsksView V.content V.kept V.faults recovery_cause view.old view.new result }
{
    match chosen {
        Some(restart) => entries_by(alloc, view, place, restart),
        None => Ok(Vec::new(alloc)),
    }
}

/// Whether a number is below the limit of laps in a log of so many pages: whether a page of that
/// lap can be written.
pub fn is_lap(pages: u64, lap: u64) -> bool
    requires pages { pages < 2 ^ 52 }
    requires wide { lap < 2 ^ 64 }
    ensures value { result ≡ nat_lt lap (2 ^ sequence_bits pages) }
{
    let bits = sequence_bits(pages);
    bits == 64 || lap < 1 << bits
}

// Whether 2^16 laps are left from the one after this on.
fn has_lap(pages: u64, last: u64) -> bool
    requires pages { pages < 2 ^ 52 }
    ensures value { result ≡ has_lap pages (1 + last) }
    ensures room { result ≡ true → last + 1 < 2 ^ 64 }
{
    match last.checked_add(1 + SPARE_LAPS) {
        Some(limit) => is_lap(pages, limit),
        None => false,
    }
}

// The lap of the greatest LSN; 0 where there is none.
fn last_lap(pages: u64, greatest: Option<u64>) -> u64
    requires pages { pages < 2 ^ 52 }
    ensures value { lap_above pages greatest ≡ 1 + result }
{
    match greatest {
        Some(lsn) => lap_of(pages, lsn),
        None => 0,
    }
}

// The first lap of a new session above the greatest LSN, or that LSN where too few laps are left.
#[tactic(auto, unfolding(crate::specs::LogStates::lap_by))]
fn lap_by(pages: u64, greatest: Option<u64>) -> Result<u64, RecoveryFault>
    requires pages { pages < 2 ^ 52 }
    ensures answer { Gives (λ lap. lap) recovery_cause result (lap_by pages greatest) }
{
    let last = last_lap(pages, greatest);
    if has_lap(pages, last) {
        Ok(1 + last)
    } else {
        let lsn = greatest.unwrap_or(0);
        Err(RecoveryFault::Refused(LogRefusal::ForeignLog { lsn }))
    }
}

// The first lap of a new session.
#[tactic(auto, unfolding(crate::specs::LogStates::lap_in))]
fn lap_in<V: View>(
    alloc: Global,
    view: &mut V,
    place: &LogPlace,
    chosen: Option<Restart>,
) -> Result<u64, RecoveryFault>
    requires place { IsLogPlace place.now }
    ensures answer { IfSome (V.content view.old) (λ c. GivesOrFails (λ lap. lap) recovery_cause result (lap_in c place.now chosen)) }
    ensures kept { AsksView V.content V.kept V.faults recovery_cause view.old view.new result }
{
    let mut body = Body::empty(alloc)?;
    let greatest = greatest_lsn(view, place, chosen, &mut body)?;
    lap_by(place.pages, greatest)
}

/// What recovery finds by a log, as [`recover_view`] does, with the entries.
pub fn recover_log<V: View>(
    alloc: Global,
    view: &mut V,
    place: &LogPlace,
) -> Result<RecoveredLog, RecoveryFault>
    requires place { IsLogPlace place.now }
    ensures answer { IfSome (V.content view.old) (λ c. RecoversWith c (recovery_in c place.now) result) }
    ensures sized { IfOk result (λ found. All IsSized found.recovered.blocks.bodies.items) }
    ensures kept { AsksView V.content V.kept V.faults recovery_cause view.old view.new result }
{
    let front = read_front(alloc, view, place)?;
    let entries = live_entries_in(alloc, view, place, front.chosen)?;
    let blocks = recover_entries(alloc, view, &entries, place.clusters)?;
    let next_lap = lap_in(alloc, view, place, front.chosen)?;
    let recovered = Recovered {
        blocks,
        next_lap,
        restart: front.restart,
        opens: front.opens,
    };
    Ok(RecoveredLog { entries, recovered })
}

/// What recovery finds by the log that lies at this place of the volume that a view shows. A clean
/// or an emptied log has no entries. Nothing is written.
///
/// - [`LogRefusal::LogVersion`]: the chosen restart page is of another major version than 1.
/// - [`LogRefusal::NoRestart`]: neither of the first two pages is a whole restart page, and none
///   is all FF.
/// - [`LogRefusal::ForeignLog`]: the log isn't clean, and its first client is another host's:
///   with the restart page's current LSN. Or an entry isn't one of this host, or reaches past the
///   volume or its block's body: with the LSN of the first one's place. Or a block is recovered in
///   part, as [`recover_entries`](crate::recover_entries) says: with the LSN of its first update.
///   Or fewer than 2^16 laps are left above the greatest LSN: with that LSN.
/// - [`RecoveryFault::Fault`]: the view failed. The other error is want of memory.
///
/// Time is linear in the log's pages on the device and in its runs for each, and near-linear in the
/// bytes of its entries, whoever wrote them. Memory is linear in the entries and in the bytes of the
/// bodies.
pub fn recover_view<V: View>(
    alloc: Global,
    view: &mut V,
    place: &LogPlace,
) -> Result<Recovered, RecoveryFault>
    requires place { IsLogPlace place.now }
    ensures answer { IfSome (V.content view.old) (λ c. RecoversLog c (recovery_in c place.now) result) }
    ensures sized { IfOk result (λ found. All IsSized found.blocks.bodies.items) }
    ensures kept { AsksView V.content V.kept V.faults recovery_cause view.old view.new result }
{
    let found = recover_log(alloc, view, place)?;
    Ok(found.recovered)
}

/// The same on a device, which is only read: what a crash may leave of it stays too.
///
/// The errors are those of [`recover_view`]; [`RecoveryFault::Fault`] is a failure of the device.
/// Its time is that of `recover_view`, and memory is linear in the entries, with room for one piece
/// of 64 KiB.
pub fn recover<D: Device>(
    alloc: Global,
    device: &mut D,
    place: &LogPlace,
) -> Result<Recovered, RecoveryFault>
    requires place { IsLogPlace place.now }
    ensures answer { IfSome (D.gives device.old) (λ disk. RecoversLog (content_of (sector_of disk)) (recovery_in (content_of (sector_of disk)) place.now) result) }
    ensures sized { IfOk result (λ found. All IsSized found.blocks.bodies.items) }
    ensures kept { KeepsDevice D.gives D.sector_count D.changes_of D.fault_count D.moment_of device.old device.new }
    ensures fault { IsErrOf result RecoveryFault.Fault → HasFailed (D.fault_count device.old) (D.fault_count device.new) (D.moment_of device.new) }
    ensures counted { D.moment_of device.old < last_moment → CountsOnDevice recovery_cause (D.fault_count device.old) (D.fault_count device.new) (D.moment_of device.new) result }
{
    let mut room = piece_room(alloc)?;
    let mut view = DeviceView::new(&mut room, device);
    recover_view(alloc, &mut view, place)
}
