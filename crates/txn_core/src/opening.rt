//! A session is opened on a log without entries.
ghost use Rattle.std.specs.Prelude.{◌≡◌, ◌≤◌, ◌<◌, ◌^◌, None, IfOk, IfSome, OnOk};
ghost use Rattle.device_blocks.specs.device_view.Devices.{CountsOnDevice};
ghost use Rattle.host_base.specs.Causes.{FailsByCause};
ghost use Rattle.txn_laws.specs.log_page.Places.{sequence_bits};
ghost use Rattle.txn_laws.specs.log_reading.Rings.{IsRingPlace};
ghost use Rattle.device_blocks.specs.log_area.Areas.{IsOldest, lap_at, next_number, new_area, named_area, synced_area};
ghost use Rattle.txn_laws.specs.Laws.{opened_area};
ghost use Rattle.txn_core.specs.Changes.{view_cause};
ghost use Rattle.txn_core.specs.Kept.{IsBegun};
ghost use Rattle.txn_core.specs.Openings.{OpensOn, NamesAndSyncs, StartsThen};

use device_blocks::LogArea;
use host_base::{Failed, Memory};
use std::alloc::{AllocError, Global};
use txn_laws::{Device, LogPlace, ViewFault};

// The ring of a new session.
fn start_area(
    alloc: Global,
    place: &LogPlace,
    lap: u64,
    restart: u32,
    opens: u32,
) -> Result<LogArea, AllocError>
    requires ring { IsRingPlace place.now }
    requires begun { 1 ≤ lap }
    requires lap { lap < 2 ^ sequence_bits place.now.pages }
    requires restart { restart ≤ 1 }
    requires opens { opens ≤ 2 ^ 31 }
    ensures area { IfOk result (λ log. log ≡ new_area place.now lap restart opens) }
{
    match LogArea::start(alloc, place, lap, restart, opens) {
        Ok(log) => Ok(log),
        Err(Memory) => Err(AllocError),
    }
}

// Names the oldest place in a restart page, and syncs.
fn name_and_sync<D: Device>(log: &mut LogArea, device: &mut D, oldest: u64) -> Result<(), Failed>
    requires synced { log.old.named ≡ None }
    requires place { IsOldest log.old oldest }
    requires lap { lap_at log.old (next_number log.old 0x58) < 2 ^ sequence_bits log.old.pages }
    requires again { log.old.sent ≡ None }
    requires within { log.old.sectors ≤ D.sector_count device.old }
    ensures log { OnOk result (log.new ≡ synced_area (named_area oldest log.old)) }
    ensures sent { OnOk result (NamesAndSyncs D.gives D.changes_of D.moment_of log.old oldest device.old device.new) }
    ensures sectors { D.sector_count device.new ≡ D.sector_count device.old }
    ensures cause { FailsByCause (D.fault_count device.old) (D.fault_count device.new) (D.moment_of device.new) result }
{
    log.write_restart(device, oldest, false)?;
    log.sync(device)
}

/// Opens a session on a log whose ring has no entry that counts: its first restart page is written,
/// which names the ring's first page, and the device is synced. `lap` is the lap of that page,
/// `restart` the place, 0 or 1, of the restart page that isn't the last one, and `opens` its open
/// count. The log that comes back is the one on which a store begins.
///
/// [`ViewFault::Fault`]: the device failed; then the page may stand or not. [`ViewFault::Memory`]:
/// want of memory, before any call. Three calls of the device; linear in the log's bytes.
pub fn open_log<D: Device>(
    alloc: Global,
    device: &mut D,
    place: &LogPlace,
    lap: u64,
    restart: u32,
    opens: u32,
) -> Result<LogArea, ViewFault>
    requires ring { IsRingPlace place.now }
    requires begun { 1 ≤ lap }
    requires lap { lap < 2 ^ sequence_bits place.now.pages }
    requires restart { restart ≤ 1 }
    requires opens { opens ≤ 2 ^ 31 }
    requires inside { place.now.device ≤ D.sector_count device.old }
    requires stands { IfSome (D.changes_of device.old).disk (OpensOn place.now lap restart opens) }
    ensures log { IfOk result (λ log. log ≡ opened_area place.now lap restart opens) }
    ensures begun { IfOk result IsBegun }
    ensures starts { OnOk result (StartsThen D.changes_of place.now (opened_area place.now lap restart opens) device.new) }
    ensures sectors { D.sector_count device.new ≡ D.sector_count device.old }
    ensures cause { CountsOnDevice view_cause (D.fault_count device.old) (D.fault_count device.new) (D.moment_of device.new) result }
{
    let mut log = start_area(alloc, place, lap, restart, opens)?;
    let oldest = log.next(0x58);
    match name_and_sync(&mut log, device, oldest) {
        Ok(()) => Ok(log),
        Err(Failed) => Err(ViewFault::Fault),
    }
}
