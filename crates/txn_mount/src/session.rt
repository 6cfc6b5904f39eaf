//! What a mount writes.
ghost use Rattle.std.specs.Prelude.{◌≡◌, ◌<◌, ◌≤◌, ◌^◌, None, OnOk, All};
ghost use Rattle.host_base.specs.Causes.{FailsByCause};
ghost use Rattle.txn_core.specs.log_page.Places.{sequence_bits};
ghost use Rattle.txn_core.specs.log_area.Areas.{IsOldest, lap_at, next_number, named_area, synced_area};
ghost use Rattle.txn_mount.specs.Calls.{NamesNow, MountsBy};
ghost use Rattle.txn_mount.specs.Puts.{items_of, MayPutAt};

use crate::puts::{PutOut, write_outs};
use host_base::Failed;
use log_recovery::RecoveredBlock;
use sector_device::Device;
use txn_core::LogArea;

// Writes the restart page that names the oldest place, and syncs.
fn name_and_sync<D: Device>(log: &mut LogArea, device: &mut D, oldest: u64) -> Result<(), Failed>
    requires synced { log.old.named ≡ None }
    requires place { IsOldest log.old oldest }
    requires lap { lap_at log.old (next_number log.old 0x58) < 2 ^ sequence_bits log.old.pages }
    requires again { log.old.sent ≡ None }
    requires within { log.old.sectors ≤ D.sector_count device.old }
    ensures names { NamesNow D.gives D.changes_of D.moment_of log.old oldest result device.old device.new }
    ensures log { OnOk result (log.new ≡ synced_area (named_area oldest log.old)) }
    ensures sectors { D.sector_count device.new ≡ D.sector_count device.old }
    ensures cause { FailsByCause (D.fault_count device.old) (D.fault_count device.new) (D.moment_of device.new) result }
{
    log.write_restart(device, oldest, false)?;
    log.sync(device)
}

/// All that a mount writes: the blocks that are put out, in order; a sync; the new session's first
/// restart page, which names the ring's first page; a sync.
///
/// The error is a failure of the device, and nothing is written behind it.
pub fn write_down<D: Device>(
    device: &mut D,
    log: &mut LogArea,
    oldest: u64,
    bodies: &[RecoveredBlock],
    keys: &[PutOut],
) -> Result<(), Failed>
    requires put { All (MayPutAt (D.sector_count device.old) bodies.now) keys.now }
    requires synced { log.old.named ≡ None }
    requires place { IsOldest log.old oldest }
    requires lap { lap_at log.old (next_number log.old 0x58) < 2 ^ sequence_bits log.old.pages }
    requires again { log.old.sent ≡ None }
    requires within { log.old.sectors ≤ D.sector_count device.old }
    ensures calls { MountsBy D.gives D.changes_of D.moment_of (items_of bodies.now keys.now) log.old oldest result device.old device.new }
    ensures log { OnOk result (log.new ≡ synced_area (named_area oldest log.old)) }
    ensures sectors { D.sector_count device.new ≡ D.sector_count device.old }
    ensures cause { FailsByCause (D.fault_count device.old) (D.fault_count device.new) (D.moment_of device.new) result }
{
    write_outs(device, bodies, keys)?;
    device.sync()?;
    name_and_sync(log, device, oldest)
}
