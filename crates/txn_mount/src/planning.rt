//! What a mount does before it writes.
ghost use Rattle.std.specs.Prelude.{◌≡◌, ◌*◌, ◌<◌, ◌≤◌, None, IfOk, IfErr, IfSome, IsErrOf};
ghost use Rattle.disk_model.specs.Content.{content_of};
ghost use Rattle.disk_model.specs.Sectors.{sector_of};
ghost use Rattle.host_base.specs.Answers.{ExplainsOrFails};
ghost use Rattle.host_base.specs.Causes.{HasFailed, last_moment};
ghost use Rattle.log_recovery.specs.device_view.Devices.{KeepsDevice, CountsOnDevice};
ghost use Rattle.log_recovery.specs.log_reading.LogPages.{IsLogPlace};
ghost use Rattle.log_recovery.specs.log_reading.Rings.{IsRingPlace};
ghost use Rattle.log_recovery.specs.Writing.{to_write_in};
ghost use Rattle.txn_mount.specs.Faults.{store_cause, count_cause};
ghost use Rattle.txn_mount.specs.declared.fault.StoreFault.TheVariants.{Broken};
ghost use Rattle.txn_mount.specs.Plans.{IsPlan, IsPlanOn};

use crate::fault::StoreFault;
use crate::read::read_log;
use crate::room::{MountPlan, plan_for};
use disk_model::Block;
use log_recovery::LogPlace;
use sector_device::Device;
use std::alloc::Global;

/// Reads the log of a device, and takes all memory that a mount needs. The device is only read.
///
/// The errors are those of [`mount`](crate::mount).
pub fn plan<D: Device>(
    alloc: Global,
    device: &mut D,
    place: &LogPlace,
    kept: &[Block],
) -> Result<MountPlan, StoreFault>
    requires log { IsLogPlace place.now }
    requires ring { IsRingPlace place.now }
    requires whole { 8 * place.now.clusters ≤ D.sector_count device.old }
    ensures plan { IfOk result (IsPlan place.now (D.sector_count device.old)) }
    ensures on { IfOk result (IsPlanOn (D.changes_of device.old).disk place.now kept.now) }
    ensures refusals { IfSome (D.gives device.old) (λ disk. IfErr result (λ e. ExplainsOrFails (store_cause e) (to_write_in (content_of (sector_of disk)) place.now kept.now))) }
    ensures broken { IfErr result (λ e. e ≡ Broken → D.gives device.old ≡ None) }
    ensures kept { KeepsDevice D.gives D.sector_count D.changes_of D.fault_count D.moment_of device.old device.new }
    ensures fault { IsErrOf result StoreFault.Fault → HasFailed (D.fault_count device.old) (D.fault_count device.new) (D.moment_of device.new) }
    ensures counted { D.moment_of device.old < last_moment → CountsOnDevice count_cause (D.fault_count device.old) (D.fault_count device.new) (D.moment_of device.new) result }
{
    let found = read_log(alloc, device, place, kept)?;
    plan_for(alloc, place, device.sectors(), found)
}
