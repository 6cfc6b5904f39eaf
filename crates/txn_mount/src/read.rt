//! What a mount reads.
ghost use Rattle.std.specs.Prelude.{◌≡◌, ◌<◌, All, IfOk, IfSome, IsErrOf};
ghost use Rattle.host_base.specs.Causes.{HasFailed, last_moment};
ghost use Rattle.disk_model.specs.Sectors.{sector_of};
ghost use Rattle.disk_model.specs.Content.{content_of};
ghost use Rattle.log_recovery.specs.device_view.Devices.{KeepsDevice, CountsOnDevice};
ghost use Rattle.log_recovery.specs.log_reading.LogPages.{IsLogPlace};
ghost use Rattle.log_recovery.specs.log_reading.Views.{recovery_cause};
ghost use Rattle.log_recovery.specs.Recovering.{IsSized};
ghost use Rattle.log_recovery.specs.Writing.{to_write_in, RecoversToWrite};

use disk_model::Block;
use log_recovery::{DeviceView, LogPlace, RecoveryFault, ToWrite, piece_room, recover_to_write};
use sector_device::Device;
use std::alloc::Global;

/// What recovery finds by the log of a device for a mount that writes. The device is only read.
pub fn read_log<D: Device>(
    alloc: Global,
    device: &mut D,
    place: &LogPlace,
    kept: &[Block],
) -> Result<ToWrite, RecoveryFault>
    requires place { IsLogPlace place.now }
    ensures answer { IfSome (D.gives device.old) (λ disk. RecoversToWrite (content_of (sector_of disk)) (to_write_in (content_of (sector_of disk)) place.now kept.now) result) }
    ensures sized { IfOk result (λ found. All IsSized found.recovered.blocks.bodies.items) }
    ensures kept { KeepsDevice D.gives D.sector_count D.changes_of D.fault_count D.moment_of device.old device.new }
    ensures fault { IsErrOf result RecoveryFault.Fault → HasFailed (D.fault_count device.old) (D.fault_count device.new) (D.moment_of device.new) }
    ensures counted { D.moment_of device.old < last_moment → CountsOnDevice recovery_cause (D.fault_count device.old) (D.fault_count device.new) (D.moment_of device.new) result }
{
    let mut room = piece_room(alloc)?;
    let mut view = DeviceView::new(&mut room, device);
    recover_to_write(alloc, &mut view, place, kept)
}
