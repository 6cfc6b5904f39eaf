//! A device that is only looked at, beside what recovery finds by its log.
ghost use Rattle.std.specs.Prelude.{◌≡◌, ◌<◌, length, All, IfErr, IfSome, IsErrOf, OnOk};
ghost use Rattle.host_base.specs.Causes.{HasFailed, last_moment};
ghost use Rattle.disk_model.specs.Content.{content_of};
ghost use Rattle.disk_model.specs.Sectors.{sector_of};
ghost use Rattle.block_view.specs.Views.{AsksView};
ghost use Rattle.log_recovery.specs.device_view.Devices.{KeepsDevice, CountsOnDevice};
ghost use Rattle.log_recovery.specs.Places.{HasPlaces};
ghost use Rattle.log_recovery.specs.Recovering.{content_with, IsSized};
ghost use Rattle.txn_core.specs.Changes.{view_cause};

use block_view::{View, ViewFault};
use disk_model::{Block, Body};
use log_recovery::{DeviceView, Places, RecoveredBlock, RecoveredView};
use sector_device::Device;

// The body of a block as recovery makes it.
fn show_in<V: View>(
    view: &mut V,
    bodies: &[RecoveredBlock],
    places: &Places,
    block: Block,
    out: &mut Body,
) -> Result<(), ViewFault>
    requires sized { All IsSized bodies.now }
    requires right { HasPlaces bodies.now places.now }
    ensures body { OnOk result (IfSome (V.content view.old) (λ c. out.new ≡ content_with bodies.now c block)) }
    ensures only { IfErr result (λ e. e ≡ ViewFault.Fault) }
    ensures kept { AsksView V.content V.kept V.faults view_cause view.old view.new result }
{
    let mut recovered = RecoveredView::new(view, bodies, places);
    recovered.body(block, out)
}

/// The body that a block of a device has once it is recovered, by the bodies that recovery found
/// ([`log_recovery::recover`]) and their places: that is what a mount shows that writes nothing.
/// The device is only read, through room for a piece ([`device_view::piece_room`]): nothing is
/// written or synced, and what a crash may leave of it stays.
///
/// The error is a failure of the device; a block that has a recovered body isn't read.
pub fn show_recovered<D: Device>(
    device: &mut D,
    room: &mut [u8],
    bodies: &[RecoveredBlock],
    places: &Places,
    block: Block,
    out: &mut Body,
) -> Result<(), ViewFault>
    requires room { length room.old ≡ 65536 }
    requires sized { All IsSized bodies.now }
    requires right { HasPlaces bodies.now places.now }
    ensures body { OnOk result (IfSome (D.gives device.old) (λ disk. out.new ≡ content_with bodies.now (content_of (sector_of disk)) block)) }
    ensures kept { KeepsDevice D.gives D.sector_count D.changes_of D.fault_count D.moment_of device.old device.new }
    ensures only { IfErr result (λ e. e ≡ ViewFault.Fault) }
    ensures fault { IsErrOf result ViewFault.Fault → HasFailed (D.fault_count device.old) (D.fault_count device.new) (D.moment_of device.new) }
    ensures counted { D.moment_of device.old < last_moment → CountsOnDevice view_cause (D.fault_count device.old) (D.fault_count device.new) (D.moment_of device.new) result }
{
    let mut view = DeviceView::new(room, device);
    show_in(&mut view, bodies, places, block, out)
}
