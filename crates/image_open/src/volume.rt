//! The volume on a device, opened for what is to be read of it.
ghost use Rattle.std.specs.Prelude.{◌≡◌, ◌*◌, ◌^◌, ◌<◌, ◌≤◌, Err, IfSome, IsErrOf};
ghost use Rattle.host_base.specs.Answers.{GivesOrFails};
ghost use Rattle.host_base.specs.Causes.{HasFailed, last_moment};
ghost use Rattle.disk_model.specs.Sectors.{sector_of};
ghost use Rattle.disk_model.specs.Content.{content_of};
ghost use Rattle.log_recovery.specs.device_view.Devices.{KeepsDevice, CountsOnDevice};
ghost use Rattle.block_view.specs.Views.{AsksView};
ghost use Rattle.image_open.specs.Errors.{scan_cause};
ghost use Rattle.image_open.specs.Openings.{IsOpening, content_after};
ghost use Rattle.image_open.specs.Volumes.{on_disk, in_volume};

use crate::opening::{Opening, open_volume};
use crate::reader::{ViewReader, VolumeReader};
use crate::refusal::{MountFault, Refusal};
use block_view::View;
use log_recovery::{DeviceView, RecoveredView, piece_room, places_of};
use sector_device::Device;
use std::alloc::Global;

// What is read of a device of so many sectors.
fn read_device<D: Device, R: ViewReader>(
    alloc: Global,
    device: &mut D,
    sectors: u64,
    reader: &R,
) -> Result<R::Answer, MountFault>
    ensures answer { IfSome (D.gives device.old) (λ disk. GivesOrFails R.shown scan_cause result (R.meant reader.now (content_of (sector_of disk)) sectors)) }
    ensures kept { KeepsDevice D.gives D.sector_count D.changes_of D.fault_count D.moment_of device.old device.new }
    ensures fault { IsErrOf result MountFault.Device → HasFailed (D.fault_count device.old) (D.fault_count device.new) (D.moment_of device.new) }
    ensures counted { D.moment_of device.old < last_moment → CountsOnDevice scan_cause (D.fault_count device.old) (D.fault_count device.new) (D.moment_of device.new) result }
{
    let mut room = piece_room(alloc)?;
    let mut view = DeviceView::new(&mut room, device);
    reader.read(alloc, &mut view, sectors)
}

/// What the reader reads of a view of the device, which reads it ahead in pieces of 64 KiB; it
/// costs what the reader does, and room for one piece. The device is only read.
///
/// - [`MountFault::Refused`]: [`Refusal::Short`] of 1 and 0 where the device has no sectors, and
///   then it isn't called; else the refusal that the reader means.
/// - [`MountFault::Device`]: the device failed.
/// - [`MountFault::Memory`]: want of memory.
pub fn with_view<D: Device, R: ViewReader>(
    alloc: Global,
    device: &mut D,
    reader: &R,
) -> Result<R::Answer, MountFault>
    ensures answer { IfSome (D.gives device.old) (λ disk. GivesOrFails R.shown scan_cause result (on_disk (R.meant reader.now) disk)) }
    ensures kept { KeepsDevice D.gives D.sector_count D.changes_of D.fault_count D.moment_of device.old device.new }
    ensures fault { IsErrOf result MountFault.Device → HasFailed (D.fault_count device.old) (D.fault_count device.new) (D.moment_of device.new) }
    ensures counted { D.moment_of device.old < last_moment → CountsOnDevice scan_cause (D.fault_count device.old) (D.fault_count device.new) (D.moment_of device.new) result }
    ensures none { D.sector_count device.old ≡ 0 → result ≡ Err (MountFault.Refused (Refusal.Short 1 0)) }
    ensures unasked { D.sector_count device.old ≡ 0 → device.new ≡ device.old }
{
    let sectors = device.sectors();
    if sectors == 0 {
        return Err(MountFault::Refused(Refusal::Short {
            sectors: 1,
            device: 0,
        }));
    }
    read_device(alloc, device, sectors, reader)
}

// What is read of a volume that was opened.
fn read_opening<V: View, R: VolumeReader>(
    alloc: Global,
    view: &mut V,
    opening: &Opening,
    reader: &R,
) -> Result<R::Answer, MountFault>
    requires opening { IsOpening opening.now }
    ensures answer { IfSome (V.content view.old) (λ c. GivesOrFails R.shown scan_cause result (R.meant reader.now (content_after opening.now c) opening.now.geometry opening.now.total)) }
    ensures kept { AsksView V.content V.kept V.faults scan_cause view.old view.new result }
{
    let places = places_of(alloc, &opening.blocks.bodies)?;
    let mut recovered = RecoveredView::new(view, &opening.blocks.bodies, &places);
    reader.read(alloc, &mut recovered, &opening.geometry, opening.total)
}

/// What the reader reads of the recovered content of the volume that a view shows, on a device of
/// so many sectors of 512 bytes: it costs what [`open_volume`] and the reader do. The view is only
/// read.
///
/// - [`MountFault::Refused`]: a refusal of [`open_volume`], else the one that the reader means.
/// - [`MountFault::Device`]: the view failed.
/// - [`MountFault::Memory`]: want of memory.
pub fn in_volume<V: View, R: VolumeReader>(
    alloc: Global,
    view: &mut V,
    sectors: u64,
    reader: &R,
) -> Result<R::Answer, MountFault>
    ensures answer { IfSome (V.content view.old) (λ c. GivesOrFails R.shown scan_cause result (in_volume (R.meant reader.now) c sectors)) }
    ensures kept { AsksView V.content V.kept V.faults scan_cause view.old view.new result }
{
    let opening = open_volume(alloc, view, sectors)?;
    read_opening(alloc, view, &opening, reader)
}

// A reader of volumes as one of views, which opens the volume first.
#[derive(Drop)]
struct Opens<'a, R: VolumeReader> {
    reader: &'a R,
}

impl<'a, R: VolumeReader> ViewReader for Opens<'a, R> {
    type Answer = R::Answer;

    ghost Shown = { R.Shown };

    ghost shown = { R.shown };

    ghost meant = { λ opens. in_volume (R.meant opens.reader.now) };

    fn read<V: View>(
        &self,
        alloc: Global,
        view: &mut V,
        sectors: u64,
    ) -> Result<R::Answer, MountFault> {
        in_volume(alloc, view, sectors, self.reader)
    }
}

/// What the reader reads of the recovered content of the volume on the device: it costs what
/// [`open_volume`] and the reader do, and room for one piece of 64 KiB. The device is only read.
///
/// - [`MountFault::Refused`]: the first refusal that applies: [`Refusal::Short`] of 1 and 0 where
///   the device has no sectors, and then it isn't called; then those of [`open_volume`]; then the
///   one that the reader means.
/// - [`MountFault::Device`]: the device failed.
/// - [`MountFault::Memory`]: want of memory.
pub fn with_volume<D: Device, R: VolumeReader>(
    alloc: Global,
    device: &mut D,
    reader: &R,
) -> Result<R::Answer, MountFault>
    ensures answer { IfSome (D.gives device.old) (λ disk. GivesOrFails R.shown scan_cause result (on_disk (in_volume (R.meant reader.now)) disk)) }
    ensures kept { KeepsDevice D.gives D.sector_count D.changes_of D.fault_count D.moment_of device.old device.new }
    ensures fault { IsErrOf result MountFault.Device → HasFailed (D.fault_count device.old) (D.fault_count device.new) (D.moment_of device.new) }
    ensures counted { D.moment_of device.old < last_moment → CountsOnDevice scan_cause (D.fault_count device.old) (D.fault_count device.new) (D.moment_of device.new) result }
    ensures none { D.sector_count device.old ≡ 0 → result ≡ Err (MountFault.Refused (Refusal.Short 1 0)) }
    ensures unasked { D.sector_count device.old ≡ 0 → device.new ≡ device.old }
{
    with_view(alloc, device, &Opens { reader })
}
