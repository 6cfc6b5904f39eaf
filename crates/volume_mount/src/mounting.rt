//! The mount of a volume on a device.
ghost use Rattle.std.specs.Prelude.{◌≡◌, ◌*◌, ◌^◌, ◌<◌, Err, All, IfSome, IsErrOf};
ghost use Rattle.host_base.specs.Causes.{HasFailed, last_moment};
ghost use Rattle.disk_model.specs.Sectors.{sector_of};
ghost use Rattle.disk_model.specs.Content.{content_of};
ghost use Rattle.image_read.specs.device_view.Devices.{KeepsDevice, CountsOnDevice};
ghost use Rattle.block_view.specs.Views.{AsksView};
ghost use Rattle.volume_shadows.specs.log_recovery.Recovering.{IsSized};
ghost use Rattle.image_read.specs.image_open.Errors.{scan_cause};
ghost use Rattle.image_read.specs.image_open.Writing.{OpenedToWrite, IsOpenedToWrite};
ghost use Rattle.volume_mount.specs.Mounts.{mounted_by, mounted_in, mounted_of};
ghost use Rattle.volume_mount.specs.Answers.{MountsAs};

use crate::loading::load_recovered;
use crate::mounted::Mounted;
use block_view::View;
use image_read::{DeviceView, MountFault, OpeningToWrite, Refusal, open_to_write, piece_room};
use sector_device::Device;
use std::alloc::Global;
use volume_shadows::places_of;

// A volume that was opened.
fn mount_opening<V: View>(
    alloc: Global,
    view: &mut V,
    opening: OpeningToWrite,
) -> Result<Mounted, MountFault>
    requires table { opening.geometry.mft * opening.geometry.per_cluster < 2 ^ 62 }
    requires sized { All IsSized opening.found.recovered.blocks.bodies.items }
    ensures answer { IfSome (V.content view.old) (λ c. (meant : OpenedToWrite) → IsOpenedToWrite c meant opening → MountsAs c (mounted_by c meant) result) }
    ensures kept { AsksView V.content V.kept V.faults scan_cause view.old view.new result }
{
    let places = places_of(alloc, &opening.found.recovered.blocks.bodies)?;
    let loaded = load_recovered(alloc, view, &opening, &places)?;
    Ok(Mounted {
        opening,
        places,
        map: loaded.map,
        upper: loaded.upper,
    })
}

// The volume of a view of so many sectors.
fn mount_view<V: View>(alloc: Global, view: &mut V, sectors: u64) -> Result<Mounted, MountFault>
    ensures answer { IfSome (V.content view.old) (λ c. MountsAs c (mounted_in c sectors) result) }
    ensures kept { AsksView V.content V.kept V.faults scan_cause view.old view.new result }
{
    let opening = open_to_write(alloc, view, sectors)?;
    mount_opening(alloc, view, opening)
}

// The volume on a device of so many sectors.
fn mount_sectors<D: Device>(
    alloc: Global,
    device: &mut D,
    sectors: u64,
) -> Result<Mounted, MountFault>
    ensures answer { IfSome (D.gives device.old) (λ disk. MountsAs (content_of (sector_of disk)) (mounted_in (content_of (sector_of disk)) sectors) result) }
    ensures kept { KeepsDevice D.gives D.sector_count D.changes_of D.fault_count D.moment_of device.old device.new }
    ensures fault { IsErrOf result MountFault.Device → HasFailed (D.fault_count device.old) (D.fault_count device.new) (D.moment_of device.new) }
    ensures counted { D.moment_of device.old < last_moment → CountsOnDevice scan_cause (D.fault_count device.old) (D.fault_count device.new) (D.moment_of device.new) result }
{
    let mut room = piece_room(alloc)?;
    let mut view = DeviceView::new(&mut room, device);
    mount_view(alloc, &mut view, sectors)
}

/// Mounts the volume on the device: opens it as a mount that writes does, and loads it from its
/// recovered content. The device is only read. A volume with a change journal isn't mounted yet.
///
/// It reads what a check reads, and for the mounted volume keeps its records, the bits of its
/// bitmaps, its table of upper-case units and the bodies that recovery found. Time and memory are
/// those of a check; the tree is made for the rules, and let go.
///
/// - [`MountFault::Refused`]: the first refusal that applies. First [`Refusal::Short`] of 1 and 0
///   where the device has no sectors, and then it isn't called; then those of `open_to_write`: of
///   the sectors of a cluster, the boot sector, the device's length, record 2 and the log; then
///   record 0, and all records, as recovery by the log leaves them; then [`Refusal::Version`]; then
///   [`Refusal::Unbuilt`] with 6, where `$UsnJrnl` leads to a file in `$Extend`; then
///   [`Refusal::LogSmall`] with the log's pages that are initialised as a whole and those that it
///   needs: 512 and one for each three sectors of the volume's bitmap, or all its pages where these
///   are more; then [`Refusal::BadVolume`] with the first of the nine rules that is broken, and the
///   least number at which it is; then [`Refusal::LogSmall`] with the log's pages that lie on the
///   device, where record 2 has only the first pieces of its data; then [`Refusal::BadVolume`] with 4
///   and the number of a file whose attribute list has a second piece; then with number 0, and rule 5
///   where a stream has the first cluster, in which the boot sector lies, that isn't the unnamed data
///   of `$Boot`, or rule 6 where the bit of that cluster is clear; then [`Refusal::ForeignLog`]
///   where the log shadows a block that a stream owns and that isn't wholly past the stream's
///   initialised size: with the LSN of the first update of a rival of such a block, of several the
///   least.
/// - [`MountFault::Device`]: the device failed.
/// - [`MountFault::Memory`]: want of memory.
#[tactic(auto, unfolding(crate::specs::Mounts::mounted_of))]
pub fn mount<D: Device>(alloc: Global, device: &mut D) -> Result<Mounted, MountFault>
    ensures answer { IfSome (D.gives device.old) (λ disk. MountsAs (content_of (sector_of disk)) (mounted_of disk) result) }
    ensures kept { KeepsDevice D.gives D.sector_count D.changes_of D.fault_count D.moment_of device.old device.new }
    ensures fault { IsErrOf result MountFault.Device → HasFailed (D.fault_count device.old) (D.fault_count device.new) (D.moment_of device.new) }
    ensures counted { D.moment_of device.old < last_moment → CountsOnDevice scan_cause (D.fault_count device.old) (D.fault_count device.new) (D.moment_of device.new) result }
    ensures none { D.sector_count device.old ≡ 0 → result ≡ Err (MountFault.Refused (Refusal.Short 1 0)) }
    ensures unasked { D.sector_count device.old ≡ 0 → device.new ≡ device.old }
{
    let sectors = device.sectors();
    if sectors == 0 {
        return Err(MountFault::Refused(Refusal::Short {
            sectors: 1,
            device: 0,
        }));
    }
    mount_sectors(alloc, device, sectors)
}
