//! The links of the volume on a device.
ghost use Rattle.std.specs.Prelude.{◌≡◌, ◌*◌, ◌^◌, ◌<◌, Err, IfSome, IsErrOf};
ghost use Rattle.host_base.specs.Answers.{GivesOrFails};
ghost use Rattle.host_base.specs.Causes.{HasFailed, last_moment};
ghost use Rattle.image_open.specs.device_view.Devices.{KeepsDevice, CountsOnDevice};
ghost use Rattle.block_view.specs.Views.{AsksView};
ghost use Rattle.image_open.specs.Errors.{scan_cause};
ghost use Rattle.image_read.specs.Scans.{links_in, scan_of};

use block_view::View;
use file_tree::Link;
use image_open::{Geometry, MountFault, Refusal, VolumeReader, with_volume};
use sector_device::Device;
use std::alloc::Global;
use volume_links::load_links;

// The links of the volume's files.
fn links_in<V: View>(
    alloc: Global,
    view: &mut V,
    geometry: &Geometry,
) -> Result<Vec<Link>, MountFault>
    requires place { geometry.now.mft * geometry.now.per_cluster < 2 ^ 62 }
    ensures answer { IfSome (V.content view.old) (λ c. GivesOrFails (λ links. links.items) scan_cause result (links_in c geometry.now)) }
    ensures kept { AsksView V.content V.kept V.faults scan_cause view.old view.new result }
{
    Ok(load_links(alloc, view, geometry)?)
}

// Reads the links of a volume.
struct Scanning;

impl VolumeReader for Scanning {
    ghost use Rattle.std.specs.Prelude.{List};
    ghost use Rattle.file_tree.specs.declared.link.Link.{Link as the_link};
    ghost use Rattle.image_read.specs.Scans.{links_in};

    type Answer = Vec<Link>;

    ghost Shown = { List the_link };

    ghost shown = { λ links. links.items };

    ghost meant = { λ _ c g _. links_in c g };

    fn read<V: View>(
        &self,
        alloc: Global,
        view: &mut V,
        geometry: &Geometry,
        total: u64,
    ) -> Result<Vec<Link>, MountFault> {
        let _ = total;
        links_in(alloc, view, geometry)
    }
}

/// The long names of the volume on the device, by the numbers of their files and then as they stand
/// in the file records.
///
/// It reads the boot sector, record 2 and the log, and then goes over the file table, as recovery
/// by the log would leave it, in reads of 64 KiB where its records lie one after the other: once,
/// and keeping only the names, as long as no file has an attribute list. At the first file that has
/// one it begins again and keeps all records. Time is linear in the file table, and in its runs for
/// each record; memory is linear in the names, or in the file table where a file has an attribute
/// list.
///
/// - [`MountFault::Refused`]: the first refusal that applies. First [`Refusal::Short`] of 1 and 0
///   where the device has no sectors; then those of the boot sector; then `Short` with the sectors
///   of the volume and of the device, where the device has fewer; then record 2, by the rules 1 to
///   8, and the log; then record 0, and all records.
/// - [`MountFault::Device`]: the device failed.
/// - [`MountFault::Memory`]: want of memory.
pub fn scan_image<D: Device>(alloc: Global, device: &mut D) -> Result<Vec<Link>, MountFault>
    ensures answer { IfSome (D.gives device.old) (λ disk. GivesOrFails (λ links. links.items) scan_cause result (scan_of disk)) }
    ensures kept { KeepsDevice D.gives D.sector_count D.changes_of D.fault_count D.moment_of device.old device.new }
    ensures fault { IsErrOf result MountFault.Device → HasFailed (D.fault_count device.old) (D.fault_count device.new) (D.moment_of device.new) }
    ensures counted { D.moment_of device.old < last_moment → CountsOnDevice scan_cause (D.fault_count device.old) (D.fault_count device.new) (D.moment_of device.new) result }
    ensures none { D.sector_count device.old ≡ 0 → result ≡ Err (MountFault.Refused (Refusal.Short 1 0)) }
    ensures unasked { D.sector_count device.old ≡ 0 → device.new ≡ device.old }
{
    with_volume(alloc, device, &Scanning)
}
