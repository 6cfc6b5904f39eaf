//! The tree of the volume on a device.
ghost use Rattle.std.specs.Prelude.{◌≡◌, ◌*◌, ◌^◌, ◌<◌, IfOk, Err, IfSome, IsErrOf};
ghost use Rattle.host_base.specs.Answers.{Gives, GivesOrFails};
ghost use Rattle.host_base.specs.Causes.{HasFailed, last_moment};
ghost use Rattle.image_open.specs.device_view.Devices.{KeepsDevice, CountsOnDevice};
ghost use Rattle.image_open.specs.volume_map.Maps.{IsMapOf, volume_in};
ghost use Rattle.block_view.specs.Views.{AsksView};
ghost use Rattle.image_open.specs.Errors.{scan_cause};
ghost use Rattle.image_read.specs.Errors.{error_of_check};
ghost use Rattle.image_read.specs.Checks.{judged_version, has_version, tree_on, volume_on, volume_tree, check_of};

use crate::loading::{Loads, MapReader};
use block_view::View;
use file_tree::Tree;
use image_open::{Geometry, MountFault, Refusal, VolumeMap, load_volume, with_volume};
use sector_device::Device;
use std::alloc::Global;
use volume_check::{CheckFault, check, volume_info};
use volume_links::VolumeInfo;

fn error_of(fault: CheckFault) -> MountFault
    ensures value { result ≡ error_of_check fault }
{
    match fault {
        CheckFault::Broken(broken) => MountFault::Refused(Refusal::BadVolume {
            rule: broken.rule,
            number: broken.number,
        }),
        CheckFault::View => MountFault::Device,
        CheckFault::Memory => MountFault::Memory,
    }
}

/// The tree of a loaded volume that breaks none of the nine rules, without the bytes of its files
/// and the records of its journal; it is that of the view's content where the map was loaded of it.
/// It costs what [`check`] does.
///
/// - [`MountFault::Refused`]: [`Refusal::BadVolume`] with the first rule that is broken, and the
///   least number at which it is.
/// - [`MountFault::Device`]: the view failed.
/// - [`MountFault::Memory`]: want of memory.
pub fn tree_on<V: View>(alloc: Global, view: &mut V, map: &VolumeMap) -> Result<Tree, MountFault>
    ensures answer { IfSome (V.content view.old) (λ c. IsMapOf c map.now → GivesOrFails (λ tree. tree) scan_cause result (tree_on c (volume_in map.now))) }
    ensures kept { AsksView V.content V.kept V.faults scan_cause view.old view.new result }
{
    match check(alloc, view, map) {
        Ok(tree) => Ok(tree),
        Err(fault) => Err(error_of(fault)),
    }
}

fn judge_version(info: VolumeInfo) -> Result<(), MountFault>
    ensures answer { Gives (λ x. x) scan_cause result (judged_version info) }
{
    if info.major == 3 && info.minor == 1 {
        return Ok(());
    }
    Err(MountFault::Refused(Refusal::Version {
        major: info.major,
        minor: info.minor,
    }))
}

/// Refuses a volume whose volume information (Linux-NTFS documentation, "$VOLUME_INFORMATION")
/// isn't 3.1, by [`Refusal::Version`] with its version, or with version 0.0 where there is none.
/// Linear in the attributes of record 3.
#[tactic(auto, unfolding(crate::specs::Checks::has_version))]
pub fn check_version(map: &VolumeMap) -> Result<(), MountFault>
    ensures answer { Gives (λ x. x) scan_cause result (has_version (volume_in map.now)) }
{
    judge_version(volume_info(map))
}

// The tree of a loaded volume, where its version is handled.
pub(crate) fn volume_tree<V: View>(
    alloc: Global,
    view: &mut V,
    map: &VolumeMap,
) -> Result<Tree, MountFault>
    requires parts { IfSome (V.content view.old) (λ c. IsMapOf c map.now) }
    ensures answer { IfSome (V.content view.old) (λ c. GivesOrFails (λ tree. tree) scan_cause result (volume_tree c (volume_in map.now))) }
    ensures kept { AsksView V.content V.kept V.faults scan_cause view.old view.new result }
{
    check_version(map)?;
    tree_on(alloc, view, map)
}

/// The volume that a view's content is, of this geometry and so many clusters; it costs what
/// [`load_volume`] does.
///
/// - [`MountFault::Refused`]: the first refusal of the file table's records.
/// - [`MountFault::Device`]: the view failed.
/// - [`MountFault::Memory`]: want of memory.
pub fn volume_on<V: View>(
    alloc: Global,
    view: &mut V,
    geometry: &Geometry,
    total: u64,
) -> Result<VolumeMap, MountFault>
    requires place { geometry.now.mft * geometry.now.per_cluster < 2 ^ 62 }
    ensures answer { IfSome (V.content view.old) (λ c. GivesOrFails volume_in scan_cause result (volume_on c geometry.now total)) }
    ensures parts { IfSome (V.content view.old) (λ c. IfOk result (IsMapOf c)) }
    ensures kept { AsksView V.content V.kept V.faults scan_cause view.old view.new result }
{
    Ok(load_volume(alloc, view, geometry, total)?)
}

// Reads the tree of a volume.
struct Checking;

impl MapReader for Checking {
    ghost use Rattle.file_tree.specs.declared.tree.Tree.{Tree as the_tree};
    ghost use Rattle.image_read.specs.Checks.{volume_tree};

    type Answer = Tree;

    ghost Shown = { the_tree };

    ghost shown = { λ tree. tree };

    ghost meant = { λ _. volume_tree };

    fn read<V: View>(
        &self,
        alloc: Global,
        view: &mut V,
        map: &VolumeMap,
    ) -> Result<Tree, MountFault> {
        volume_tree(alloc, view, map)
    }
}

/// The tree that the volume on the device stands for, without the bytes of its files and the
/// records of its journal.
///
/// It reads what a scan reads, but keeps all file records; then the bitmaps of the records and of
/// the clusters, the table of upper-case units and the journal, each once; each block of an index
/// twice, for its names and for whether it is torn; and the records of the file table, and those of
/// its mirror, for whether one is torn. Its time is linear in these and in the file table, and near
/// linear in the runs of all streams, which it sorts; its memory is linear in the file table and in
/// the bitmaps.
///
/// - [`MountFault::Refused`]: the first refusal that applies. First [`Refusal::Short`] of 1 and 0
///   where the device has no sectors; then those of the boot sector; then `Short` with the sectors
///   of the volume and of the device, where the device has fewer; then record 2, by the rules 1 to
///   8, and the log; then record 0, and all records, as recovery by the log would leave them; then
///   [`Refusal::Version`], where the volume information (Linux-NTFS documentation,
///   "$VOLUME_INFORMATION") isn't 3.1, with version 0.0 where there is none; then
///   [`Refusal::BadVolume`] with the first of the nine rules that is broken, and the least number
///   at which it is: of a record, of a cluster (rules 5 and 6), or of a byte of the journal (rule
///   9).
/// - [`MountFault::Device`]: the device failed.
/// - [`MountFault::Memory`]: want of memory.
pub fn check_image<D: Device>(alloc: Global, device: &mut D) -> Result<Tree, MountFault>
    ensures answer { IfSome (D.gives device.old) (λ disk. GivesOrFails (λ tree. tree) scan_cause result (check_of disk)) }
    ensures kept { KeepsDevice D.gives D.sector_count D.changes_of D.fault_count D.moment_of device.old device.new }
    ensures fault { IsErrOf result MountFault.Device → HasFailed (D.fault_count device.old) (D.fault_count device.new) (D.moment_of device.new) }
    ensures counted { D.moment_of device.old < last_moment → CountsOnDevice scan_cause (D.fault_count device.old) (D.fault_count device.new) (D.moment_of device.new) result }
    ensures none { D.sector_count device.old ≡ 0 → result ≡ Err (MountFault.Refused (Refusal.Short 1 0)) }
    ensures unasked { D.sector_count device.old ≡ 0 → device.new ≡ device.old }
{
    with_volume(alloc, device, &Loads { reader: &Checking })
}
