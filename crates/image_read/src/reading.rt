//! The journal of the volume on a device.
ghost use Rattle.std.specs.Prelude.{◌≡◌, ◌*◌, ◌^◌, ◌<◌, ◌≤◌, Ok, IsOk, Err, IfSome, IsErrOf};
ghost use Rattle.host_base.specs.Answers.{GivesOrFails};
ghost use Rattle.host_base.specs.Causes.{HasFailed, last_moment};
ghost use Rattle.image_open.specs.device_view.Devices.{KeepsDevice, CountsOnDevice};
ghost use Rattle.image_open.specs.volume_map.Maps.{IsMapOf, volume_in};
ghost use Rattle.block_view.specs.Views.{AsksView};
ghost use Rattle.volume_check.specs.volume_model.Volumes.{upper_of};
ghost use Rattle.volume_check.specs.volume_state.Journals.{journal_first, journal_entries};
ghost use Rattle.volume_check.specs.usn_journal.Places.{journal_place};
ghost use Rattle.image_open.specs.Errors.{scan_cause};
ghost use Rattle.image_read.specs.Records.{place_on, records_in, records_by, placed_records, volume_records, journal_of};

use crate::checking::{check_version, tree_on};
use crate::loading::{Loads, MapReader};
use crate::records::{all_entries, place_on};
use block_view::View;
use disk_model::Body;
use file_tree::UsnList;
use image_open::{ClusterSize, Extents, MountFault, Refusal, VolumeMap, with_volume};
use sector_device::Device;
use std::alloc::Global;
use volume_check::first_byte;

/// The records of a volume's change journal.
#[derive(Debug, Drop)]
pub struct ReadJournal {
    /// Its records, in order.
    pub entries: UsnList,
    /// The byte of `$J` at which the journal begins.
    pub first: u64,
    /// The real size of `$J`: the next record goes there, or, where it has no room in that page, at
    /// the front of the next one. Zeros may stand between the last record and this byte.
    pub next: u64,
}

// The records of a whole journal.
#[tactic(auto, unfolding(crate::specs::Records::records_in))]
fn records_in<V: View>(
    alloc: Global,
    view: &mut V,
    per: ClusterSize,
    extents: &Extents,
    body: &mut Body,
) -> Result<ReadJournal, MountFault>
    requires left { journal_first per extents.now ≤ extents.now.real }
    requires whole { IfSome (V.content view.old) (λ c. IsOk (journal_entries c per extents.now)) }
    ensures answer { IfSome (V.content view.old) (λ c. GivesOrFails (λ j. j) scan_cause result (Ok (records_in c per extents.now))) }
    ensures kept { AsksView V.content V.kept V.faults scan_cause view.old view.new result }
{
    let first = first_byte(per, extents);
    let entries = all_entries(alloc, view, per, extents, first, body)?;
    Ok(ReadJournal {
        entries,
        first,
        next: extents.real,
    })
}

// The records of a volume that keeps its rules, in these clusters.
fn records_by<V: View>(
    alloc: Global,
    view: &mut V,
    map: &VolumeMap,
    extents: &Extents,
    body: &mut Body,
) -> Result<ReadJournal, MountFault>
    requires parts { IfSome (V.content view.old) (λ c. IsMapOf c map.now) }
    requires left { journal_first map.now.per_cluster extents.now ≤ extents.now.real }
    requires place { IfSome (V.content view.old) (λ c. journal_place (upper_of c (volume_in map.now)) (volume_in map.now) ≡ Ok extents.now) }
    ensures answer { IfSome (V.content view.old) (λ c. GivesOrFails (λ j. j) scan_cause result (records_by c (volume_in map.now) extents.now)) }
    ensures kept { AsksView V.content V.kept V.faults scan_cause view.old view.new result }
{
    tree_on(alloc, view, map)?;
    records_in(alloc, view, map.per_cluster, extents, body)
}

// The records of a volume of a known version.
fn placed_records<V: View>(
    alloc: Global,
    view: &mut V,
    map: &VolumeMap,
) -> Result<ReadJournal, MountFault>
    requires parts { IfSome (V.content view.old) (λ c. IsMapOf c map.now) }
    ensures answer { IfSome (V.content view.old) (λ c. GivesOrFails (λ j. j) scan_cause result (placed_records c (volume_in map.now))) }
    ensures kept { AsksView V.content V.kept V.faults scan_cause view.old view.new result }
{
    let mut body = Body::empty(alloc)?;
    let extents = place_on(alloc, view, map, &mut body)?;
    records_by(alloc, view, map, &extents, &mut body)
}

// The records of a loaded volume.
fn volume_records<V: View>(
    alloc: Global,
    view: &mut V,
    map: &VolumeMap,
) -> Result<ReadJournal, MountFault>
    requires parts { IfSome (V.content view.old) (λ c. IsMapOf c map.now) }
    ensures answer { IfSome (V.content view.old) (λ c. GivesOrFails (λ j. j) scan_cause result (volume_records c (volume_in map.now))) }
    ensures kept { AsksView V.content V.kept V.faults scan_cause view.old view.new result }
{
    check_version(map)?;
    placed_records(alloc, view, map)
}

// Reads the records of a volume's change journal.
struct Reading;

impl MapReader for Reading {
    ghost use Rattle.image_read.specs.declared.reading.ReadJournal.{ReadJournal as the_journal};
    ghost use Rattle.image_read.specs.Records.{volume_records};

    type Answer = ReadJournal;

    ghost Shown = { the_journal };

    ghost shown = { λ journal. journal };

    ghost meant = { λ _. volume_records };

    fn read<V: View>(
        &self,
        alloc: Global,
        view: &mut V,
        map: &VolumeMap,
    ) -> Result<ReadJournal, MountFault> {
        volume_records(alloc, view, map)
    }
}

/// The records of the change journal of the volume on the device (Linux-NTFS documentation,
/// "$UsnJrnl"; Microsoft's reference, "USN_RECORD_V2"), those of other versions left out.
///
/// It reads what a check reads, and the journal once more. Its time is that of a check, and linear
/// in the journal; its memory is that of a check, and linear in the records.
///
/// - [`MountFault::Refused`]: the first refusal that applies: one of those that come before the
///   rules in a check; then [`Refusal::NoJournal`] with 1 where `$Extend` has no `$UsnJrnl`, 2
///   where its file has an attribute list, and 3 where one of its streams `$Max` and `$J` is
///   missing or out of shape; then [`Refusal::BadVolume`] with the first of the nine rules that is
///   broken, and the least number at which it is.
/// - [`MountFault::Device`]: the device failed.
/// - [`MountFault::Memory`]: want of memory, also where the journal has 2^32 - 1 records or more.
pub fn read_journal<D: Device>(alloc: Global, device: &mut D) -> Result<ReadJournal, MountFault>
    ensures answer { IfSome (D.gives device.old) (λ disk. GivesOrFails (λ j. j) scan_cause result (journal_of disk)) }
    ensures kept { KeepsDevice D.gives D.sector_count D.changes_of D.fault_count D.moment_of device.old device.new }
    ensures fault { IsErrOf result MountFault.Device → HasFailed (D.fault_count device.old) (D.fault_count device.new) (D.moment_of device.new) }
    ensures counted { D.moment_of device.old < last_moment → CountsOnDevice scan_cause (D.fault_count device.old) (D.fault_count device.new) (D.moment_of device.new) result }
    ensures none { D.sector_count device.old ≡ 0 → result ≡ Err (MountFault.Refused (Refusal.Short 1 0)) }
    ensures unasked { D.sector_count device.old ≡ 0 → device.new ≡ device.old }
{
    with_volume(alloc, device, &Loads { reader: &Reading })
}
