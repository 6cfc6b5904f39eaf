//! What a start has in memory before a store is mounted.
ghost use Rattle.std.specs.Prelude.{◌≡◌, ◌<◌, ◌↔◌, true, length, IfOk, IfErr, IfSome, IsErrOf};
ghost use Rattle.std.specs.List.{list_all};
ghost use Rattle.host_base.specs.Causes.{HasFailed, last_moment};
ghost use Rattle.device_view.specs.Devices.{KeepsDevice, CountsOnDevice};
ghost use Rattle.mounted_states.specs.map_change.Parts.{geometry_in};
ghost use Rattle.mounted_states.specs.map_change.Plain.{is_plain};
ghost use Rattle.mounted_states.specs.image_open.Writing.{found_by};
ghost use Rattle.volume_start.specs.Faults.{count_cause};
ghost use Rattle.volume_start.specs.Plans.{PlansFrom, PlansOn, FitsPlan};
ghost use Rattle.volume_start.specs.Fitting.{FitsStart};
ghost use Rattle.volume_start.specs.Starts.{RefusesAs, UnfitAs, UnknownAs, IsUnfit, IsInMemory};

use crate::fault::StartFault;
use crate::fitting::fits_start;
use crate::streams::streams_of;
use device_view::piece_room;
use disk_model::{Block, BlockKind};
use file_puts::VolumeStreams;
use file_record::FileRec;
use log_page::LogPlace;
use log_recovery::ToWrite;
use mounted_states::{
    LiveMap, Mounted, Names, OpeningToWrite, VolumeMap, boot_block, has_type, mount,
};
use record_model::ATTRIBUTE_LIST;
use sector_device::Device;
use state_model::Geometry;
use std::alloc::{AllocError, Global};
use upcase_order::Upcase;

// The number of the log's record.
const LOG_RECORD: u64 = 2;

/// What a start has in memory before a store is mounted: where the log lies, the blocks by which it
/// is found, and what operations need of the volume.
#[derive(Drop)]
pub struct StartPlan {
    pub place: LogPlace,
    pub kept: Vec<Block>,
    pub live: LiveMap,
    pub upper: Upcase,
    pub names: Names,
    pub streams: VolumeStreams,
    pub room: Vec<u8>,
}

// Whether a mount of the log puts out each body that recovery found.
fn puts_all(found: &ToWrite) -> bool
    ensures { (result ≡ true) ↔ (length found.now.written.items ≡ length found.now.recovered.blocks.bodies.items) }
{
    found.written.len() == found.recovered.blocks.bodies.len()
}

// The blocks by which the log is found: the boot sector, and record 2 where it says that the file
// table begins.
fn kept_of(alloc: Global, map: &VolumeMap) -> Result<Vec<Block>, AllocError>
    ensures { IfOk result (λ kept. kept.items ≡ found_by (geometry_in map.now)) }
{
    let geometry = Geometry {
        per_cluster: map.per_cluster,
        mft: map.mft,
    };
    let boot = Block {
        first: 0,
        kind: BlockKind::Plain,
    };
    Ok(vec![in alloc; boot, boot_block(&geometry, LOG_RECORD)]?)
}

// Whether the file, if there is one, has no attribute list.
fn is_plain(file: &Option<FileRec>) -> bool
    ensures { result ≡ is_plain file.now }
{
    match file {
        Some(file) => !has_type(file, ATTRIBUTE_LIST),
        None => true,
    }
}

fn are_plain(files: &[Option<FileRec>]) -> bool
    ensures { result ≡ list_all is_plain files.now }
{
    files.iter().all(|file| is_plain(file))
}

// The map, for changes to be followed.
fn live_of(map: VolumeMap) -> LiveMap
    ensures { result.map ≡ map }
{
    let plain = are_plain(&map.files);
    LiveMap { map, plain }
}

// What a start has of a mounted volume, on a device of so many sectors.
fn planned(alloc: Global, sectors: u64, mounted: Mounted) -> Result<StartPlan, StartFault>
    ensures plan { IfOk result (PlansFrom mounted) }
    ensures fits { IfOk result (FitsPlan sectors) }
    ensures unfit { IsErrOf result StartFault.Unfit → IsUnfit mounted }
    ensures unknown { IsErrOf result StartFault.Unknown → FitsStart sectors mounted.opening.place → ⊥ }
    ensures never { IfErr result IsInMemory }
{
    if !puts_all(&mounted.opening.found) {
        return Err(StartFault::Unfit);
    }
    let Some(streams) = streams_of(alloc, &mounted.map)? else {
        return Err(StartFault::Unfit);
    };
    if !fits_start(alloc, &mounted.opening.place, sectors)? {
        return Err(StartFault::Unknown);
    }
    let kept = kept_of(alloc, &mounted.map)?;
    let names = Names::new(alloc, &mounted.map.files)?;
    let room = piece_room(alloc)?;
    let Mounted {
        opening,
        map,
        upper,
        ..
    } = mounted;
    Ok(StartPlan {
        place: opening.place,
        kept,
        live: live_of(map),
        upper,
        names,
        streams,
        room,
    })
}

/// Mounts the volume of a device, and takes all memory that a start needs. The device is only read.
///
/// The errors are those of [`start`](crate::start).
pub fn prepare<D: Device>(alloc: Global, device: &mut D) -> Result<StartPlan, StartFault>
    ensures on { IfSome (D.gives device.old) (λ first. IfOk result (PlansOn first)) }
    ensures fits { IfOk result (FitsPlan (D.sector_count device.old)) }
    ensures refused { IfSome (D.gives device.old) (λ first. IfErr result (RefusesAs first)) }
    ensures unfit { IfSome (D.gives device.old) (λ first. IfErr result (UnfitAs first)) }
    ensures unknown { IfSome (D.gives device.old) (λ first. IfErr result (UnknownAs (D.sector_count device.old) first)) }
    ensures kept { KeepsDevice D.gives D.sector_count D.changes_of D.fault_count D.moment_of device.old device.new }
    ensures fault { IsErrOf result StartFault.Device → HasFailed (D.fault_count device.old) (D.fault_count device.new) (D.moment_of device.new) }
    ensures counted { D.moment_of device.old < last_moment → CountsOnDevice count_cause (D.fault_count device.old) (D.fault_count device.new) (D.moment_of device.new) result }
{
    let mounted = mount(alloc, device)?;
    planned(alloc, device.sectors(), mounted)
}
