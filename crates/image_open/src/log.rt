//! The log of a volume: where it lies, and the blocks that recovery by it makes.
ghost use Rattle.std.specs.Prelude.{◌≡◌, ◌*◌, ◌^◌, ◌<◌, All, IfOk, IfErr, IfSome};
ghost use Rattle.host_base.specs.Answers.{GivesOrFails};
ghost use Rattle.block_view.specs.Views.{AsksView};
ghost use Rattle.state_model.specs.Loads.{data_stream};
ghost use Rattle.log_recovery.specs.log_reading.LogPages.{IsLogPlace};
ghost use Rattle.log_recovery.specs.Recovering.{content_with, IsSized};
ghost use Rattle.log_recovery.specs.LogStates.{recovery_in};
ghost use Rattle.image_open.specs.Errors.{scan_cause};
ghost use Rattle.image_open.specs.LogPlaces.{LieAlike};
ghost use Rattle.image_open.specs.Openings.{AreFoundBy};
ghost use Rattle.image_open.specs.Volumes.{data_of, log_record, log_place, log_state, recovered_at, recovered_in};

use crate::place::place_of_log;
use crate::refusal::MountFault;
use block_view::View;
use disk_model::Body;
use host_base::Memory;
use log_recovery::{LogPlace, RecoveredBlocks, recover_view};
use state_model::{DATA, Geometry, Stream};
use std::alloc::Global;
use volume_map::{FileRec, boot_record, stream_of};

/// The number of the log's record.
pub const LOG_RECORD: u64 = 2;

#[tactic(auto, unfolding(state_model::specs::Loads::data_stream))]
fn data_stream(alloc: Global, file: &FileRec) -> Result<Option<Stream>, Memory>
    ensures value { IfOk result (λ stream. stream ≡ data_stream file.now) }
{
    stream_of(alloc, DATA, &[], file.attrs().as_slice())
}

// The unnamed data of a file.
fn data_of(alloc: Global, file: &Option<FileRec>) -> Result<Option<Stream>, Memory>
    ensures value { IfOk result (λ stream. stream ≡ data_of file.now) }
{
    match file {
        Some(file) => data_stream(alloc, file),
        None => Ok(None),
    }
}

/// Record 2 where the boot sector says that the file table begins.
pub fn log_record<V: View>(
    alloc: Global,
    view: &mut V,
    geometry: &Geometry,
    body: &mut Body,
) -> Result<Option<FileRec>, MountFault>
    requires { geometry.now.mft * geometry.now.per_cluster < 2 ^ 62 }
    ensures answer { IfSome (V.content view.old) (λ c. GivesOrFails (λ file. file) scan_cause result (log_record c geometry.now)) }
    ensures kept { AsksView V.content V.kept V.faults scan_cause view.old view.new result }
{
    Ok(boot_record(alloc, view, geometry, LOG_RECORD, body)?)
}

/// The place of the log with this record, of a volume of so many clusters on a device of so many
/// sectors.
pub fn log_place(
    alloc: Global,
    geometry: &Geometry,
    clusters: u64,
    device: u64,
    file: &Option<FileRec>,
) -> Result<LogPlace, MountFault>
    ensures value { IfOk result (λ place. LieAlike place (log_place geometry.now clusters device file.now)) }
    ensures place { IfOk result IsLogPlace }
    ensures memory { IfErr result (λ e. e ≡ MountFault.Memory) }
{
    let stream = data_of(alloc, file)?;
    Ok(place_of_log(alloc, geometry.per_cluster, clusters, device, &stream)?)
}

// The blocks that recovery by the log at this place makes and shadows.
fn recovered_at<V: View>(
    alloc: Global,
    view: &mut V,
    place: &LogPlace,
) -> Result<RecoveredBlocks, MountFault>
    requires place { IsLogPlace place.now }
    ensures answer { IfSome (V.content view.old) (λ c. GivesOrFails (λ blocks. content_with blocks.bodies.items c) scan_cause result (recovered_at c place.now)) }
    ensures found { IfOk result (λ blocks. IfSome (V.content view.old) (λ c. AreFoundBy c (recovery_in c place.now) blocks)) }
    ensures sized { IfOk result (λ blocks. All IsSized blocks.bodies.items) }
    ensures kept { AsksView V.content V.kept V.faults scan_cause view.old view.new result }
{
    let found = recover_view(alloc, view, place)?;
    Ok(found.blocks)
}

/// The blocks that recovery by the log of a volume of so many clusters makes, and those that it
/// shadows, on a device of so many sectors. It reads record 2 where the boot sector says that the
/// file table begins, and the log; `body` is room for a body.
///
/// - [`MountFault::Refused`]: `BadFixup` or `BadRecord` of record 2, by its rules 1 to 8; or
///   `LogVersion`, `NoRestart` or `ForeignLog`, as `recover_view` says.
/// - [`MountFault::Device`]: the view failed.
/// - [`MountFault::Memory`]: want of memory.
pub fn recovered_in<V: View>(
    alloc: Global,
    view: &mut V,
    geometry: &Geometry,
    clusters: u64,
    device: u64,
    body: &mut Body,
) -> Result<RecoveredBlocks, MountFault>
    requires place { geometry.now.mft * geometry.now.per_cluster < 2 ^ 62 }
    ensures answer { IfSome (V.content view.old) (λ c. GivesOrFails (λ blocks. content_with blocks.bodies.items c) scan_cause result (recovered_in c geometry.now clusters device)) }
    ensures found { IfOk result (λ blocks. IfSome (V.content view.old) (λ c. AreFoundBy c (log_state c geometry.now clusters device) blocks)) }
    ensures sized { IfOk result (λ blocks. All IsSized blocks.bodies.items) }
    ensures kept { AsksView V.content V.kept V.faults scan_cause view.old view.new result }
{
    let file = log_record(alloc, view, geometry, body)?;
    let place = log_place(alloc, geometry, clusters, device, &file)?;
    recovered_at(alloc, view, &place)
}
