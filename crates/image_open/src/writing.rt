//! The front of a volume for a mount that writes: its boot sector and its log.
ghost use Rattle.std.specs.Prelude.{◌≡◌, ◌*◌, ◌^◌, ◌<◌, All, IfOk, IfSome};
ghost use Rattle.boot_sector.specs.BootSectors.{IsInProfile};
ghost use Rattle.block_view.specs.Views.{AsksView};
ghost use Rattle.log_recovery.specs.log_reading.LogPages.{IsLogPlace};
ghost use Rattle.log_recovery.specs.Recovering.{IsSized};
ghost use Rattle.log_recovery.specs.Writing.{places_where, has_spelled};
ghost use Rattle.image_open.specs.Errors.{scan_cause};
ghost use Rattle.image_open.specs.Writing.{log_to_write, opened_of, opened_with, opened_behind, opened_to_write_in, FindsToWrite, OpensToWrite};

use crate::boot::{BOOT_PLACE, boot_on};
use crate::clusters::clusters_in;
use crate::log::{LOG_RECORD, log_place, log_record};
use crate::opening::{clusters_of, geometry_of};
use crate::refusal::MountFault;
use block_view::View;
use boot_sector::Boot;
use disk_model::{Block, Body};
use log_recovery::{LogPlace, ToWrite, recover_to_write};
use state_model::Geometry;
use std::alloc::Global;
use volume_map::boot_block;

/// A volume that was opened for a mount that writes.
#[derive(Debug, Drop)]
pub struct OpeningToWrite {
    /// The sectors of a cluster, and the cluster at which the file table begins.
    pub geometry: Geometry,
    /// The volume's clusters.
    pub total: u64,
    /// Where the log lies.
    pub place: LogPlace,
    /// What recovery finds by the log, and which of its blocks the mount writes out.
    pub found: ToWrite,
}

// What a mount that writes finds by the log at this place, which is found by these blocks.
fn found_at<V: View>(
    alloc: Global,
    view: &mut V,
    place: &LogPlace,
    kept: &[Block],
) -> Result<ToWrite, MountFault>
    requires place { IsLogPlace place.now }
    ensures answer { IfSome (V.content view.old) (λ c. FindsToWrite c (log_to_write c place.now kept.now) result) }
    ensures sized { IfOk result (λ found. All IsSized found.recovered.blocks.bodies.items) }
    ensures written { IfOk result (λ found. found.written.items ≡ places_where has_spelled 0 found.recovered.blocks.bodies.items) }
    ensures kept { AsksView V.content V.kept V.faults scan_cause view.old view.new result }
{
    Ok(recover_to_write(alloc, view, place, kept)?)
}

// A volume of this geometry and so many clusters, on a device of so many sectors.
fn open_log<V: View>(
    alloc: Global,
    view: &mut V,
    geometry: Geometry,
    total: u64,
    sectors: u64,
    body: &mut Body,
) -> Result<OpeningToWrite, MountFault>
    requires table { geometry.mft * geometry.per_cluster < 2 ^ 62 }
    ensures answer { IfSome (V.content view.old) (λ c. OpensToWrite c (opened_of c geometry total sectors) result) }
    ensures table { IfOk result (λ o. o.geometry.mft * o.geometry.per_cluster < 2 ^ 62) }
    ensures place { IfOk result (λ o. IsLogPlace o.place) }
    ensures sized { IfOk result (λ o. All IsSized o.found.recovered.blocks.bodies.items) }
    ensures written { IfOk result (λ o. o.found.written.items ≡ places_where has_spelled 0 o.found.recovered.blocks.bodies.items) }
    ensures kept { AsksView V.content V.kept V.faults scan_cause view.old view.new result }
{
    let file = log_record(alloc, view, &geometry, body)?;
    let place = log_place(alloc, &geometry, total, sectors, &file)?;
    let found = found_at(
        alloc,
        view,
        &place,
        &[BOOT_PLACE, boot_block(&geometry, LOG_RECORD)],
    )?;
    Ok(OpeningToWrite {
        geometry,
        total,
        place,
        found,
    })
}

// A volume with this boot sector.
#[tactic(auto, unfolding(crate::specs::Writing::opened_with))]
fn open_with<V: View>(
    alloc: Global,
    view: &mut V,
    sectors: u64,
    boot: &Boot,
    body: &mut Body,
) -> Result<OpeningToWrite, MountFault>
    requires profile { IsInProfile boot.now }
    ensures answer { IfSome (V.content view.old) (λ c. OpensToWrite c (opened_with c sectors boot.now) result) }
    ensures table { IfOk result (λ o. o.geometry.mft * o.geometry.per_cluster < 2 ^ 62) }
    ensures place { IfOk result (λ o. IsLogPlace o.place) }
    ensures sized { IfOk result (λ o. All IsSized o.found.recovered.blocks.bodies.items) }
    ensures written { IfOk result (λ o. o.found.written.items ≡ places_where has_spelled 0 o.found.recovered.blocks.bodies.items) }
    ensures kept { AsksView V.content V.kept V.faults scan_cause view.old view.new result }
{
    open_log(
        alloc,
        view,
        geometry_of(boot),
        clusters_of(boot),
        sectors,
        body,
    )
}

// A volume whose clusters have been asked for their sectors.
fn open_behind<V: View>(
    alloc: Global,
    view: &mut V,
    sectors: u64,
    body: &mut Body,
) -> Result<OpeningToWrite, MountFault>
    ensures answer { IfSome (V.content view.old) (λ c. OpensToWrite c (opened_behind c sectors) result) }
    ensures table { IfOk result (λ o. o.geometry.mft * o.geometry.per_cluster < 2 ^ 62) }
    ensures place { IfOk result (λ o. IsLogPlace o.place) }
    ensures sized { IfOk result (λ o. All IsSized o.found.recovered.blocks.bodies.items) }
    ensures written { IfOk result (λ o. o.found.written.items ≡ places_where has_spelled 0 o.found.recovered.blocks.bodies.items) }
    ensures kept { AsksView V.content V.kept V.faults scan_cause view.old view.new result }
{
    let boot = boot_on(view, sectors, body)?;
    open_with(alloc, view, sectors, &boot, body)
}

/// Opens the volume that a view shows on a device of so many sectors of 512 bytes for a mount that
/// writes (Linux-NTFS documentation, "$Boot", "$LogFile"): where its file table and its log lie,
/// how many clusters it has, and what recovery finds by the log, with the blocks that the mount
/// writes out. It reads the boot sector, record 2 where this says that the file table begins, the
/// log, and the blocks that the log's entries update. Nothing is written.
///
/// - [`MountFault::Refused`]: the first refusal that applies. First that of
///   [`clusters_in`](crate::clusters_in), where a cluster hasn't eight sectors; then that of the
///   boot sector, or `Short` with the sectors of the volume and of the device, where the device has
///   fewer; then that of record 2, by its rules 1 to 8; then that of the log, as `recover_view`
///   says; and last `ForeignLog` where a block that would be written out has a sector of the log,
///   the boot sector or a sector of record 2, by which the log is found, or where no bytes of a
///   disk stand for its recovered body: with the LSN of the first entry that updates such a block.
/// - [`MountFault::Device`]: the view failed.
/// - [`MountFault::Memory`]: want of memory.
///
/// Time is linear in the log's pages on the device, quadratic in the runs of its stream, which are
/// those of one record, and near-linear in the bytes of its entries.
pub fn open_to_write<V: View>(
    alloc: Global,
    view: &mut V,
    sectors: u64,
) -> Result<OpeningToWrite, MountFault>
    ensures answer { IfSome (V.content view.old) (λ c. OpensToWrite c (opened_to_write_in c sectors) result) }
    ensures table { IfOk result (λ o. o.geometry.mft * o.geometry.per_cluster < 2 ^ 62) }
    ensures place { IfOk result (λ o. IsLogPlace o.place) }
    ensures sized { IfOk result (λ o. All IsSized o.found.recovered.blocks.bodies.items) }
    ensures written { IfOk result (λ o. o.found.written.items ≡ places_where has_spelled 0 o.found.recovered.blocks.bodies.items) }
    ensures kept { AsksView V.content V.kept V.faults scan_cause view.old view.new result }
{
    let mut body = Body::empty(alloc)?;
    clusters_in(view, &mut body)?;
    open_behind(alloc, view, sectors, &mut body)
}
