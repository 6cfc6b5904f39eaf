//! The front of a volume: its boot sector and its log.
ghost use Rattle.std.specs.Prelude.{◌≡◌, ◌*◌, ◌^◌, ◌<◌, IfOk, IfSome};
ghost use Rattle.host_base.specs.Answers.{GivesOrFails};
ghost use Rattle.boot_sector.specs.BootSectors.{IsInProfile, clusters};
ghost use Rattle.block_view.specs.Views.{AsksView};
ghost use Rattle.image_open.specs.Errors.{scan_cause};
ghost use Rattle.image_open.specs.Openings.{IsOpening, opened_as, HasBlocks};
ghost use Rattle.image_open.specs.Volumes.{geometry_of, opened_by, opened_in};

use crate::boot::boot_on;
use crate::log::recovered_in;
use crate::refusal::MountFault;
use block_view::View;
use boot_sector::Boot;
use disk_model::Body;
use log_recovery::RecoveredBlocks;
use state_model::{ClusterSize, Geometry};
use std::alloc::Global;

/// A volume that was opened.
#[derive(Debug, Drop)]
pub struct Opening {
    /// The sectors of a cluster, and the cluster at which the file table begins.
    pub geometry: Geometry,
    /// The volume's clusters.
    pub total: u64,
    /// The blocks that recovery by the volume's log makes, with whose bodies a `RecoveredView` is
    /// the volume's recovered content; and the shadowed ones, each with the LSN of the first update
    /// of a rival.
    pub blocks: RecoveredBlocks,
}

/// The sectors of a cluster, and the cluster at which the file table begins.
#[tactic(auto, unfolding(crate::specs::Volumes::geometry_of))]
pub fn geometry_of(boot: &Boot) -> Geometry
    requires profile { IsInProfile boot.now }
    ensures value { result ≡ geometry_of boot.now }
    ensures place { result.mft * result.per_cluster < 2 ^ 62 }
{
    Geometry {
        per_cluster: ClusterSize::new(u64::from(boot.per_cluster)).unwrap(),
        mft: boot.mft,
    }
}

/// The clusters of a volume. A boot sector of the profile has clusters of some sectors.
pub fn clusters_of(boot: &Boot) -> u64
    requires profile { IsInProfile boot.now }
    ensures value { result ≡ clusters boot.now }
{
    boot.clusters()
}

// A volume with this boot sector.
fn open_boot<V: View>(
    alloc: Global,
    view: &mut V,
    sectors: u64,
    boot: &Boot,
    body: &mut Body,
) -> Result<Opening, MountFault>
    requires profile { IsInProfile boot.now }
    ensures answer { IfSome (V.content view.old) (λ c. GivesOrFails (opened_as c) scan_cause result (opened_by c sectors boot.now)) }
    ensures found { IfOk result (λ opening. IfSome (V.content view.old) (λ c. HasBlocks c sectors opening)) }
    ensures opening { IfOk result IsOpening }
    ensures kept { AsksView V.content V.kept V.faults scan_cause view.old view.new result }
{
    let geometry = geometry_of(boot);
    let total = clusters_of(boot);
    let blocks = recovered_in(alloc, view, &geometry, total, sectors, body)?;
    Ok(Opening {
        geometry,
        total,
        blocks,
    })
}

/// Opens the volume that a view shows on a device of so many sectors of 512 bytes (Linux-NTFS
/// documentation, "$Boot", "$LogFile"): where its file table lies, how many clusters it has, and
/// the blocks that recovery by its log makes, with which its content is the recovered one, and
/// those that it shadows. It reads the boot sector, record 2 where this says that the file table
/// begins, and the log. Nothing is written.
///
/// - [`MountFault::Refused`]: the refusal of the boot sector, or `Short` with the sectors of the
///   volume and of the device, where the device has fewer; then that of record 2, by its rules 1 to
///   8; then that of the log.
/// - [`MountFault::Device`]: the view failed.
/// - [`MountFault::Memory`]: want of memory.
///
/// Time is linear in the log's pages on the device, and near-linear in the bytes of its entries.
pub fn open_volume<V: View>(
    alloc: Global,
    view: &mut V,
    sectors: u64,
) -> Result<Opening, MountFault>
    ensures answer { IfSome (V.content view.old) (λ c. GivesOrFails (opened_as c) scan_cause result (opened_in c sectors)) }
    ensures found { IfOk result (λ opening. IfSome (V.content view.old) (λ c. HasBlocks c sectors opening)) }
    ensures opening { IfOk result IsOpening }
    ensures kept { AsksView V.content V.kept V.faults scan_cause view.old view.new result }
{
    let mut body = Body::empty(alloc)?;
    let boot = boot_on(view, sectors, &mut body)?;
    open_boot(alloc, view, sectors, &boot, &mut body)
}
