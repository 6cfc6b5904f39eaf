//! The sectors of a cluster of a volume that is mounted.
ghost use Rattle.std.specs.Prelude.{◌≡◌, IfSome, length};
ghost use Rattle.host_base.specs.Answers.{Gives, GivesOrFails};
ghost use Rattle.disk_model.specs.Numbers.{field};
ghost use Rattle.boot_sector.specs.BootSectors.{boot_of};
ghost use Rattle.block_view.specs.Views.{AsksView};
ghost use Rattle.image_open.specs.Errors.{scan_cause};
ghost use Rattle.image_open.specs.Clusters.{is_earlier_fault, is_refused_earlier, eight_sectors, clusters_in};

use crate::boot::BOOT_PLACE;
use crate::refusal::{MountFault, Refusal};
use block_view::View;
use boot_sector::{Boot, BootFault};
use disk_model::{Body, u8_at};

// What comes before the sectors of a cluster: rules 1 and 2, and the bytes of a sector.
fn is_earlier_fault(fault: BootFault) -> bool
    ensures { result ≡ is_earlier_fault fault }
{
    match fault {
        BootFault::NotNtfs { .. } => true,
        BootFault::Geometry { field, .. } => field == 0x0B,
        BootFault::VolumeLarge { .. } => false,
    }
}

fn is_refused_earlier(boot: Result<Boot, BootFault>) -> bool
    ensures { result ≡ is_refused_earlier boot }
{
    match boot {
        Ok(_) => false,
        Err(fault) => is_earlier_fault(fault),
    }
}

// Refuses clusters that haven't eight sectors, where nothing before them is refused.
#[tactic(auto, unfolding(crate::specs::Clusters::eight_sectors))]
fn eight_sectors(boot: Result<Boot, BootFault>, per_cluster: u8) -> Result<(), MountFault>
    ensures answer { Gives (λ x. x) scan_cause result (eight_sectors boot per_cluster) }
{
    if per_cluster == 8 || is_refused_earlier(boot) {
        return Ok(());
    }
    Err(MountFault::Refused(Refusal::Geometry {
        field: 0x0D,
        value: u64::from(per_cluster),
    }))
}

// The same of the bytes of a boot sector.
fn check_clusters(bytes: &[u8]) -> Result<(), MountFault>
    requires { length bytes.now ≡ 512 }
    ensures answer { Gives (λ x. x) scan_cause result (eight_sectors (boot_of bytes.now) (field 0x0D 1 bytes.now)) }
{
    eight_sectors(Boot::read(bytes), u8_at(bytes, 0x0D))
}

/// Refuses a volume whose clusters haven't eight sectors, which is what a mount asks before all
/// else of the volume that a view shows. It reads the first sector into `body`, which is room for a
/// body, and nothing else.
///
/// - [`MountFault::Refused`]: [`Refusal::Geometry`] with 13 and the sectors of a cluster at 0x0D of
///   the boot sector (Linux-NTFS documentation, "$Boot"), where these aren't 8; but where the name
///   or the mark of the boot sector or the bytes of a sector at 0x0B are refused, which come
///   before, this answers nothing, and the reading of the boot sector refuses them.
/// - [`MountFault::Device`]: the view failed.
/// - [`MountFault::Memory`]: want of memory.
pub fn clusters_in<V: View>(view: &mut V, body: &mut Body) -> Result<(), MountFault>
    ensures answer { IfSome (V.content view.old) (λ c. GivesOrFails (λ x. x) scan_cause result (clusters_in c)) }
    ensures kept { AsksView V.content V.kept V.faults scan_cause view.old view.new result }
{
    view.body(BOOT_PLACE, body)?;
    check_clusters(body.bytes())
}
