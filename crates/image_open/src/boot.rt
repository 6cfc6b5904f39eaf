//! The boot sector of a device.
ghost use Rattle.std.specs.Prelude.{◌≡◌, ◌≤◌, IfOk, IfSome, nat_le, length};
ghost use Rattle.host_base.specs.Answers.{Gives, GivesOrFails, needs};
ghost use Rattle.boot_sector.specs.BootSectors.{boot_of, IsInProfile};
ghost use Rattle.block_view.specs.Views.{AsksView};
ghost use Rattle.image_open.specs.Errors.{scan_cause, boot_refusal, refused_as};
ghost use Rattle.image_open.specs.Volumes.{boot_in, sized_on, boot_on};

use crate::refusal::{MountFault, Refusal};
use block_view::View;
use boot_sector::Boot;
use disk_model::{Block, BlockKind, Body};

/// The first sector.
pub const BOOT_PLACE: Block = Block {
    first: 0,
    kind: BlockKind::Plain,
};

fn boot_of(bytes: &[u8]) -> Result<Boot, MountFault>
    requires { length bytes.now ≡ 512 }
    ensures answer { Gives (λ b. b) scan_cause result (refused_as boot_refusal (boot_of bytes.now)) }
    ensures profile { IfOk result IsInProfile }
{
    Ok(Boot::read(bytes)?)
}

// The fields of the first sector.
fn read_boot<V: View>(view: &mut V, body: &mut Body) -> Result<Boot, MountFault>
    ensures answer { IfSome (V.content view.old) (λ c. GivesOrFails (λ b. b) scan_cause result (boot_in c)) }
    ensures profile { IfOk result IsInProfile }
    ensures kept { AsksView V.content V.kept V.faults scan_cause view.old view.new result }
{
    view.body(BOOT_PLACE, body)?;
    boot_of(body.bytes())
}

// Refuses a device that is shorter than its volume.
fn sized_on(sectors: u64, boot: Boot) -> Result<Boot, MountFault>
    requires { IsInProfile boot }
    ensures answer { Gives (λ b. b) scan_cause result (sized_on sectors boot) }
    ensures profile { IfOk result IsInProfile }
{
    if boot.sectors > sectors {
        return Err(MountFault::Refused(Refusal::Short {
            sectors: boot.sectors,
            device: sectors,
        }));
    }
    Ok(boot)
}

/// The fields of the boot sector (Linux-NTFS documentation, "$Boot") of the volume that a view
/// shows, on a device of so many sectors of 512 bytes. It reads the first sector into `body`, which
/// is room for a body, and nothing else.
///
/// - [`MountFault::Refused`]: the refusal of the boot sector, or [`Refusal::Short`] with the
///   sectors of the volume and of the device, where the device has fewer.
/// - [`MountFault::Device`]: the view failed.
/// - [`MountFault::Memory`]: want of memory.
pub fn boot_on<V: View>(view: &mut V, sectors: u64, body: &mut Body) -> Result<Boot, MountFault>
    ensures answer { IfSome (V.content view.old) (λ c. GivesOrFails (λ b. b) scan_cause result (boot_on c sectors)) }
    ensures profile { IfOk result IsInProfile }
    ensures kept { AsksView V.content V.kept V.faults scan_cause view.old view.new result }
{
    let boot = read_boot(view, body)?;
    sized_on(sectors, boot)
}
