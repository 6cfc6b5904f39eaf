//! A block that is read by a call of its own.
ghost use Rattle.std.specs.Prelude.{◌≡◌, ◌+◌, ◌*◌, ◌≤◌, length, OnOk, IfOk, IfSome};
ghost use Rattle.disk_model.specs.Content.{content_of};
ghost use Rattle.disk_model.specs.Sectors.{sector_of, sectors};
ghost use Rattle.host_base.specs.Causes.{FailsByCause};
ghost use Rattle.log_area.specs.Calls.{IsAsked};
ghost use Rattle.device_blocks.specs.Words.{word_at, IsFitWord};

use crate::undoing::undo;
use crate::word::CheckWord;
use disk_model::{Block, BlockKind, Body};
use host_base::Failed;
use log_area::Device;

// Reads the body of a block through a buffer of its size.
fn read_through<D: Device>(
    device: &mut D,
    block: Block,
    raw: &mut [u8],
    out: &mut Body,
) -> Result<CheckWord, Failed>
    requires room { length raw.old ≡ 512 * sectors block.kind }
    requires inside { block.first + sectors block.kind ≤ D.sector_count device.old }
    ensures body { OnOk result (IfSome (D.gives device.old) (λ disk. out.new ≡ content_of (sector_of disk) block)) }
    ensures size { OnOk result (length out.new.bytes ≡ 512 * sectors block.kind) }
    ensures word { IfOk result (λ word. IfSome (D.gives device.old) (λ disk. word ≡ word_at disk block)) }
    ensures fit { IfOk result IsFitWord }
    ensures asked { IsAsked D.gives D.changes_of D.moment_of device.old device.new }
    ensures sectors { D.sector_count device.new ≡ D.sector_count device.old }
    ensures cause { FailsByCause (D.fault_count device.old) (D.fault_count device.new) (D.moment_of device.new) result }
{
    device.read(block.first, raw)?;
    Ok(undo(block.kind, raw, out))
}

/// Reads the body of a block that lies inside the device, as it stands there, and answers the check
/// word that stands there with it: by one call of the device. Linear in the sectors read.
///
/// The error is a failure of the device; then any body may stand in `out`.
pub fn read_block<D: Device>(
    device: &mut D,
    block: Block,
    out: &mut Body,
) -> Result<CheckWord, Failed>
    requires inside { block.first + sectors block.kind ≤ D.sector_count device.old }
    ensures body { OnOk result (IfSome (D.gives device.old) (λ disk. out.new ≡ content_of (sector_of disk) block)) }
    ensures size { OnOk result (length out.new.bytes ≡ 512 * sectors block.kind) }
    ensures word { IfOk result (λ word. IfSome (D.gives device.old) (λ disk. word ≡ word_at disk block)) }
    ensures fit { IfOk result IsFitWord }
    ensures asked { IsAsked D.gives D.changes_of D.moment_of device.old device.new }
    ensures sectors { D.sector_count device.new ≡ D.sector_count device.old }
    ensures cause { FailsByCause (D.fault_count device.old) (D.fault_count device.new) (D.moment_of device.new) result }
{
    match block.kind {
        BlockKind::Plain => read_through(device, block, &mut [0; 512], out),
        BlockKind::FileRec => read_through(device, block, &mut [0; 1024], out),
        BlockKind::Index => read_through(device, block, &mut [0; 4096], out),
    }
}
