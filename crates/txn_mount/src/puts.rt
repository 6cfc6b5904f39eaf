//! Blocks are put out.
ghost use Rattle.std.specs.Prelude.{◌≡◌, ◌≤◌, All};
ghost use Rattle.host_base.specs.Causes.{FailsByCause};
ghost use Rattle.txn_mount.specs.Calls.{PutsBack, PutsAll};
ghost use Rattle.txn_mount.specs.Puts.{items_of, MayPut, MayPutAt};

use host_base::Failed;
use log_recovery::RecoveredBlock;
use sector_device::Device;
use txn_core::{CheckWord, write_body};

/// A block that a mount puts out.
#[derive(Debug, Drop)]
pub struct PutOut {
    /// Its first sector.
    pub first: u64,
    /// Its place among the bodies that recovery found.
    pub place: usize,
}

// Writes a block with its recovered body, under the check word behind the one that stands there.
fn write_one<D: Device>(device: &mut D, made: &RecoveredBlock) -> Result<(), Failed>
    requires { MayPut (D.sector_count device.old) made.now }
    ensures put { PutsBack D.gives D.changes_of D.moment_of made.now result device.old device.new }
    ensures sectors { D.sector_count device.new ≡ D.sector_count device.old }
    ensures cause { FailsByCause (D.fault_count device.old) (D.fault_count device.new) (D.moment_of device.new) result }
{
    let mut word = CheckWord::Unread;
    write_body(device, made.block, &mut word, made.body.bytes())
}

/// Writes these blocks in order, each with its recovered body: two calls of the device for each.
///
/// The error is a failure of the device: then the blocks before it stand, and of this one any
/// sectors.
pub fn write_outs<D: Device>(
    device: &mut D,
    bodies: &[RecoveredBlock],
    keys: &[PutOut],
) -> Result<(), Failed>
    requires { All (MayPutAt (D.sector_count device.old) bodies.now) keys.now }
    ensures put { PutsAll D.gives D.changes_of D.moment_of (items_of bodies.now keys.now) result device.old device.new }
    ensures sectors { D.sector_count device.new ≡ D.sector_count device.old }
    ensures cause { FailsByCause (D.fault_count device.old) (D.fault_count device.new) (D.moment_of device.new) result }
{
    for key in keys {
        match write_one(device, &bodies[key.place]) {
            Ok(()) => {}
            Err(fault) => return Err(fault),
        }
    }
    Ok(())
}
