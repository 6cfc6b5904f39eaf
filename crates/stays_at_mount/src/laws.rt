//! The law of these definitions.
ghost use Rattle.stays_at_mount.specs.Mounts.{MountsStay};

use sector_device::Device;

/// Law: all that a mount writes leaves the sectors of the blocks by which the log is found, wherever it
/// is stopped.
pub fn mounts_stay<D: Device>(_device: &D)
    ensures { MountsStay D.gives D.moment_of D.changes_of }
{}
