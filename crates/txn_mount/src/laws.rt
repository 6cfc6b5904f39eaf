ghost use Rattle.txn_mount.specs.Contents.{ReadsAreLevel};
ghost use Rattle.txn_mount.specs.Mountable.{NeverRefused, StoppedMountsMount, StoresMount};
ghost use Rattle.txn_mount.specs.Laws.{ChosenMayMount, MountsRecover, ReadsDisk, StartsBehind, StoppedMounts};

use sector_device::Device;

/// Law: the entries of a log that isn't refused undo as many bytes as they redo.
pub fn reads_level()
    ensures { ReadsAreLevel }
{}

/// Law: the blocks that are chosen of what recovery found are all that are to be written out, and
/// each of them may be.
pub fn chosen_may_mount()
    ensures { ChosenMayMount }
{}

/// Law: what a mount writes by the entries of a log leaves, wherever it is stopped, images that
/// recover to the same content, with no LSN above the new session's lap; and once all is done, a
/// store begins that shows this content.
pub fn mounts_recover<D: Device>(_device: &D)
    ensures { MountsRecover D.gives D.changes_of D.moment_of }
{}

/// Law: so a mount of what a stopped one left, however often, recovers to the first content.
pub fn stopped_mounts()
    ensures { StoppedMounts }
{}

/// Law: what was read of a device is what recovery makes of the disk behind it, if it is known.
pub fn reads_disk()
    ensures { ReadsDisk }
{}

/// Law: a store may begin behind a mount's calls, whether the disk is known or not, and whatever of
/// it was unsynced before.
pub fn starts_behind<D: Device>(_device: &D)
    ensures { StartsBehind D.gives D.changes_of D.moment_of }
{}

/// Law: a mount refuses nothing that a store leaves, at a return or inside a call, as long as the
/// laps of its log don't come near their end; and the lap that it begins is at most one more than
/// that of the place where the store would append next.
pub fn stores_mount()
    ensures { StoresMount }
{}

/// Law: nor what such a mount leaves that was stopped: the lap of the mount that comes then is one
/// more at most.
pub fn stopped_mounts_mount()
    ensures { StoppedMountsMount }
{}

/// Law: a mount of such a disk that writes answers `Ok`, a failure of the device or want of memory.
pub fn never_refused()
    ensures { NeverRefused }
{}
