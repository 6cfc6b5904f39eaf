ghost use Rattle.txn_laws.specs.Following.{WindowsFollow};
ghost use Rattle.txn_laws.specs.Mounting.{MountsGoOn};
ghost use Rattle.txn_laws.specs.Laws.{
  CheckpointSteps,
  DeviceSteps,
  EndingsTell,
  MemoryCalls,
  NextStepsMayBeTaken,
  StoresStart,
  ToldCanBe,
  WindowsTell,
};

use area_laws::Device;

/// Law: at a return, whatever a crash may leave recovers to a content of the store's window, in
/// which as many commits wait as aren't known durable; and each present body is the one that is
/// kept, or what a read gives.
pub fn windows_tell()
    ensures { WindowsTell }
{}

/// Law: a store that goes on is one that ends; and the window of one that ends says as much, so that
/// whatever a crash may leave behind its last restart page recovers to a content of the window.
pub fn endings_tell()
    ensures { EndingsTell }
{}

/// Law: a store on a settled device whose log has no entries has a window, whose present content is
/// what reads give.
pub fn stores_start()
    ensures { StoresStart }
{}

/// Law: each call in memory leaves a store whose window follows the one before.
pub fn memory_calls()
    ensures { MemoryCalls }
{}

/// Law: so does each step that calls the device, whether its write answers `Ok` or fails; and an
/// image that a crash inside it leaves counted before, or recovers to a content of the window
/// before or after it.
pub fn device_steps<D: Device>(_device: &D)
    ensures { DeviceSteps D.gives D.changes_of D.moment_of }
{}

/// Law: so does the end of a checkpoint: the restart page that names the noted page, whether its
/// write answers `Ok` or fails, again with the same bytes too, and the sync behind it, which frees
/// the ring up to that page. Where a store ends, the page of its last checkpoint may say that the log
/// is closed.
pub fn checkpoint_steps<D: Device>(_device: &D)
    ensures { CheckpointSteps D.gives D.changes_of D.moment_of }
{}

/// Law: behind each call the contents that are left are those of before, or newer, on the blocks
/// that were spared. So an image that was left since a moment recovers to a content no older than
/// what was known durable then.
pub fn windows_follow()
    ensures { WindowsFollow }
{}

/// Law: the next step by what a store tells of itself may be taken where no transaction is open:
/// the laws of its calls ask for no more.
pub fn next_steps_may_be_taken()
    ensures { NextStepsMayBeTaken }
{}

/// Law: recovery of a device by the entries of its log leaves, write by write, images that recover
/// to the same content by the same entries, on known blocks that these don't shadow. Once all is
/// written and synced, that content stands there, and a store that begins there shows it.
pub fn mounts_go_on()
    ensures { MountsGoOn }
{}

/// Law: what a store tells of itself is such that there is no next step exactly where nothing is
/// left to do, where no transaction is open.
pub fn told_can_be()
    ensures { ToldCanBe }
{}
