//! The laws of these definitions.
ghost use Rattle.mounted_states.specs.Calls.{FoundLieOff, StoresKeepFound};
ghost use Rattle.mounted_states.specs.Ready.{StoresMayBeChanged};
ghost use Rattle.mounted_states.specs.Shown.{AllPutOut, StoresShowMounted};
ghost use Rattle.mounted_states.specs.Starts.{StoresBegin};

use safe_blocks::{
    mounted_by_record, mounted_passes, mounts_hold_states, needed_are_safe, needed_is_all,
    stores_spare, windows_tell,
};
use sector_device::Device;
use stays_at_mount::mounts_stay;

/// Law: the blocks by which the log of a mounted volume is found lie off it.
pub fn found_lie_off()
    ensures { FoundLieOff }
{
    mounts_hold_states();
}

/// Law: the mount of a store leaves the sectors of the blocks by which its log is found, where these
/// lie off it, whether it ends well or is stopped.
pub fn stores_keep_found<D: Device>(device: &D)
    ensures { StoresKeepFound D.gives D.sector_count D.changes_of D.fault_count D.moment_of }
{
    mounts_stay(device);
}

/// Law: where a mount puts out each body that recovery found, no block stays torn.
pub fn all_put_out()
    ensures { AllPutOut }
{}

/// Law: what a store shows that was mounted on the sectors from which a volume was mounted, and of
/// which nothing was unsynced, is the state of this volume: the same volume, tree, table of
/// upper-case units and map.
pub fn stores_show_mounted()
    ensures { StoresShowMounted }
{
    mounts_hold_states();
    needed_are_safe();
    needed_is_all();
    windows_tell();
}

/// Law: such a store begins at rest over the mounted volume, and holds its state.
pub fn stores_begin()
    ensures { StoresBegin }
{
    mounts_hold_states();
    needed_are_safe();
    needed_is_all();
    stores_spare();
    windows_tell();
}

/// Law: and the mounted volume has what operations ask that change it: no change journal, clusters
/// that can be named, and a log whose runs lie in its clusters.
pub fn stores_may_be_changed()
    ensures { StoresMayBeChanged }
{
    mounted_by_record();
    mounted_passes();
    mounts_hold_states();
    needed_are_safe();
    needed_is_all();
    stores_spare();
    windows_tell();
}
