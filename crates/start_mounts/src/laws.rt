//! The law of these definitions.
ghost use Rattle.start_mounts.specs.Stopped.{StoppedStartsMount};

use crash_mounts::{needed_is_all, opens_alike, states_load};
use safe_blocks::{mounted_by_record, mounted_passes, mounts_hold_states, needed_are_safe};
use txn_mount::stopped_mounts_mount;

/// Law: an image that a stopped start of a mounted volume left mounts as the tree that was mounted,
/// where it recovers alike by the volume's log.
pub fn stopped_starts_mount()
    ensures { StoppedStartsMount }
{
    mounted_by_record();
    mounted_passes();
    mounts_hold_states();
    needed_are_safe();
    needed_is_all();
    opens_alike();
    states_load();
    stopped_mounts_mount();
}
