//! The laws of these definitions.
ghost use Rattle.safe_blocks.specs.Safe.{MountsHoldStates, NeededAreSafe, SingleListsAreOwn};

use spares_at_mount::{mounted_by_record, mounted_on_ring, mounted_passes};

/// Law: where no file has a second attribute list, each file's attribute list is the one that its
/// own record has.
pub fn single_lists_are_own()
    ensures { SingleListsAreOwn }
{}

/// Law: a block from which a state is read is one that a store may change whose log lies in the
/// volume's log, or one by which this log is found.
pub fn needed_are_safe()
    ensures { NeededAreSafe }
{}

/// Law: the window of a store at its start over a mounted volume holds the state of this volume.
pub fn mounts_hold_states()
    ensures { MountsHoldStates }
{
    mounted_by_record();
    mounted_on_ring();
    mounted_passes();
}
