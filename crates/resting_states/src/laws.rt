//! The laws of these definitions.
ghost use Rattle.resting_states.specs.Crashes.{RestsRecover};
ghost use Rattle.resting_states.specs.Puts.{PutsRest};
ghost use Rattle.resting_states.specs.Starts.{StartsRest};
ghost use Rattle.resting_states.specs.Turns.{TurnsAddNone, TurnsRest};

use member_states::{
    crashes_leave_states, needed_is_all, puts_keep_states, puts_spare, starts_hold_states,
    steps_keep_states, steps_spare, volumes_may_put,
};
use sector_device::Device;

/// Law: a volume at rest rests behind changes that it is asked to put, with the map that it keeps
/// then, whether they were put or not.
pub fn puts_rest()
    ensures { PutsRest }
{
    puts_keep_states();
    puts_spare();
    volumes_may_put();
}

/// Law: it rests behind a step of its store, whatever this answers, where the blocks by which the log
/// is found stay.
pub fn turns_rest<D: Device>(device: &D)
    ensures { TurnsRest D.gives D.sector_count D.moment_of D.changes_of }
{
    needed_is_all();
    steps_keep_states();
    steps_spare(device);
}

/// Law: a step of its store adds no state to those in the window.
pub fn turns_add_none()
    ensures { TurnsAddNone }
{
    needed_is_all();
}

/// Law: a volume over a store that begins on a state rests, in a window with this state alone.
pub fn starts_rest()
    ensures { StartsRest }
{
    starts_hold_states();
}

/// Law: whatever a crash leaves of a volume at rest, between two calls and inside one, recovers to a
/// state in the window, unless it could be left before.
pub fn rests_recover()
    ensures { RestsRecover }
{
    crashes_leave_states();
    needed_is_all();
    steps_keep_states();
}
