//! The laws of these definitions.
ghost use Rattle.member_states.specs.Crashes.{CrashesLeaveStates};
ghost use Rattle.member_states.specs.Leads.{VolumesMayPut};
ghost use Rattle.member_states.specs.Puts.{PutsKeepStates};
ghost use Rattle.member_states.specs.Starts.{StartsHoldStates};
ghost use Rattle.member_states.specs.Steps.{StepsKeepStates};

use state_store::needed_is_all;

/// Law: whatever a crash leaves of a store whose window holds states recovers to one of them, with its
/// tree; between two calls and inside one.
pub fn crashes_leave_states()
    ensures { CrashesLeaveStates }
{
    needed_is_all();
}

/// Law: a step of the store leaves states in its window.
pub fn steps_keep_states()
    ensures { StepsKeepStates }
{
    needed_is_all();
}

/// Law: so does a list of changes that leads from a state to a state, whether it was put or not.
pub fn puts_keep_states()
    ensures { PutsKeepStates }
{
    needed_is_all();
}

/// Law: the window of a store at its start over a state holds that state alone.
pub fn starts_hold_states()
    ensures { StartsHoldStates }
{
    needed_is_all();
}

/// Law: changes that a volume takes, by what it reads of its store, lead from the present content of
/// the store's window to a state.
pub fn volumes_may_put()
    ensures { VolumesMayPut }
{
    needed_is_all();
}
