//! The laws of these definitions.
ghost use Rattle.crash_mounts.specs.Clearing.{LogsAreFiles, LogsStayClear, NoneShadowed, PagesHold};
ghost use Rattle.crash_mounts.specs.Loading.{StatesLoad};
ghost use Rattle.crash_mounts.specs.Mounting.{CrashesMount};
ghost use Rattle.crash_mounts.specs.Opening.{OpensAlike};
ghost use Rattle.crash_mounts.specs.Reading.{ReadsList};

use member_states::needed_is_all;

/// Law: contents that agree on the blocks by which a log is found are opened alike by a mount that
/// writes, but for what the log says.
pub fn opens_alike()
    ensures { OpensAlike }
{}

/// Law: of an image that recovers to a content of a store's window a mount that writes reads the list
/// by which it recovers, and refuses no entry of it.
pub fn reads_list()
    ensures { ReadsList }
{}

/// Law: a state is loaded by a mount, whatever the log says of blocks that aren't live.
pub fn states_load()
    ensures { StatesLoad }
{}

/// Law: where an image recovers to a state, no live block of this state is shadowed, but for those of
/// the log itself.
pub fn none_shadowed()
    ensures { NoneShadowed }
{}

/// Law: nor is one of those, where the pages of the log hold all of it and the list updates blocks
/// alone that a store may change.
pub fn logs_stay_clear()
    ensures { LogsStayClear }
{}

/// Law: the pages of a log hold all of it where no more of its stream is initialised than they are, and
/// where it has no cluster past its last page.
pub fn pages_hold()
    ensures { PagesHold }
{}

/// Law: a log that lies in a cluster of the volume is a file's.
pub fn logs_are_files()
    ensures { LogsAreFiles }
{}

/// Law: so an image that a crash leaves of the store of a mounted volume, and that recovers to a state,
/// mounts as that state's tree.
pub fn crashes_mount()
    ensures { CrashesMount }
{
    needed_is_all();
}
