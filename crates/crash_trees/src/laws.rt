//! The laws of these definitions.
ghost use Rattle.crash_trees.specs.Closing.{CloseLeaves, TreesClose};
ghost use Rattle.crash_trees.specs.Mounting.{TreesMount};
ghost use Rattle.crash_trees.specs.Puts.{TreesPut, TreesShow};
ghost use Rattle.crash_trees.specs.Starts.{TreesStart};
ghost use Rattle.crash_trees.specs.Turns.{TreesTurn};

use crash_mounts::{crashes_mount, endings_tell, mounted_by_record, needed_is_all, windows_tell};
use resting_states::{puts_rest, starts_rest, turns_rest};
use sector_device::Device;

/// Law: a volume whose store begins over a state that a mount takes holds the tree of this state.
pub fn trees_start()
    ensures { TreesStart }
{
    needed_is_all();
    starts_rest();
}

/// Law: what a volume that holds trees reads of its store is a state that a mount takes, with the
/// newest tree.
pub fn trees_show()
    ensures { TreesShow }
{
    needed_is_all();
}

/// Law: where changes are put it holds one tree more, and where they aren't the same ones.
pub fn trees_put()
    ensures { TreesPut }
{
    needed_is_all();
    puts_rest();
}

/// Law: behind a step of its store it holds the same trees.
pub fn trees_turn<D: Device>(device: &D)
    ensures { TreesTurn D.gives D.sector_count D.moment_of D.changes_of }
{
    needed_is_all();
    turns_rest(device);
}

/// Law: whatever a crash leaves of it mounts, as one of its trees.
pub fn trees_mount()
    ensures { TreesMount }
{
    crashes_mount();
    mounted_by_record();
    needed_is_all();
    windows_tell();
}

/// Law: once its store was closed, whatever a crash leaves of it mounts as the newest tree.
pub fn trees_close<D: Device>(_device: &D)
    ensures { TreesClose D.gives D.sector_count D.moment_of D.changes_of }
{
    crashes_mount();
    endings_tell();
    mounted_by_record();
    needed_is_all();
}

/// Law: inside the close of its store too, and behind one that failed, whatever a crash leaves of it
/// mounts, as one of its trees; and as the newest one where only the log couldn't be marked.
pub fn close_leaves<D: Device>(_device: &D)
    ensures { CloseLeaves D.gives D.sector_count D.moment_of D.changes_of }
{
    crashes_mount();
    endings_tell();
    mounted_by_record();
    needed_is_all();
}
