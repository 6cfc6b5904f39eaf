//! The name of a file that has come, put with those in memory.
ghost use Rattle.std.specs.Prelude.{◌≡◌};
ghost use Rattle.made_names.specs.Made.{HasPlaces};
ghost use Rattle.names_grow.specs.Grown.{PutsFileMore};

use crate::laws::grown_names;
use made_names::NewName;
use volume_tree::Names;

/// Puts the name of the file that is more with the names of the files of before: they are then those
/// of the files behind the change. It takes no memory, and constant time.
pub fn put_name(name: NewName, names: &mut Names)
    requires places { HasPlaces name.number name.parent names.old }
    ensures named { PutsFileMore name names.old names.new }
{
    grown_names();
    name.put(names);
}
