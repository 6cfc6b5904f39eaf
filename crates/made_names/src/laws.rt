//! The laws of these definitions.
ghost use Rattle.made_names.specs.Made.{MadeNamesTell};

use tree_laws::{ways_are_short, ways_kept};

/// Law: where the name of a file is put that comes to be in a directory, at a number that no file
/// had, the names are those of the files with that one.
pub fn made_names()
    ensures { MadeNamesTell }
{
    ways_kept();
    ways_are_short();
}
