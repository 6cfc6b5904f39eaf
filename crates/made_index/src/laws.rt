//! The laws of these definitions.
ghost use Rattle.made_index.specs.Laws.{IndexIsCounted, AnyIndexHasRoom};

use directory_growth::index_has_room;

/// Law: what a step says of a directory whose index has its root alone, and gets blocks, is what it
/// says of the record with both streams, which has all that more blocks of an index ask of its
/// record.
pub fn index_is_counted()
    ensures { IndexIsCounted }
{}

/// Law: the record that was made has, with a root of the length that the index comes to have, no
/// more used bytes than the step says.
pub fn any_index_has_room()
    ensures { AnyIndexHasRoom }
{
    index_has_room();
}
