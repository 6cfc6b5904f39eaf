//! The laws of these definitions.
ghost use Rattle.directory_growth.specs.Laws.{IndexHasRoom};

/// Law: the record that was made has, with a root of the length that the index comes to have, no
/// more used bytes than the step says.
pub fn index_has_room()
    ensures { IndexHasRoom }
{}
