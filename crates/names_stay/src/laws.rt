//! The laws of these definitions.
ghost use Rattle.names_stay.specs.Held.{NamesStay};
ghost use Rattle.names_stay.specs.Lists.{WritesKeepLists};
ghost use Rattle.names_stay.specs.Writes.{WritesKeepNames};

use made_data::made_is_counted;

/// Law: what is held in memory of the names of records is that of others of which the files have the
/// same names.
pub fn names_stay()
    ensures { NamesStay }
{}

/// Law: where an operation has written or cut a file, the files of the next state have the names of
/// before.
pub fn writes_keep_names()
    ensures { WritesKeepNames }
{
    made_is_counted();
}

/// Law: where an operation has written or cut a file, each file of the next state has as many
/// attribute lists as before.
pub fn writes_keep_lists()
    ensures { WritesKeepLists }
{
    made_is_counted();
}
