//! The laws of these definitions.
ghost use Rattle.same_names.specs.Names.{NamesTellSame};

/// Law: where the files of two lists of records have the same names, all is the same that is told
/// by their names: those of each file, how many stand in each, and the ways up.
pub fn same_names()
    ensures { NamesTellSame }
{}
