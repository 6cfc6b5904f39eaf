ghost use Rattle.table_edits.specs.Grown.{GrownIsEdit, GrownIsKept, LongerTable, NewSequences, NumbersAreBegun};

/// Law: what a draft has put of a file table that grew is the edit that leads to a state with the
/// longer table.
pub fn grown_is_edit()
    ensures { GrownIsEdit }
{}

/// Law: the draft behind it has its blocks in order, each with a whole body.
pub fn grown_is_kept()
    ensures { GrownIsKept }
{}

/// Law: the bits of all numbers lie below the initialised size of their bitmap then, where it stands
/// in clusters.
pub fn numbers_are_begun()
    ensures { NumbersAreBegun }
{}

/// Law: the records lie then in the clusters of before and those that came.
pub fn longer_table_lies()
    ensures { LongerTable }
{}

/// Law: each new number of a file table that grew in a draft is taken with the sequence 1.
pub fn new_sequences_are_one()
    ensures { NewSequences }
{}
