//! The laws of these definitions.
ghost use Rattle.raised_steps.specs.Rises.{RisesWhereFull};
ghost use Rattle.raised_steps.specs.Steps.{RaisedAreSteps};
ghost use Rattle.raised_steps.specs.Takes.{NeverNeedsLevel, RootsAreLoose, TakesAlike};

use made_trees::{found_is_there, makings_are_steps, new_file_reads, times_are_set};

/// Law: where an operation was found to make a file, and a draft has put it behind a level more of
/// its directory's index, which a step allows, its content has taken the step of the operation.
pub fn raised_are_steps()
    ensures { RaisedAreSteps }
{
    times_are_set();
    new_file_reads();
    found_is_there();
    makings_are_steps();
}

/// Law: where a plan of an index's nodes takes blocks and needs no level, but the directory's record
/// would be too full with these blocks and is crowded, a step allows a level.
pub fn rises_where_full()
    ensures { RisesWhereFull }
{}

/// Law: a plan for a record without used bytes needs no level.
pub fn never_needs_level()
    ensures { NeverNeedsLevel }
{}

/// Law: a key takes as many blocks in an index that got a level before as in one that needs none.
pub fn takes_alike()
    ensures { TakesAlike }
{}

/// Law: the entries of a root that lies in a file record have 600 free bytes as those of a block.
pub fn roots_are_loose()
    ensures { RootsAreLoose }
{}
