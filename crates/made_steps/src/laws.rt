//! The laws of these definitions.
ghost use Rattle.made_steps.specs.Behind.{MadeBehindAreSteps, RisesWhereNeeded};
ghost use Rattle.made_steps.specs.Refused.{NotMadeIsStep};
ghost use Rattle.made_steps.specs.Steps.{MadeFilesAreSteps};
ghost use Rattle.made_steps.specs.Timed.{IndexesMove, TimesKeepGrown, TimesKeepIndex};

use made_trees::{found_is_there, makings_are_steps, new_file_reads, times_are_set};

/// Law: where an operation was found to make a file, and a draft has put it without a level or a
/// cluster more for the directory's index, its content has taken the step of the operation.
pub fn made_files_are_steps()
    ensures { MadeFilesAreSteps }
{
    times_are_set();
    new_file_reads();
    found_is_there();
    makings_are_steps();
}

/// Law: so it is where the draft has let the directory's index grow before, by the blocks that a step
/// counts for it, and also with a level more, where one may be added.
pub fn made_behind_are_steps()
    ensures { MadeBehindAreSteps }
{
    times_are_set();
    new_file_reads();
    found_is_there();
    makings_are_steps();
}

/// Law: where the directory's record would be too full, or its index too deep, an operation that was
/// found to make a file is refused, and its content stays.
pub fn not_made_is_step()
    ensures { NotMadeIsStep }
{
    found_is_there();
    makings_are_steps();
}

/// Law: where a plan of an index's nodes needs a level more for the used bytes that the directory's
/// record has, a step allows one.
pub fn rises_where_needed()
    ensures { RisesWhereNeeded }
{}

/// Law: where a draft has put the times of a directory behind the growth of its index, the index
/// stands as it stood at first.
pub fn times_keep_index()
    ensures { TimesKeepIndex }
{
    times_are_set();
}

/// Law: where a draft has put the times of a directory behind a draft in which its index has grown,
/// the index stands as it stood in that one.
pub fn times_keep_grown()
    ensures { TimesKeepGrown }
{
    times_are_set();
}

/// Law: where an index stands as it stood, what was planned over it before is planned over it.
pub fn indexes_move()
    ensures { IndexesMove }
{}
