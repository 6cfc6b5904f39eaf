//! The laws of these definitions.
ghost use Rattle.made_trees.specs.Created.{MadeFilesAreTrees};
ghost use Rattle.made_trees.specs.Left.{MadeFilesAreLeft};
ghost use Rattle.made_trees.specs.Grown.{NoneHasGrown};
ghost use Rattle.made_trees.specs.Behind.{MadeBehindAreTrees, MadeBehindAreLeft};

use made_files::{new_file_reads, times_are_set};

/// Law: where a draft has put the times of a directory and behind them a new file, it stands for the
/// next state, to which its bodies lead as those of a plan do, and the tree has the file.
pub fn made_files_are_trees()
    ensures { MadeFilesAreTrees }
{
    times_are_set();
    new_file_reads();
}

/// Law: so the content is left as a step says, where the streams of the directory's index that a plan
/// names take no clusters: all streams keep their runs, and all else stays.
pub fn made_files_are_left()
    ensures { MadeFilesAreLeft }
{
    times_are_set();
    new_file_reads();
}

/// Law: in a draft that touched nothing the index of a directory has grown by nothing.
pub fn none_has_grown()
    ensures { NoneHasGrown }
{}

/// Law: where a draft has let the index of a directory grow, and then has put the directory's times
/// and a new file, it stands for the next state, to which its bodies lead as those of a plan do; the
/// tree has the file, and its room falls by no more than the clusters that came.
pub fn made_behind_are_trees()
    ensures { MadeBehindAreTrees }
{
    times_are_set();
    new_file_reads();
}

/// Law: so the content is left as a step says, where the streams of the directory's index take the
/// clusters by which they have grown.
pub fn made_behind_are_left()
    ensures { MadeBehindAreLeft }
{
    times_are_set();
    new_file_reads();
}
