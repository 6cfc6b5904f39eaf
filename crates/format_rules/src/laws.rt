ghost use Rattle.format_rules.specs.Rules.{NewVolumeKeepsIndexes, NewVolumeKeepsSizes};
ghost use Rattle.format_rules.specs.Trees.{LoadedVolumeStands};

/// Law: the streams of a new volume are whole, lie in it and have lawful sizes, and none of its
/// records and blocks is torn.
pub fn new_volume_keeps_sizes()
    ensures { NewVolumeKeepsSizes }
{}

/// Law: each directory's index of a new volume holds the directory's names in order, and there is
/// no change journal.
pub fn new_volume_keeps_indexes()
    ensures { NewVolumeKeepsIndexes }
{}

/// Law: a new volume that was loaded breaks no rule and stands for the tree of its twelve system
/// files, which a check answers.
pub fn loaded_volume_stands()
    ensures { LoadedVolumeStands }
{}
