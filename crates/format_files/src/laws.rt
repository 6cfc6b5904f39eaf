ghost use Rattle.format_files.specs.Rules.{NewVolumeKeepsBits, NewVolumeKeepsNames};
ghost use Rattle.format_files.specs.Volumes.{NewVolumeIsLoaded};

/// Law: a content with the blocks of a new volume is loaded as 64 records, of which the first 16
/// are files, each as it was spelled.
pub fn new_volume_is_loaded()
    ensures { NewVolumeIsLoaded }
{}

/// Law: a new volume keeps the rules of names: each file's names, the directory of each name, and
/// each directory's way up.
pub fn new_volume_keeps_names()
    ensures { NewVolumeKeepsNames }
{}

/// Law: of a new volume no cluster is owned twice, each that is owned is marked in use, and so is
/// each record in use.
pub fn new_volume_keeps_bits()
    ensures { NewVolumeKeepsBits }
{}
