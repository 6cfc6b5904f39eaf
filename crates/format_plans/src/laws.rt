ghost use Rattle.format_plans.specs.Laws.{NewVolumeTakesFile, NewImageTakesFile};

/// Law: the content of a new volume is a state, and a file with the first number for new files is
/// made in its root by an edit of a plan, which leads to a state of the tree with the file.
pub fn new_volume_takes_file()
    ensures { NewVolumeTakesFile }
{}

/// Law: so it is on each device that was formatted.
pub fn new_image_takes_file()
    ensures { NewImageTakesFile }
{}
