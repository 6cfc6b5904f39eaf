ghost use Rattle.volume_mount.specs.Boot.{BootIsTried};

/// Law: the test of the first cluster is passed exactly where no stream but the data of `$Boot` has
/// it and its bit is set.
pub fn boot_is_tried()
    ensures { BootIsTried }
{}
