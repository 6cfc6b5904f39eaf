ghost use Rattle.format_laws.specs.Images.{NewVolumeStands, NewImageStandsFor};

/// Law: the image that is written onto a device stands for the tree of a new volume: a check of it
/// answers the twelve system files, with all clusters after them free.
pub fn new_volume_stands()
    ensures { NewVolumeStands }
{}

/// Law: the image that is written onto a device stands for the tree of the twelve system files.
pub fn new_image_stands_for()
    ensures { NewImageStandsFor }
{}
