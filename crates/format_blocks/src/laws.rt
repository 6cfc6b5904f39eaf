ghost use Rattle.format_blocks.specs.Blocks.{NewBlocksAreRead};
ghost use Rattle.format_blocks.specs.Regions.{RegionsStand};

/// Law: after a device is formatted each region of the image stands on it, and it has as many
/// sectors as before.
pub fn regions_stand()
    ensures { RegionsStand }
{}

/// Law: of a device that was formatted the boot sector, the file records, the root's index block
/// and the sectors of the other regions are read as they are spelled, and none of them is torn.
pub fn new_blocks_are_read()
    ensures { NewBlocksAreRead }
{}
