ghost use Rattle.std.specs.Prelude.{All};
ghost use Rattle.volume_shadows.specs.log_recovery.Recovering.{IsSized};
ghost use Rattle.volume_shadows.specs.log_recovery.Places.{HasPlaces};

use image_read::{OpeningToWrite, VolumeMap};
use volume_lookup::Upcase;
use volume_shadows::Places;

/// A volume that is mounted. It borrows nothing of its device.
#[derive(Drop)]
pub struct Mounted {
    /// Where its file table and its log lie, how many clusters it has, and what recovery finds by
    /// the log: the recovered bodies, those of them that a mount writes out, and the shadowed
    /// blocks.
    pub opening: OpeningToWrite,
    /// Where the recovered bodies stand, by `places_of`.
    pub places: Places,
    /// The volume as it is loaded from the recovered content.
    pub map: VolumeMap,
    /// Its own table of upper-case units, by which its names are in order.
    pub upper: Upcase,
    pub ghost sized: { All IsSized opening.found.recovered.blocks.bodies.items },
    pub ghost right: { HasPlaces opening.found.recovered.blocks.bodies.items places },
}
