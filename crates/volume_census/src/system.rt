//! Which directories of a loaded volume are those of the volume itself.
ghost use Rattle.std.specs.Prelude.{◌≡◌, ◌&&◌, ◌==◌, not};
ghost use Rattle.file_tree.specs.Walks.{root};
ghost use Rattle.state_model.specs.Files.{links_at};
ghost use Rattle.state_model.specs.Trees.{is_system};
ghost use Rattle.volume_lookup.specs.volume_map.Maps.{volume_in};
ghost use Rattle.volume_model.specs.Volumes.{files_by_number, count_of};

use file_tree::ROOT;
use record_rules::links_of;
use volume_lookup::NamedVolume;

/// Whether the file with this number is one of the volume itself, other than the root. It takes time
/// linear in its names: how it stands below directories of the volume itself was found once for all.
#[tactic(auto, using(record_rules::proofs::Links::links_found))]
pub fn is_in_system(volume: &NamedVolume, number: u64) -> bool
    ensures { result ≡ (not (number == root) && is_system (files_by_number (volume_in volume.now.map.now)) (count_of (volume_in volume.now.map.now)) number (links_at (files_by_number (volume_in volume.now.map.now)) number)) }
{
    let links = links_of(&volume.names.links, number);
    number != ROOT && volume.climber().is_system(number, links)
}
