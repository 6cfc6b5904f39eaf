//! The nodes of a loaded volume, and how many long names its files have.
ghost use Rattle.std.specs.Prelude.{◌≡◌, Ok};
ghost use Rattle.host_base.specs.Answers.{Gives};
ghost use Rattle.record_rules.specs.state_model.Files.{links_at};
ghost use Rattle.record_rules.specs.state_model.Loads.{table_in};
ghost use Rattle.record_rules.specs.state_model.Rules.{long_count};
ghost use Rattle.volume_tree.specs.volume_map.Maps.{volume_in};
ghost use Rattle.volume_tree.specs.volume_model.Nodes.{no_bytes, node_at};
ghost use Rattle.tree_lookup.specs.Asked.{lookup_cause};

use file_tree::{Link, Node, SHORT};
use record_rules::links_of;
use std::alloc::Global;
use tree_lookup::LookupFault;
use volume_tree::{NamedVolume, node_at};

/// The node of the file with this number without its bytes, if it has one. It takes time linear in
/// the attributes, runs and names of the file.
pub fn bare_node(
    alloc: Global,
    volume: &NamedVolume,
    number: u64,
) -> Result<Option<Node>, LookupFault>
    ensures { Gives (λ node. node) lookup_cause result (Ok (node_at no_bytes (volume_in volume.now.map.now) number)) }
{
    Ok(node_at(alloc, volume, number)?)
}

fn long_count(links: &[Link]) -> u64
    ensures { result ≡ long_count links.now }
{
    links.iter().filter(|link| link.space != SHORT).count() as u64
}

/// How many long names the file with this number has. It takes time linear in its names.
#[tactic(auto, using(record_rules::proofs::Links::links_found))]
pub fn long_names(volume: &NamedVolume, number: u64) -> u64
    ensures { result ≡ long_count (links_at (table_in volume.now.map.now.files.items) number) }
{
    long_count(links_of(&volume.names.links, number))
}
