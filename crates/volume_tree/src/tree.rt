//! The tree of a volume's files.
ghost use Rattle.std.specs.Prelude.{◌≡◌, IfOk, length};
ghost use Rattle.volume_map.specs.disk_model.Content.{Content as the_content};
ghost use Rattle.state_model.specs.Loads.{table_in};
ghost use Rattle.state_model.specs.Trees.{all_links};
ghost use Rattle.volume_model.specs.Nodes.{bare_nodes};
ghost use Rattle.volume_map.specs.Maps.{volume_in, IsMapOf};
ghost use Rattle.volume_state.specs.Trees.{tree_with};

use crate::names::NamedVolume;
use crate::node::bare_nodes;
use host_base::Memory;
use state_model::{Journal, LinkList, Tree};
use std::alloc::Global;
use volume_map::spare_numbers;

/// The tree of a loaded volume, without the bytes of its nodes, with these links and this journal.
/// The error is want of memory. It takes time and memory linear in the records.
#[tactic(auto, unfolding(volume_state::specs::Trees::tree_with, volume_model::specs::Nodes::free_clusters))]
pub fn tree_with(
    alloc: Global,
    volume: &NamedVolume,
    links: LinkList,
    journal: Option<Journal>,
) -> Result<Tree, Memory>
    requires links { links ≡ all_links (table_in volume.now.map.now.files.items) (length volume.now.map.now.files.items) }
    ensures { (c : the_content) → IsMapOf c volume.now.map.now → IfOk result (λ tree. tree ≡ tree_with c (volume_in volume.now.map.now) (bare_nodes (volume_in volume.now.map.now)) journal) }
{
    let nodes = bare_nodes(alloc, volume)?;
    let map = volume.map;
    let spare = spare_numbers(alloc, &map.heads, &map.record_bits)?;
    Ok(Tree {
        nodes,
        links,
        spare,
        count: map.files.len() as u64,
        journal,
        room: map.cluster_bits.count_clear(),
    })
}
