//! The tree of a volume, with its journal.
ghost use Rattle.std.specs.Prelude.{◌≡◌, IfOk, IfSome, length};
ghost use Rattle.host_base.specs.Answers.{GivesOrFails};
ghost use Rattle.disk_model.specs.Content.{Content as the_content};
ghost use Rattle.volume_tree.specs.state_model.Loads.{table_in};
ghost use Rattle.volume_tree.specs.state_model.Trees.{all_links};
ghost use Rattle.volume_model.specs.Nodes.{bare_nodes};
ghost use Rattle.volume_tree.specs.volume_map.Maps.{volume_in, IsMapOf};
ghost use Rattle.block_view.specs.Views.{AsksView};
ghost use Rattle.volume_state.specs.Trees.{tree_with};
ghost use Rattle.volume_check.specs.Errors.{check_cause};
ghost use Rattle.volume_check.specs.Parts.{AreParts};
ghost use Rattle.volume_check.specs.Steps.{ninth};

use crate::fault::CheckFault;
use block_view::View;
use disk_model::Body;
use file_tree::{LinkList, Tree};
use host_base::Memory;
use std::alloc::Global;
use usn_journal::{all_links, volume_journal};
use volume_model::Upcase;
use volume_tree::{NamedVolume, tree_with};

// The tree with these links and the volume's own journal.
#[tactic(auto, unfolding(crate::specs::Steps::ninth))]
fn with_journal<V: View>(
    alloc: Global,
    view: &mut V,
    volume: &NamedVolume,
    upper: &Upcase,
    links: LinkList,
    body: &mut Body,
) -> Result<Tree, CheckFault>
    requires links { links ≡ all_links (table_in volume.now.map.now.files.items) (length volume.now.map.now.files.items) }
    ensures value { IfSome (V.content view.old) (λ c. AreParts c volume.now.map.now upper.now → GivesOrFails (λ tree. tree) check_cause result (ninth c (volume_in volume.now.map.now))) }
    ensures kept { AsksView V.content V.kept V.faults check_cause view.old view.new result }
{
    let journal = volume_journal(alloc, view, volume.map, upper, links.as_slice(), body)?;
    Ok(tree_with(alloc, volume, links, journal)?)
}

/// The tree of a loaded volume that keeps the rules before the ninth, without the bytes of its
/// nodes and the records of its journal; or the ninth rule, where its journal is at fault. `upper`
/// is its table of upper-case units, and `body` is room for a body. It takes time and memory linear
/// in the records, and reads the journal once.
pub fn report<V: View>(
    alloc: Global,
    view: &mut V,
    volume: &NamedVolume,
    upper: &Upcase,
    body: &mut Body,
) -> Result<Tree, CheckFault>
    ensures value { IfSome (V.content view.old) (λ c. AreParts c volume.now.map.now upper.now → GivesOrFails (λ tree. tree) check_cause result (ninth c (volume_in volume.now.map.now))) }
    ensures kept { AsksView V.content V.kept V.faults check_cause view.old view.new result }
{
    let links = all_links(alloc, &volume.map.files)?;
    with_journal(alloc, view, volume, upper, links, body)
}
