ghost use Rattle.std.specs.Prelude.{◌≡◌, None, Some, IfSome};
ghost use Rattle.volume_tree.specs.volume_map.Maps.{volume_in};
ghost use Rattle.volume_tree.specs.volume_model.Volumes.{upper_of};
ghost use Rattle.volume_tree.specs.volume_state.Rules.{first_broken};
ghost use Rattle.volume_tree.specs.volume_state.Trees.{tree_of};
ghost use Rattle.volume_lookup.specs.Known.{known_tree};

use crate::finding::link_found;
use crate::listing::names_held;
use crate::nodes::{bare_node, long_names};
use crate::reading::front_shown;
use block_view::View;
use std::alloc::Global;
use tree_lookup::{Link, Lookup, LookupFault, Name, NameList, Node};
use volume_tree::{NamedVolume, Upcase};

/// A loaded volume on a view of its content, and its table of upper-case units. Its tree is known
/// where the content is, the table is that of the volume, and the volume breaks no rule. It asks
/// the view for index blocks, and for the sectors of the bytes that are asked.
#[derive(Drop)]
pub struct VolumeTree<'a, V: View> {
    view: V,
    volume: &'a NamedVolume<'a>,
    up: &'a Upcase,
}

impl<'a, V: View> VolumeTree<'a, V> {
    /// This volume, whose table of upper-case units this is.
    pub fn new(view: V, volume: &'a NamedVolume<'a>, up: &'a Upcase) -> Self
        ensures view { result.view ≡ view }
        ensures volume { result.volume.now ≡ volume.now }
        ensures up { result.up.now ≡ up.now }
        ensures tree { IfSome (V.content view) (λ c. first_broken c (volume_in volume.now.map.now) ≡ None → up.now ≡ upper_of c (volume_in volume.now.map.now) → known_tree up.now (volume_in volume.now.map.now) (V.content view) ≡ Some (tree_of c (volume_in volume.now.map.now))) }
    {
        VolumeTree { view, volume, up }
    }

    /// The view alone.
    pub fn into_view(self) -> V
        ensures { result ≡ self.entry.view }
    {
        let VolumeTree { view, .. } = self;
        view
    }
}

impl<'a, V: View> Lookup for VolumeTree<'a, V> {
    ghost upper = { λ s. s.up.now };

    ghost tree = { λ s. known_tree s.up.now (volume_in s.volume.now.map.now) (V.content s.view) };

    ghost faults = { λ s. V.faults s.view };

    ghost Kept = { V.Kept };

    ghost kept = { λ s. V.kept s.view };

    /// The node with this number without its bytes. It takes time linear in the attributes, runs
    /// and names of the file, and reads nothing: how the file stands below directories of the
    /// volume itself was found once for all.
    fn node(&mut self, alloc: Global, number: u64) -> Result<Option<Node>, LookupFault> {
        bare_node(alloc, self.volume, number)
    }

    /// The link that this part leads to: one search of the directory's index.
    fn link(
        &mut self,
        alloc: Global,
        directory: u64,
        part: &Name,
    ) -> Result<Option<Link>, LookupFault> {
        link_found(
            alloc,
            &mut self.view,
            self.volume.map,
            self.up,
            directory,
            part,
        )
    }

    /// How many long names the file has, in time linear in its names.
    fn long_names_of(&mut self, _alloc: Global, number: u64) -> Result<u64, LookupFault> {
        Ok(long_names(self.volume, number))
    }

    /// The long names of this directory: one walk over its index.
    fn listing(&mut self, alloc: Global, directory: u64) -> Result<NameList, LookupFault> {
        names_held(alloc, &mut self.view, self.volume.map, self.up, directory)
    }

    /// Bytes of the node with this number. It takes time linear in the attributes, runs and names
    /// of the file, and reads the sectors that it touches.
    fn front(
        &mut self,
        alloc: Global,
        number: u64,
        at: u64,
        out: &mut [u8],
    ) -> Result<(), LookupFault> {
        front_shown(alloc, &mut self.view, self.volume, number, at, out)
    }
}
