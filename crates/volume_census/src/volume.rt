ghost use Rattle.std.specs.Prelude.{◌≡◌, None, Some, IfSome};
ghost use Rattle.std.specs.Option.{ForSome};
ghost use Rattle.volume_lookup.specs.volume_map.Maps.{IsMapOf, volume_in};
ghost use Rattle.volume_model.specs.Volumes.{upper_of};
ghost use Rattle.volume_lookup.specs.volume_state.Rules.{first_broken};
ghost use Rattle.volume_lookup.specs.volume_state.Trees.{tree_of};
ghost use Rattle.volume_lookup.specs.Known.{known_tree};

use crate::lent::LentView;
use crate::spare::{least_spare, records};
use crate::system::is_in_system;
use block_view::View;
use change_lookup::Census;
use std::alloc::Global;
use tree_lookup::{Link, Lookup, LookupFault, Name, NameList, Node};
use tree_model::FileRef;
use upcase_order::Upcase;
use volume_lookup::{NamedVolume, VolumeTree};

/// A loaded volume on a view of its content, and its table of upper-case units, which is asked for
/// what a change needs. Its tree is known where the content is, the table is that of the volume,
/// and the volume breaks no rule. It asks the view for index blocks, and for the sectors of the
/// bytes that are asked.
#[derive(Drop)]
pub struct VolumeCensus<'a, V: View> {
    view: V,
    volume: &'a NamedVolume<'a>,
    up: &'a Upcase,
    pub ghost mapped: { ForSome (V.content view) (λ c. IsMapOf c volume.now.map.now) },
}

impl<'a, V: View> VolumeCensus<'a, V> {
    /// This volume, loaded from the view's content, whose table of upper-case units this is.
    pub fn new(view: V, volume: &'a NamedVolume<'a>, up: &'a Upcase) -> Self
        requires parts { IfSome (V.content view) (λ c. IsMapOf c volume.now.map.now) }
        ensures view { result.view ≡ view }
        ensures volume { result.volume.now ≡ volume.now }
        ensures up { result.up.now ≡ up.now }
        ensures tree { IfSome (V.content view) (λ c. first_broken c (volume_in volume.now.map.now) ≡ None → up.now ≡ upper_of c (volume_in volume.now.map.now) → known_tree up.now (volume_in volume.now.map.now) (V.content view) ≡ Some (tree_of c (volume_in volume.now.map.now))) }
    {
        VolumeCensus { view, volume, up }
    }

    /// The view alone.
    pub fn into_view(self) -> V
        ensures { result ≡ self.entry.view }
    {
        let VolumeCensus { view, .. } = self;
        view
    }
}

impl<'a, V: View> Lookup for VolumeCensus<'a, V> {
    ghost upper = { λ s. s.up.now };

    ghost tree = { λ s. known_tree s.up.now (volume_in s.volume.now.map.now) (V.content s.view) };

    ghost faults = { λ s. V.faults s.view };

    ghost Kept = { V.Kept };

    ghost kept = { λ s. V.kept s.view };

    /// The node with this number without its bytes, as [`VolumeTree`] gives it.
    fn node(&mut self, alloc: Global, number: u64) -> Result<Option<Node>, LookupFault> {
        let lent = LentView {
            view: &mut self.view,
        };
        VolumeTree::new(lent, self.volume, self.up).node(alloc, number)
    }

    /// The link that this part leads to: one search of the directory's index.
    fn link(
        &mut self,
        alloc: Global,
        directory: u64,
        part: &Name,
    ) -> Result<Option<Link>, LookupFault> {
        let lent = LentView {
            view: &mut self.view,
        };
        VolumeTree::new(lent, self.volume, self.up).link(alloc, directory, part)
    }

    /// How many long names the file has, in time linear in its names.
    fn long_names_of(&mut self, alloc: Global, number: u64) -> Result<u64, LookupFault> {
        let lent = LentView {
            view: &mut self.view,
        };
        VolumeTree::new(lent, self.volume, self.up).long_names_of(alloc, number)
    }

    /// The long names of this directory: one walk over its index.
    fn listing(&mut self, alloc: Global, directory: u64) -> Result<NameList, LookupFault> {
        let lent = LentView {
            view: &mut self.view,
        };
        VolumeTree::new(lent, self.volume, self.up).listing(alloc, directory)
    }

    /// Bytes of the node with this number, as [`VolumeTree`] gives them.
    fn front(
        &mut self,
        alloc: Global,
        number: u64,
        at: u64,
        out: &mut [u8],
    ) -> Result<(), LookupFault> {
        let lent = LentView {
            view: &mut self.view,
        };
        VolumeTree::new(lent, self.volume, self.up).front(alloc, number, at, out)
    }
}

impl<'a, V: View> Census for VolumeCensus<'a, V> {
    /// How many clusters are free: this is kept, not counted.
    fn room(&self) -> u64 {
        self.volume.map.cluster_bits.count_clear()
    }

    /// How many records the file table has.
    fn count(&self) -> u64 {
        records(&self.volume.map.files)
    }

    /// The least spare number, by one search among the bits of the records. It reads nothing: the
    /// sequences of all records were read once for all.
    fn least_spare(&mut self, _alloc: Global) -> Result<Option<FileRef>, LookupFault> {
        let map = self.volume.map;
        Ok(least_spare(&map.heads, &map.record_bits))
    }

    /// Whether this directory is one of the volume itself, in time linear in its names. It reads
    /// nothing.
    fn is_in_system(&mut self, _alloc: Global, directory: u64) -> Result<bool, LookupFault> {
        Ok(is_in_system(self.volume, directory))
    }
}
