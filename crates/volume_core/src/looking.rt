//! Operations that only look at a volume.
ghost use Rattle.std.specs.Prelude.{◌≡◌, ℕ, true, false, length, IfSome};
ghost use Rattle.block_view.specs.Views.{KeepsView};
ghost use Rattle.tree_model.specs.Steps.{is_look, is_given_up, Replies, IsStep};
ghost use Rattle.tree_lookup.specs.Answered.{CountsReply};
ghost use Rattle.working_volume.specs.volume_map.Maps.{volume_in};
ghost use Rattle.working_volume.specs.volume_tree.Named.{AreNamesOf};
ghost use Rattle.working_volume.specs.volume_lookup.Known.{known_tree};
ghost use Rattle.working_volume.specs.map_change.Parts.{live_parts};
ghost use Rattle.working_volume.specs.txn_core.Views.{present_content};
ghost use Rattle.working_volume.specs.state_store.Preparing.{KeepsSeen};
ghost use Rattle.volume_core.specs.Volumes.{volume_tree};
ghost use Rattle.volume_core.specs.Calls.{StaysPut};
ghost use Rattle.volume_core.specs.Looks.{RepliesOf, CountsLook};

use crate::volume::Volume;
use block_view::View;
use sector_device::Device;
use std::alloc::Global;
use tree_lookup::answer;
use working_volume::{
    LentView, LiveMap, NamedVolume, Names, Op, Reply, Store, StoreView, Upcase, VolumeTree,
};

// The reply of a loaded volume, whose table of upper-case units this is, over a view of its content.
fn reply_over<V: View>(
    alloc: Global,
    view: &mut V,
    volume: &NamedVolume<'_>,
    up: &Upcase,
    op: &Op,
) -> Reply
    requires looks { is_look op.now ≡ true }
    ensures value { IfSome (known_tree up.now (volume_in volume.now.map.now) (V.content view.old)) (λ t. is_given_up result ≡ false → Replies up.now t.nodes t.links op.now result) }
    ensures step { IfSome (known_tree up.now (volume_in volume.now.map.now) (V.content view.old)) (λ t. (stamp : ℕ) → IsStep up.now op.now stamp result t t) }
    ensures kept { KeepsView V.content V.kept V.faults view.old view.new }
    ensures counted { CountsReply (known_tree up.now (volume_in volume.now.map.now) (V.content view.old)) (V.faults view.old) (V.faults view.new) result }
{
    let mut tree = VolumeTree::new(LentView { view }, volume, up);
    answer(alloc, &mut tree, op)
}

// The reply of a volume over the present content of its store.
fn look_over<D: Device>(
    store: &mut Store<D>,
    room: &mut [u8],
    alloc: Global,
    live: &LiveMap,
    names: &Names,
    upper: &Upcase,
    op: &Op,
) -> Reply
    requires sized { length room.old ≡ 65536 }
    requires looks { is_look op.now ≡ true }
    requires named { AreNamesOf names.now (live_parts live.now).volume.files }
    ensures value { IfSome (known_tree upper.now (live_parts live.now).volume (present_content (D.gives store.old.device) store.old.state)) (λ t. is_given_up result ≡ false → Replies upper.now t.nodes t.links op.now result) }
    ensures step { IfSome (known_tree upper.now (live_parts live.now).volume (present_content (D.gives store.old.device) store.old.state)) (λ t. (stamp : ℕ) → IsStep upper.now op.now stamp result t t) }
    ensures kept { KeepsSeen D.gives D.sector_count D.changes_of D.fault_count D.moment_of store.old store.new }
    ensures counts { CountsLook D.fault_count D.moment_of (known_tree upper.now (live_parts live.now).volume (present_content (D.gives store.old.device) store.old.state)) result store.old store.new }
    ensures sized { length room.new ≡ 65536 }
{
    let volume = NamedVolume::new(&live.map, names);
    let mut view = StoreView::new(room, store);
    reply_over(alloc, &mut view, &volume, upper, op)
}

impl<D: Device> Volume<D> {
    /// What is answered to an operation that only looks: the first refusal that applies, else what
    /// it asks for, of the present tree. The device is only read, and what is kept in memory stays.
    /// It reads the index blocks on its path, of a listing those of the directory, and the sectors
    /// of the bytes that it asks for, ahead in pieces of 64 KiB.
    ///
    /// `Reply::Fault`: the device failed in this call; `Reply::Memory`: want of memory.
    pub fn look(&mut self, alloc: Global, op: &Op) -> Reply
        requires looks { is_look op.now ≡ true }
        ensures replies { IfSome (volume_tree D.gives self.old) (RepliesOf self.old.table op.now result) }
        ensures kept { KeepsSeen D.gives D.sector_count D.changes_of D.fault_count D.moment_of self.old.store self.new.store }
        ensures map { self.new.map ≡ self.old.map }
        ensures table { self.new.table ≡ self.old.table }
        ensures streams { self.new.streams ≡ self.old.streams }
        ensures history { StaysPut D.gives D.sector_count D.changes_of self.old self.new }
        ensures counts { CountsLook D.fault_count D.moment_of (volume_tree D.gives self.old) result self.old.store self.new.store }
    {
        look_over(
            &mut self.store,
            &mut self.room,
            alloc,
            &self.live,
            &self.names,
            &self.upper,
            op,
        )
    }
}
