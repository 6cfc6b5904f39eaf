ghost use Rattle.std.specs.Prelude.{◌≡◌, ℕ, ◌<◌, true, false, length, IfOk, IfSome};
ghost use Rattle.host_base.specs.Causes.{HasFailed, last_moment};
ghost use Rattle.block_view.specs.Views.{KeepsView};
ghost use Rattle.image_read.specs.device_view.Devices.{KeepsDevice};
ghost use Rattle.tree_model.specs.Steps.{is_look, is_given_up, Replies, IsStep};
ghost use Rattle.volume_lookup.specs.tree_lookup.Answered.{CountsReply};
ghost use Rattle.image_read.specs.volume_map.Maps.{volume_in};
ghost use Rattle.volume_lookup.specs.volume_tree.Named.{AreNamesOf};
ghost use Rattle.volume_lookup.specs.Known.{known_tree};
ghost use Rattle.volume_mount.specs.Trees.{tree_over, tree_shown};
ghost use Rattle.volume_mount.specs.Answers.{CountsReplyOnDevice};

use crate::lent::LentView;
use crate::mounted::Mounted;
use block_view::View;
use host_base::Memory;
use image_read::{DeviceView, PIECE_BYTES};
use sector_device::Device;
use std::alloc::Global;
use volume_lookup::{NamedVolume, Names, Op, Reply, Upcase, VolumeTree, answer};
use volume_shadows::RecoveredView;

// The reply of a loaded volume, whose table of upper-case units this is, over a view of its content.
fn reply_over<V: View>(
    alloc: Global,
    view: &mut V,
    volume: &NamedVolume,
    up: &Upcase,
    op: &Op,
) -> Reply
    requires looks { is_look op.now ≡ true }
    ensures value { IfSome (known_tree up.now (volume_in volume.now.map.now) (V.content view.old)) (λ t. is_given_up result ≡ false → Replies up.now t.nodes t.links op.now result) }
    ensures step { IfSome (known_tree up.now (volume_in volume.now.map.now) (V.content view.old)) (λ t. (stamp : ℕ) → IsStep up.now op.now stamp result t t) }
    ensures kept { KeepsView V.content V.kept V.faults view.old view.new }
    ensures counted { CountsReply (known_tree up.now (volume_in volume.now.map.now) (V.content view.old)) (V.faults view.old) (V.faults view.new) result }
{
    let mut tree = VolumeTree::new(LentView { view }, volume, up);
    answer(alloc, &mut tree, op)
}

/// A mounted volume that is asked, with the names of its files.
#[derive(Drop)]
pub struct MountedTree<'a> {
    mounted: &'a Mounted,
    names: Names,
    ghost named: { AreNamesOf names mounted.now.map.files.items },
}

impl<'a> MountedTree<'a> {
    /// This mounted volume. It takes time and memory linear in its records, once for all that it is
    /// asked. The error is want of memory.
    pub fn new(alloc: Global, mounted: &'a Mounted) -> Result<Self, Memory>
        ensures { IfOk result (λ tree. tree.mounted.now ≡ mounted.now) }
    {
        let names = Names::new(alloc, &mounted.map.files)?;
        Ok(MountedTree { mounted, names })
    }

    // The reply over a view of the device.
    fn reply_on<V: View>(&self, alloc: Global, view: &mut V, op: &Op) -> Reply
        requires looks { is_look op.now ≡ true }
        ensures value { IfSome (tree_over self.now.mounted.now (V.content view.old)) (λ t. is_given_up result ≡ false → Replies self.now.mounted.now.upper t.nodes t.links op.now result) }
        ensures step { IfSome (tree_over self.now.mounted.now (V.content view.old)) (λ t. (stamp : ℕ) → IsStep self.now.mounted.now.upper op.now stamp result t t) }
        ensures kept { KeepsView V.content V.kept V.faults view.old view.new }
        ensures counted { CountsReply (tree_over self.now.mounted.now (V.content view.old)) (V.faults view.old) (V.faults view.new) result }
    {
        let mounted = self.mounted;
        let bodies = &mounted.opening.found.recovered.blocks.bodies;
        let mut recovered = RecoveredView::new(view, bodies, &mounted.places);
        let volume = NamedVolume::new(&mounted.map, &self.names);
        reply_over(alloc, &mut recovered, &volume, &mounted.upper, op)
    }

    /// What is answered to an operation that only looks, over the device on which the volume was
    /// mounted: the first refusal that applies, else what it asks for. It reads the index blocks on
    /// its path, of a listing those of the directory, and the sectors of the bytes that it asks for,
    /// ahead in pieces of 64 KiB; `room` is room for one piece
    /// ([`piece_room`](device_view::piece_room)).
    ///
    /// `Reply::Fault`: the device failed; `Reply::Memory`: want of memory.
    pub fn answer<D: Device>(
        &self,
        alloc: Global,
        room: &mut [u8],
        device: &mut D,
        op: &Op,
    ) -> Reply
        requires room { length room.old ≡ PIECE_BYTES }
        requires looks { is_look op.now ≡ true }
        ensures value { IfSome (tree_shown self.now.mounted.now (D.gives device.old)) (λ t. is_given_up result ≡ false → Replies self.now.mounted.now.upper t.nodes t.links op.now result) }
        ensures step { IfSome (tree_shown self.now.mounted.now (D.gives device.old)) (λ t. (stamp : ℕ) → IsStep self.now.mounted.now.upper op.now stamp result t t) }
        ensures kept { KeepsDevice D.gives D.sector_count D.changes_of D.fault_count D.moment_of device.old device.new }
        ensures fault { result ≡ Reply.Fault → IfSome (tree_shown self.now.mounted.now (D.gives device.old)) (λ _. HasFailed (D.fault_count device.old) (D.fault_count device.new) (D.moment_of device.new)) }
        ensures counted { D.moment_of device.old < last_moment → CountsReplyOnDevice (tree_shown self.now.mounted.now (D.gives device.old)) (D.fault_count device.old) (D.fault_count device.new) (D.moment_of device.new) result }
    {
        let mut view = DeviceView::new(room, device);
        self.reply_on(alloc, &mut view, op)
    }
}
