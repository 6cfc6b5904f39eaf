//! Operations that write, fill or cut a file of a volume.
ghost use Rattle.std.specs.Prelude.{◌≡◌, true, None, Err};
ghost use Rattle.tree_model.specs.Steps.{IsWithinBounds};
ghost use Rattle.working_volume.specs.change_plan.States.{is_data_change};
ghost use Rattle.txn_state.specs.States.{facts_of};
ghost use Rattle.working_volume.specs.state_store.Rooms.{MayNumber};
ghost use Rattle.working_volume.specs.declared.fault.DoFault.TheVariants as do_faults;
ghost use Rattle.working_volume.specs.Doing.{Does, CountsChange};
ghost use Rattle.volume_core.specs.Volumes.{volume_tree};
ghost use Rattle.volume_core.specs.Trees.{StepsTree};
ghost use Rattle.volume_core.specs.Calls.{GoesOn};

use crate::volume::Volume;
use crash_trees::{trees_mount, trees_put};
use sector_device::Device;
use std::alloc::Global;
use working_volume::{DoFault, Op, Reply, change_over, steps_of_trees, steps_stay};

impl<D: Device> Volume<D> {
    /// Does an operation that writes, fills or cuts a file. `stamp` is the time of the change, in
    /// units of 100 ns since 1601-01-01. The device is only read: the changes are one transaction of
    /// the store, which its steps make durable.
    ///
    /// From a state the reply and the content are those of the operation's step, and so is the tree. A failure of the
    /// device and want of memory are replies, and leave the content as it is.
    ///
    /// - [`DoFault::NeedsRoom`]: the log has no room for the changes.
    /// - [`DoFault::Unknown`]: what was read is part of no state of the volume; only where what the
    ///   device gives isn't known.
    ///
    /// After each of them content and map are as before. Where the operation is done with changes, the
    /// volume has one tree more that a crash may bring back. The costs are those of
    /// [`working_volume::change_over`].
    pub fn change(&mut self, alloc: Global, op: &Op, stamp: u64) -> Result<Reply, DoFault>
        requires number { MayNumber (facts_of self.old.store.state) }
        requires changes { is_data_change op.now ≡ true }
        requires bounds { IsWithinBounds op.now }
        ensures does { Does op.now stamp self.old.table self.old.streams result (D.gives self.old.store.device) (D.gives self.new.store.device) self.old.store.state self.new.store.state (D.changes_of self.old.store.device) (D.changes_of self.new.store.device) self.old.map self.new.map }
        ensures tree { StepsTree self.old.table op.now stamp result (volume_tree D.gives self.old) (volume_tree D.gives self.new) }
        ensures table { self.new.table ≡ self.old.table }
        ensures streams { self.new.streams ≡ self.old.streams }
        ensures unknown { result ≡ Err do_faults.Unknown → D.gives self.old.store.device ≡ None }
        ensures counts { CountsChange D.fault_count D.moment_of result self.old.store.device self.new.store.device }
        ensures history { GoesOn D.gives D.sector_count D.changes_of self.old self.new }
        ensures sectors { D.sector_count self.new.store.device ≡ D.sector_count self.old.store.device }
    {
        steps_of_trees();
        steps_stay();
        trees_mount();
        trees_put();
        change_over(
            &mut self.store,
            &mut self.live,
            &mut self.room,
            alloc,
            &self.names,
            &self.upper,
            &self.streams,
            op,
            stamp,
        )
    }
}
