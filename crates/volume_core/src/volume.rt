//! What a volume has, and what it tells of itself.
ghost use Rattle.std.specs.Prelude.{◌≡◌, ◌↔◌, true, Some, length, IfSome};
ghost use Rattle.log_reading.specs.Rings.{IsRingPlace};
ghost use Rattle.working_volume.specs.map_change.Parts.{live_parts};
ghost use Rattle.working_volume.specs.volume_tree.Named.{AreNamesOf};
ghost use Rattle.flush_policy.specs.declared.facts.StoreStep.{StoreStep as StepOf};
ghost use Rattle.flush_policy.specs.Choice.{next_step};
ghost use Rattle.log_area.specs.Areas.{next_lsn};
ghost use Rattle.txn_model.specs.Told.{FactsTold, KeepsSteps};
ghost use Rattle.txn_state.specs.States.{facts_of};
ghost use Rattle.working_volume.specs.txn_core.Kept.{IsKept};
ghost use Rattle.working_volume.specs.txn_core.Steps.{MayTurn};
ghost use Rattle.working_volume.specs.txn_core.Tells.{HasLap};
ghost use Rattle.working_volume.specs.txn_core.Turns.{HasNext};
ghost use Rattle.working_volume.specs.txn_core.Views.{present_content};
ghost use Rattle.working_volume.specs.state_store.Volumes.{HoldsState};
ghost use Rattle.working_volume.specs.Ready.{IsReady};
ghost use Rattle.volume_core.specs.Histories.{LeavesTrees};
ghost use Rattle.volume_core.specs.Calls.{StartsHistory};

use crash_trees::{has_next, trees_mount, trees_start};
use flush_policy::Facts;
use sector_device::Device;
use std::marker::Model;
use working_volume::{LiveMap, Names, Store, Upcase, VolumeStreams, steps_lead_on};

/// A volume on a device, with what it keeps in memory: its store, the map of its content, its table
/// of upper-case units, the names of its files, and room for a piece of the device.
#[derive(Drop)]
pub struct Volume<D: Device> {
    pub(crate) store: Store<D>,
    pub(crate) live: LiveMap,
    pub(crate) upper: Upcase,
    pub(crate) names: Names,
    pub(crate) streams: VolumeStreams,
    pub(crate) room: Vec<u8>,
}

impl<D: Device> Model for Volume<D> {
    ghost use Rattle.working_volume.specs.map_change.Parts.{live_parts};
    ghost use Rattle.volume_core.specs.Volumes.{SeenVolume, IsWorking};

    ghost Value = { SeenVolume D };

    ghost view = { λ v. record { store = v.store; map = live_parts v.live; table = v.upper; streams = v.streams } };

    ghost invariant = { λ v. IsWorking (D.gives v.store.device) (D.changes_of v.store.device) v.store.state (live_parts v.live) v.upper v.streams v.names v.room.items };
}

impl<D: Device> Volume<D> {
    /// A volume over a store that shows a state from which operations are planned, with the map of
    /// this state, its table of upper-case units, the names of its files, and the streams of its
    /// file table, of the table's mirror and of the bits of its clusters. `room` is room for a piece
    /// of the device ([`device_view::piece_room`]). It takes no memory.
    pub fn over(
        store: Store<D>,
        live: LiveMap,
        upper: Upcase,
        names: Names,
        streams: VolumeStreams,
        room: Vec<u8>,
    ) -> Self
        requires holds { HoldsState (D.gives store.device) (D.changes_of store.device) store.state (live_parts live) upper }
        requires ring { IsRingPlace store.state.place }
        requires named { AreNamesOf names (live_parts live).volume.files }
        requires ready { IfSome (present_content (D.gives store.device) store.state) (IsReady (facts_of store.state) (live_parts live) upper streams) }
        requires sized { length room.items ≡ 65536 }
        ensures store { result.store ≡ store }
        ensures map { result.map ≡ live_parts live }
        ensures table { result.table ≡ upper }
        ensures streams { result.streams ≡ streams }
        ensures starts { StartsHistory D.gives D.sector_count D.changes_of result }
    {
        trees_start();
        Volume {
            store,
            live,
            upper,
            names,
            streams,
            room,
        }
    }

    /// The device, for its moment and its faults.
    pub fn device(&self) -> &D
        ensures { result.now ≡ self.now.store.device }
    {
        self.store.device()
    }

    /// The table of upper-case units of this volume.
    pub fn upcase(&self) -> &Upcase
        ensures { result.now ≡ self.now.table }
    {
        &self.upper
    }

    /// How many lists of changes were committed since the volume was made.
    pub fn commits(&self) -> u64
        ensures { result ≡ self.now.store.state.commits }
    {
        self.store.state().commits()
    }

    /// How many of them are known durable.
    pub fn durable(&self) -> u64
        ensures { result ≡ self.now.store.state.durable }
    {
        self.store.state().durable()
    }

    /// What the store tells of itself, by which its next step is chosen
    /// ([`flush_policy::next_step`]): this step may be taken, where the log has a lap for a restart
    /// page. It takes no memory, in constant time.
    pub fn facts(&self) -> Facts
        ensures told { HasLap self.now.store.state.log → FactsTold (facts_of self.now.store.state) result }
        ensures but_next { FactsTold (facts_of self.now.store.state) (record result { next = next_lsn self.now.store.state.log 0x58 }) }
        ensures kept { IsKept (facts_of self.now.store.state) }
        ensures steps { KeepsSteps (facts_of self.now.store.state) }
        ensures next { HasNext self.now.store.state.log → (step : StepOf) → next_step result ≡ Some step → MayTurn (facts_of self.now.store.state) step }
    {
        steps_lead_on();
        self.store.facts()
    }

    /// Whether a checkpoint may end by a restart page: the log has a lap for a further entry, and its
    /// count of opens isn't at its end. In constant time.
    pub fn has_next(&self) -> bool
        ensures { (result ≡ true) ↔ HasNext self.now.store.state.log }
    {
        has_next(&self.store)
    }

    /// Law: the store shows a state, of which this is the map, and this the table of upper-case units;
    /// operations are planned from it.
    pub fn known(&self)
        ensures holds { HoldsState (D.gives self.now.store.device) (D.changes_of self.now.store.device) self.now.store.state self.now.map self.now.table }
        ensures ring { IsRingPlace self.now.store.state.place }
        ensures ready { IfSome (present_content (D.gives self.now.store.device) self.now.store.state) (IsReady (facts_of self.now.store.state) self.now.map self.now.table self.now.streams) }
    {
        let _ = &self.store;
    }

    /// Law: what a crash leaves of the volume now mounts, as one of the trees that it had since it was
    /// mounted: of one of the operations that aren't known durable, or of the newest one that is.
    pub fn left(&self)
        ensures { LeavesTrees D.gives D.sector_count D.changes_of self.now }
    {
        trees_mount();
    }

    /// The device alone, as the volume leaves it. What is not durable then is what its store holds in
    /// memory, and may be lost.
    pub fn into_device(self) -> D
        ensures { result ≡ self.store.device }
    {
        let Volume { store, .. } = self;
        store.into_device()
    }
}
