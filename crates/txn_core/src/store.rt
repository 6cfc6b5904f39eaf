//! A store on a device.
ghost use Rattle.std.specs.Prelude.{◌≡◌, ◌≤◌, Some};
ghost use Rattle.device_blocks.specs.disk_model.Content.{content_of};
ghost use Rattle.txn_laws.specs.sector_device.Disks.{Disk, seen};
ghost use Rattle.txn_laws.specs.txn_model.Calls.{first_facts};
ghost use Rattle.txn_state.specs.States.{facts_of};
ghost use Rattle.txn_laws.specs.Windows.{HasStart};
ghost use Rattle.txn_core.specs.Kept.{IsBegun, IsKept};
ghost use Rattle.txn_core.specs.Openings.{StartsThen};
ghost use Rattle.txn_core.specs.Tells.{LeavesOpen};

use crate::telling::Telling;
use device_blocks::CheckWord;
use std::alloc::Global;
use std::marker::Model;
use txn_laws::{Device, Pool};
use txn_state::StoreState;

/// A store of blocks on a device.
#[derive(Drop)]
pub struct Store<D: Device> {
    pub(crate) device: D,
    pub(crate) state: StoreState,
    // What is known of the check words of the blocks whose bodies are kept.
    pub(crate) words: Pool<CheckWord>,
    pub(crate) told: Telling,
}

impl<D: Device> Model for Store<D> {
    ghost use Rattle.txn_state.specs.States.{facts_of};
    ghost use Rattle.txn_core.specs.Seen.{Seen, StandsOn};
    ghost use Rattle.txn_core.specs.Tells.{IsTold};

    ghost Value = { Seen D };

    ghost view = { λ s. record { device = s.device; state = s.state; words = s.words } };

    ghost invariant = { λ s. StandsOn (D.sector_count s.device) (D.changes_of s.device) s.state s.words × IsTold (facts_of s.state) s.told };
}

impl<D: Device> Store<D> {
    /// A store on a device, over a state at its start, whose log is the one of a session that was
    /// opened there. It takes no memory.
    pub fn on(alloc: Global, device: D, state: StoreState) -> Self
        requires place { state.place.device ≤ D.sector_count device }
        requires begun { IsBegun state.log }
        requires first { facts_of state ≡ first_facts state.place state.log state.found }
        requires starts { StartsThen D.changes_of state.place state.log device }
        ensures device { result.device ≡ device }
        ensures state { result.state ≡ state }
        ensures starts { (disk : Disk) → (D.changes_of result.device).disk ≡ Some disk → HasStart (D.changes_of result.device) (facts_of result.state) (content_of (seen disk)) }
    {
        let words = Pool::new(alloc);
        Store {
            device,
            state,
            words,
            told: Telling::new(),
        }
    }

    /// The device.
    pub fn device(&self) -> &D
        ensures { result.now ≡ self.now.device }
    {
        &self.device
    }

    /// What the store holds in memory.
    pub fn state(&self) -> &StoreState
        ensures { result.now ≡ self.now.state }
    {
        &self.state
    }

    /// Law: no restart page that a store sends says that its log is closed, behind which recovery
    /// reads no entry.
    pub fn leaves_open(&self)
        ensures { LeavesOpen self.now.state.log }
    {
        self.state.known();
    }

    /// Law: what is always so of a store, beside what its state keeps by itself.
    pub fn known(&self)
        ensures { IsKept (facts_of self.now.state) }
    {
        self.state.known();
    }

    /// The device alone, as the store leaves it.
    pub fn into_device(self) -> D
        ensures { result ≡ self.device }
    {
        let Store { device, .. } = self;
        device
    }
}
