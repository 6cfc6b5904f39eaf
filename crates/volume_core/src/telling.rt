//! What may be done next with a volume.
ghost use Rattle.std.specs.Prelude.{◌≡◌, ◌^◌, ◌<◌, ◌↔◌, true, IfSome};
ghost use Rattle.log_page.specs.Places.{sequence_bits};
ghost use Rattle.log_reading.specs.Rings.{IsRingPlace};
ghost use Rattle.working_volume.specs.txn_laws.Windows.{lap_behind};
ghost use Rattle.txn_state.specs.States.{facts_of};
ghost use Rattle.working_volume.specs.txn_core.Steps.{MayTurn};
ghost use Rattle.working_volume.specs.txn_core.Turns.{HasNext};
ghost use Rattle.working_volume.specs.state_store.Rooms.{MayNumber};
ghost use Rattle.volume_core.specs.Telling.{ComesNext};

use crate::volume::Volume;
use crash_trees::has_next;
use flush_policy::{StoreStep, next_step};
use log_page::{lap_of, sequence_bits};
use sector_device::Device;
use txn_state::StoreState;
use working_volume::steps_lead_on;

// Whether LSNs have 64 bits in the lap behind that of the least entry which the store would append
// next.
fn has_lap_behind(state: &StoreState) -> bool
    requires ring { IsRingPlace state.now.place }
    ensures { (result ≡ true) ↔ (lap_behind (facts_of state.now) < 2 ^ sequence_bits state.now.log.pages) }
{
    state.known();
    let log = state.log();
    if !log.has_lap(0x58) {
        return false;
    }
    let pages = state.place().pages;
    lap_of(pages, log.next(0x58)) + 1 < 1u64 << sequence_bits(pages)
}

impl<D: Device> Volume<D> {
    /// Whether an operation may be done that writes, fills or cuts a file
    /// ([`change`](Volume::change)): the next transaction has a number below 2^32, and the lap of
    /// the log behind that of its first entry has LSNs of 64 bits. Where not, the volume takes no
    /// more changes: once it is mounted again, numbers begin anew, but laps go on. It takes no
    /// memory, in constant time.
    pub fn may_change(&self) -> bool
        ensures { (result ≡ true) ↔ MayNumber (facts_of self.now.store.state) }
    {
        let state = self.store.state();
        state.tx() < 1 << 32 && has_lap_behind(state)
    }

    /// The step of the store that comes next, which may be taken ([`turn`](Volume::turn)); none
    /// where nothing is left to do, or where the log has no lap for a further entry or its count of
    /// opens is at its end. It takes no memory, in constant time.
    pub fn next(&self) -> Option<StoreStep>
        ensures may { IfSome result (λ step. MayTurn (facts_of self.now.store.state) step) }
        ensures next { HasNext self.now.store.state.log → ComesNext self.now.store.state result }
    {
        steps_lead_on();
        if !has_next(&self.store) {
            return None;
        }
        next_step(&self.store.facts())
    }
}
