//! The room that changes need in the log.
ghost use Rattle.std.specs.Prelude.{◌≡◌, ◌^◌, ◌<◌, ◌≤◌, true, All, OnOk};
ghost use Rattle.host_base.specs.Answers.{Gives};
ghost use Rattle.log_model.specs.Logs.{is_in_grid};
ghost use Rattle.turn_laws.specs.log_area.Areas.{free_pages};
ghost use Rattle.turn_laws.specs.txn_log.Laws.{HasRoom};
ghost use Rattle.turn_laws.specs.txn_state.States.{facts_of};
ghost use Rattle.state_store.specs.Rooms.{pages_of_changes, room_in, room_cause, MayNumber};

use crate::fault::PutFault;
use disk_model::Change;
use sector_device::Device;
use std::alloc::Global;
use turn_laws::Store;

// The free pages of the log.
fn free_pages<D: Device>(store: &Store<D>) -> u64
    ensures { result ≡ free_pages store.now.state.log }
{
    store.known();
    store.state().log().room()
}

/// Whether the log has room for the pages that the changes and a commit behind them begin.
///
/// [`PutFault::NeedsRoom`]: it has not; [`PutFault::Memory`]: want of memory. Time and memory are
/// near-linear in the changes.
pub fn find_room<D: Device>(
    store: &Store<D>,
    alloc: Global,
    changes: &[Change],
) -> Result<(), PutFault>
    requires grid { All (λ c. is_in_grid c.block ≡ true) changes.now }
    requires number { MayNumber (facts_of store.now.state) }
    ensures answer { Gives (λ u. u) room_cause result (room_in (facts_of store.now.state) changes.now) }
    ensures room { OnOk result (HasRoom store.now.state.log store.now.state.tx 0 (pages_of_changes (facts_of store.now.state) changes.now)) }
{
    store.known();
    let pages = store.pages_for(alloc, changes)?;
    if store.has_room(pages) {
        return Ok(());
    }
    Err(PutFault::NeedsRoom {
        pages,
        room: free_pages(store),
    })
}
