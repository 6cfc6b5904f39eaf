//! A store in memory that was taken before.
ghost use Rattle.std.specs.Prelude.{◌≡◌, replicate};
ghost use Rattle.txn_log.specs.log_area.Areas.{ring_size};
ghost use Rattle.txn_log.specs.txn_model.Calls.{first_facts};
ghost use Rattle.txn_state.specs.States.{facts_of};

use crate::state::StoreState;
use std::alloc::Global;
use txn_log::{Block, LogArea, LogPlace, Pool};

impl StoreState {
    /// A store at its start, as [`StoreState::start`] makes it, in memory that was taken before:
    /// `ends` has a 0 for each page of the ring. It takes none.
    pub fn over(
        alloc: Global,
        place: LogPlace,
        log: LogArea,
        found: Vec<Block>,
        ends: Vec<u64>,
    ) -> StoreState
        requires pages { log.pages ≡ place.pages }
        requires sectors { log.sectors ≡ place.device }
        requires ends { ends.items ≡ replicate (ring_size log) 0 }
        ensures { facts_of result ≡ first_facts place log found.items }
    {
        StoreState {
            place,
            log,
            found,
            bodies: Pool::new(alloc),
            marks: Pool::new(alloc),
            before: Pool::new(alloc),
            is_open: false,
            tx: 1,
            last: 0,
            commits: 0,
            durable: 0,
            ends,
            noted: None,
        }
    }
}
