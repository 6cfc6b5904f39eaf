//! The pages that changes will take, and whether the log has room for them.
ghost use Rattle.std.specs.Prelude.{◌≡◌, ◌↔◌, ◌+◌, ◌-◌, ◌^◌, ◌<◌, ◌≤◌, true, false, All, IfOk};
ghost use Rattle.txn_laws.specs.log_page.Places.{sequence_bits};
ghost use Rattle.device_blocks.specs.log_area.Areas.{ring_size, lap_at, next_number};
ghost use Rattle.txn_state.specs.txn_log.Laws.{HasRoom};
ghost use Rattle.txn_core.specs.Tells.{HasLap};
ghost use Rattle.txn_core.specs.Rooms.{LacksRoom};
ghost use Rattle.txn_laws.specs.log_model.Logs.{is_in_grid};
ghost use Rattle.txn_state.specs.txn_log.Counts.{capped, pages_needed};
ghost use Rattle.txn_state.specs.States.{facts_of};

use crate::store::Store;
use device_blocks::{Change, LogArea};
use std::alloc::{AllocError, Global};
use txn_laws::{Device, lap_of, page_lsn};
use txn_state::pages_for;

// The page of the least entry that is appended next.
fn next_number(log: &LogArea) -> u64
    ensures { result ≡ next_number log.now 0x58 }
{
    if log.free_at() + 0x58 <= 4096 {
        log.filled_page()
    } else {
        log.filled_page() + 1
    }
}

// Whether LSNs of the page so many behind the one that is filled have 64 bits.
fn has_lap_behind(log: &LogArea, pages: u64) -> bool
    requires some { 4 < log.now.pages }
    requires few { log.now.pages < 2 ^ 52 }
    requires above { 64 ≤ log.now.free }
    requires below { log.now.free ≤ 4096 }
    requires lap { HasLap log.now }
    requires near { pages ≤ ring_size log.now }
    ensures { (result ≡ true) ↔ (lap_at log.now (log.now.sealed + pages) < 2 ^ sequence_bits log.now.pages) }
{
    let size = log.size();
    let first = lap_of(size + 4, log.next(0x58)) - next_number(log) / size;
    let page = log.filled_page() + pages;
    page_lsn(size + 4, first + page / size, 4).is_some()
}

impl<D: Device> Store<D> {
    /// Whether a transaction that begins now may begin so many pages of the log: they are free, and
    /// the LSNs of their laps have 64 bits. What [`Store::pages_for`] told is enough then for all its
    /// changes and its commit, by the law `pages_are_enough` of `txn_log`.
    pub fn has_room(&self, pages: u64) -> bool
        ensures yes { result ≡ true → self.now.state.tx < 2 ^ 32 → HasRoom self.now.state.log self.now.state.tx 0 pages }
        ensures lacks { result ≡ false → LacksRoom self.now.state.log pages }
    {
        self.state.known();
        let log = self.state.log();
        pages <= log.room() && log.has_lap(0x58) && has_lap_behind(log, pages)
    }

    /// The pages of the log that are begun when these changes are made in order in one transaction,
    /// and then it is committed. Where the log has room for as many, each of them may be logged and
    /// then the commit, by the law `pages_are_enough` of `txn_log`.
    ///
    /// The error is want of memory. Time and memory are near-linear in the changes.
    pub fn pages_for(&self, alloc: Global, changes: &[Change]) -> Result<u64, AllocError>
        requires { All (λ c. is_in_grid c.block ≡ true) changes.now }
        ensures { IfOk result (λ pages. pages ≡ capped (pages_needed self.now.state.log.free (λ b. ((facts_of self.now.state).mark b).imaged) changes.now)) }
    {
        pages_for(alloc, self.state.log(), self.state.marks(), changes)
    }
}
