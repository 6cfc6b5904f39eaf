//! What a store tells of itself.
ghost use Rattle.std.specs.Prelude.{◌≡◌, ◌+◌, ◌<◌, ◌≤◌, ◌&&◌, Bool, not, nat_lt, is_some, unwrap_or, false};
ghost use Rattle.device_blocks.specs.log_area.Areas.{used_pages, ring_size, next_lsn};
ghost use Rattle.txn_laws.specs.txn_model.Told.{FactsTold, KeepsMarked, KeepsSteps, is_fresh};
ghost use Rattle.txn_state.specs.States.{facts_of};
ghost use Rattle.txn_core.specs.Kept.{IsKept};
ghost use Rattle.txn_core.specs.Tells.{IsAllDone, HasLap};

use crate::store::Store;
use device_blocks::LogArea;
use txn_laws::{Device, Facts};

// The pages of the ring that aren't free.
fn used_pages(log: &LogArea) -> u64
    requires { used_pages log.now ≤ ring_size log.now }
    ensures { result ≡ used_pages log.now }
{
    log.size().saturating_sub(log.room())
}

// Whether a page of the log was used since the last checkpoint began.
fn is_fresh(log: &LogArea, noted: Option<u64>) -> bool
    requires order { log.now.oldest ≤ log.now.sealed }
    requires within { used_pages log.now ≤ ring_size log.now }
    ensures { result ≡ nat_lt (unwrap_or noted log.now.oldest) (log.now.oldest + used_pages log.now) }
{
    match noted {
        Some(page) => page < log.filled_page() + u64::from(log.filling()),
        None => used_pages(log) > 0,
    }
}

// Whether something was written that isn't durable: a page of the log, a restart page, or a block.
fn is_unsynced(log: &LogArea, wrote: bool) -> bool
    ensures done { result ≡ false → IsAllDone log.now × (wrote ≡ false) }
    ensures synced { IsAllDone log.now → wrote ≡ false → result ≡ false }
{
    log.written_pages() != log.durable_pages() || log.awaits_sync() || wrote
}

// Whether a checkpoint has begun whose restart page wasn't written.
fn has_begun(log: &LogArea, noted: Option<u64>) -> bool
    ensures { result ≡ (is_some noted && not (is_some log.now.named)) }
{
    noted.is_some() && !log.awaits_sync()
}

impl<D: Device> Store<D> {
    /// What the store tells of itself, by which its next step is chosen
    /// ([`flush_policy::next_step`]). It takes no memory, in constant time.
    pub fn facts(&self) -> Facts
        ensures told { HasLap self.now.state.log → FactsTold (facts_of self.now.state) result }
        ensures but_next { FactsTold (facts_of self.now.state) (record result { next = next_lsn self.now.state.log 0x58 }) }
        ensures kept { IsKept (facts_of self.now.state) }
        ensures marked { KeepsMarked (facts_of self.now.state) }
        ensures steps { KeepsSteps (facts_of self.now.state) }
    {
        self.state.known();
        let log = self.state.log();
        let noted = self.state.noted();
        Facts {
            filling: log.filling(),
            sealed: log.sealed(),
            unsynced: is_unsynced(log, self.told.wrote),
            ready: self.told.ready,
            begun: has_begun(log, noted),
            fresh: is_fresh(log, noted),
            noted_left: self.told.left,
            pages_used: used_pages(log),
            pages: log.size(),
            next: log.next(0x58),
        }
    }
}
