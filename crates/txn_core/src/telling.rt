//! What a store keeps beside its state, so that it tells of itself without a walk.
ghost use Rattle.std.specs.Prelude.{◌≡◌, ◌+◌, ◌*◌, ◌^◌, ◌<◌, ◌≤◌, ◌||◌, Bool, true, false, None};
ghost use Rattle.txn_laws.specs.block_pool.Numbers.{block_number, number_after};
ghost use Rattle.txn_laws.specs.log_page.Places.{sequence_bits};
ghost use Rattle.device_blocks.specs.log_area.Areas.{lap_at, next_number, next_lsn};
ghost use Rattle.txn_laws.specs.txn_model.Calls.{is_ready};
ghost use Rattle.txn_laws.specs.txn_model.Told.{is_left};
ghost use Rattle.txn_state.specs.States.{facts_of};
ghost use Rattle.txn_core.specs.Tells.{TellsLeft, IsLowestFrom, IsLowest, StaysLowest};

use device_blocks::Block;
use txn_state::{Mark, StoreState, Tests};

// What a store tells of its blocks, and the LSN of the place that a checkpoint noted.
#[derive(Clone, Copy, Debug, Drop)]
pub(crate) struct Telling {
    // Some block was written since the last sync that answered `Ok`.
    pub(crate) wrote: bool,
    // The blocks that a checkpoint waits for.
    pub(crate) left: u64,
    // The lowest block that is ready.
    pub(crate) ready: Option<Block>,
    // The LSN of the place that a checkpoint noted.
    pub(crate) front: u64,
}

// Its changes are durable, where these commits and pages of the log are, and it isn't written out.
#[derive(Clone, Copy, Drop)]
struct Durable {
    commits: u64,
    pages: u64,
}

impl Tests<Mark> for Durable {
    ghost use Rattle.txn_core.specs.Tells.{is_durable};

    ghost told = { λ s m. is_durable s.commits s.pages m };

    fn passes(&self, mark: &Mark) -> bool {
        mark.dirty && mark.commit <= self.commits && mark.until <= self.pages
    }
}

// The lowest block behind this one that is ready, or the lowest of all. It takes no memory, and
// time linear in the marks that it passes over.
fn lowest_after(state: &StoreState, after: Option<Block>) -> Option<Block>
    ensures { IsLowestFrom (is_ready (facts_of state.now)) (number_after after) result }
{
    let durable = Durable {
        commits: state.durable(),
        pages: state.log().durable_pages(),
    };
    let mut behind = after;
    while let Some(block) = state.marks().next_where(behind, &durable) {
        if !state.is_changed(block) {
            return Some(block);
        }
        behind = Some(block);
    }
    None
}

// A checkpoint waits for it.
#[derive(Clone, Copy, Drop)]
struct Left;

impl Tests<Mark> for Left {
    ghost use Rattle.txn_laws.specs.txn_model.Told.{is_left};

    ghost told = { λ s m. is_left m };

    fn passes(&self, mark: &Mark) -> bool {
        mark.owed || mark.due
    }
}

// How many blocks a checkpoint waits for. It takes no memory, and time linear in the marks, and
// logarithmic in them for each such block.
fn count_left(state: &StoreState) -> u64
    ensures { TellsLeft (facts_of state.now).mark result }
{
    let mut left = 0u64;
    let mut behind = None;
    while let Some(block) = state.marks().next_where(behind, &Left) {
        left = left.saturating_add(1);
        behind = Some(block);
    }
    left
}

impl Telling {
    // Where no block has a mark.
    pub(crate) fn new() -> Telling
        ensures { result ≡ record { wrote = false; left = 0; ready = None; front = 0 } }
    {
        Telling {
            wrote: false,
            left: 0,
            ready: None,
            front: 0,
        }
    }

    // More blocks may be ready now.
    pub(crate) fn seek(&mut self, state: &StoreState)
        ensures lowest { IsLowest (is_ready (facts_of state.now)) self.new.ready }
        ensures rest { self.new ≡ record self.old { ready = self.new.ready } }
    {
        self.ready = lowest_after(state, None);
    }

    // No more blocks are ready now.
    pub(crate) fn go_on(&mut self, state: &StoreState)
        ensures lowest { StaysLowest (is_ready (facts_of state.now)) self.old.ready self.new.ready }
        ensures rest { self.new ≡ record self.old { ready = self.new.ready } }
    {
        self.ready = lowest_from(state, self.ready);
    }

    // A sync answered `Ok`, or not.
    pub(crate) fn after_sync(&mut self, state: &StoreState, ok: bool)
        ensures dry { ok ≡ true → self.new.wrote ≡ false }
        ensures left { ok ≡ true → TellsLeft (facts_of state.now).mark self.new.left }
        ensures lowest { ok ≡ true → IsLowest (is_ready (facts_of state.now)) self.new.ready }
        ensures front { self.new.front ≡ self.old.front }
        ensures failed { ok ≡ false → self.new ≡ self.old }
    {
        if ok {
            self.wrote = false;
            self.left = count_left(state);
            self.seek(state);
        }
    }

    // A block was written out, or its write failed; then the blocks that a checkpoint waits for are
    // counted anew where it waited for a rival.
    pub(crate) fn after_write(&mut self, state: &StoreState, block: Block, anew: bool)
        ensures wrote { self.new.wrote ≡ (self.old.wrote || ((facts_of state.now).mark block).wet) }
        ensures counted { anew ≡ true → TellsLeft (facts_of state.now).mark self.new.left }
        ensures left { anew ≡ false → self.new.left ≡ self.old.left }
        ensures lowest { StaysLowest (is_ready (facts_of state.now)) self.old.ready self.new.ready }
        ensures front { self.new.front ≡ self.old.front }
    {
        self.wrote = self.wrote || state.mark(block).wet;
        self.left = left_after(state, self.left, anew);
        self.go_on(state);
    }

    // A change was made, or the transaction was given up.
    pub(crate) fn after_change(&mut self, state: &StoreState, ok: bool)
        ensures changed { ok ≡ true → StaysLowest (is_ready (facts_of state.now)) self.old.ready self.new.ready }
        ensures given_up { ok ≡ false → IsLowest (is_ready (facts_of state.now)) self.new.ready }
        ensures rest { self.new ≡ record self.old { ready = self.new.ready } }
    {
        if ok {
            self.go_on(state);
        } else {
            self.seek(state);
        }
    }

    // A checkpoint has begun.
    pub(crate) fn after_begin(&mut self, state: &StoreState)
        ensures left { TellsLeft (facts_of state.now).mark self.new.left }
        ensures front { lap_at state.now.log (next_number state.now.log 0x58) < 2 ^ sequence_bits state.now.log.pages → self.new.front ≡ next_lsn state.now.log 0x58 }
        ensures rest { self.new ≡ record self.old { left = self.new.left; front = self.new.front } }
    {
        self.left = count_left(state);
        self.front = state.log().next(0x58);
    }
}

// How many blocks a checkpoint waits for, where these did and are counted anew or not.
fn left_after(state: &StoreState, old: u64, anew: bool) -> u64
    ensures counted { anew ≡ true → TellsLeft (facts_of state.now).mark result }
    ensures left { anew ≡ false → result ≡ old }
{
    if anew { count_left(state) } else { old }
}

// The lowest block that is ready, where this was one and no more are.
fn lowest_from(state: &StoreState, old: Option<Block>) -> Option<Block>
    ensures { StaysLowest (is_ready (facts_of state.now)) old result }
{
    match old {
        Some(block) => {
            if state.is_ready(block) {
                Some(block)
            } else {
                lowest_after(state, Some(block))
            }
        }
        None => None,
    }
}
