//! A store that runs, whose calls are made where their conditions are met.
ghost use Rattle.std.specs.Prelude.{◌≡◌, ◌*◌, ◌+◌, ◌^◌, ◌≤◌, ◌<◌, true, false, None, [], IfOk, IfSome, length};
ghost use Rattle.disk_model.specs.declared.block.Block.{Block as BlockOf};
ghost use Rattle.disk_model.specs.Sectors.{sectors, are_rivals};
ghost use Rattle.log_model.specs.Logs.{is_in_grid};
ghost use Rattle.store_model.specs.Volumes.{is_known};
ghost use Rattle.txn_core.specs.txn_log.Counts.{capped};
ghost use Rattle.txn_core.specs.txn_model.Values.{own_of};
ghost use Rattle.txn_core.specs.txn_state.States.{facts_of};
ghost use Rattle.txn_core.specs.Steps.{MayTurn};
ghost use Rattle.store_images.specs.Running.{IsRunning, MayBegin, MayMake, MayGoOn, change_of, pages_of_changes, CanLie};

use crate::blind::BlindDevice;
use crate::conditions::{is_alone, is_in_grid, is_in_volume, is_inside, is_known};
use crate::devices::place;
use block_view::ViewFault;
use disk_model::{Block, Change};
use flush_policy::{Facts, StoreStep, next_step};
use host_base::{Bytes, Failed};
use log_area::LogArea;
use log_page::LogPlace;
use log_reading::is_ring_place;
use sector_device::{Device, MemoryDevice};
use std::alloc::{AllocError, Global};
use std::marker::Model;
use txn_core::{ChangeFault, Store, StoreState, open_log, pages_are_enough, steps_lead_on};

/// A store on a device in memory.
#[derive(Drop)]
pub struct Run {
    store: Store<BlindDevice<MemoryDevice>>,
    // The steps that were taken.
    turns: u32,
}

impl Model for Run {
    ghost use Rattle.txn_core.specs.txn_state.States.{StateOf, facts_of};
    ghost use Rattle.store_images.specs.Running.{IsRunning};

    ghost Value = { StateOf };

    ghost view = { λ r. r.store.state };

    ghost invariant = { λ r. IsRunning r.turns (facts_of r.store.state) };
}

/// What a call answers whose condition may not be met: then it isn't made.
#[derive(Clone, Copy, Debug, PartialEq, Eq)]
pub enum Answer {
    /// It went well.
    Done,
    /// Its condition isn't met.
    Barred,
    /// The device failed.
    Fault,
    /// Want of memory.
    Memory,
    /// The block's body would have no spelling.
    Unspelled,
}

fn told(done: Result<(), Failed>) -> Answer {
    match done {
        Ok(()) => Answer::Done,
        Err(Failed) => Answer::Fault,
    }
}

// Whether these bytes may come into a block of its kind, from this one on.
fn fits(block: Block, at: usize, new: &[u8]) -> bool
    ensures some { result ≡ true → 0 < length new.now }
    ensures fits { result ≡ true → at + length new.now ≤ 512 * sectors block.kind }
    ensures near { result ≡ true → block.first < 2 ^ 64 }
{
    let size = 512 * block.kind.sectors();
    block.first < 1 << 40 && !new.is_empty() && new.len() <= size && at <= size - new.len()
}

// Whether these bytes may come into the block in the open transaction, where there is room.
fn can_lie(state: &StoreState, block: Block, at: usize, new: &[u8]) -> bool
    ensures { result ≡ true → CanLie (facts_of state.now) block at new.now }
{
    state.is_open()
        && is_known(state, block)
        && is_in_grid(block)
        && is_in_volume(state.place(), block)
        && is_inside(state.place(), block)
        && fits(block, at, new)
        && is_alone(state, block)
}

// The change that brings these bytes.
fn change_of(alloc: Global, block: Block, at: usize, new: &[u8]) -> Result<Change, AllocError>
    requires { at < 4096 }
    ensures { IfOk result (λ c. c ≡ change_of block at new.now) }
{
    Ok(Change {
        block,
        offset: at as u32,
        old: Bytes::copy_of(alloc, &[])?,
        new: Bytes::copy_of(alloc, new)?,
    })
}

impl Run {
    /// A store whose log has so many pages and no entry, on this device, which is synced; none
    /// where so few pages are no log, or the device is too small. Three calls of the device.
    ///
    /// The error is a failure of the device, or want of memory.
    pub fn open(alloc: Global, pages: u32, memory: MemoryDevice) -> Result<Option<Run>, ViewFault> {
        let place = place(alloc, pages)?;
        let mut device = BlindDevice { device: memory };
        if !is_ring_place(alloc, &place)? || device.sectors() < place.device {
            return Ok(None);
        }
        let log = open_log(alloc, &mut device, &place, 1, 0, 1)?;
        let state = StoreState::start(alloc, place, log, Vec::new(alloc))?;
        let store = Store::on(alloc, device, state);
        Ok(Some(Run { store, turns: 0 }))
    }

    /// The store.
    pub fn into_store(self) -> Store<BlindDevice<MemoryDevice>> {
        let Run { store, .. } = self;
        store
    }

    /// The device.
    pub fn memory(&self) -> &MemoryDevice {
        &self.store.device().device
    }

    /// What the store holds.
    pub fn state(&self) -> &StoreState
        ensures { result.now ≡ self.now }
    {
        self.store.state()
    }

    /// What the store tells of itself.
    pub fn facts(&self) -> Facts {
        self.store.facts()
    }

    /// Begins a transaction, where none is open.
    pub fn begin(&mut self) -> Answer {
        let state = self.store.state();
        if state.is_open() || state.tx() >= 1 << 32 {
            return Answer::Barred;
        }
        self.store.begin();
        Answer::Done
    }

    /// The pages that changes take and then a commit; none where a block begins where its kind may
    /// not.
    pub fn pages_for(&self, alloc: Global, changes: &[Change]) -> Result<Option<u64>, AllocError>
        ensures { IfOk result (λ o. IfSome o (λ pages. pages ≡ capped (pages_of_changes (facts_of self.now) changes.now))) }
    {
        if !changes.iter().all(|change| is_in_grid(change.block)) {
            return Ok(None);
        }
        Ok(Some(self.store.pages_for(alloc, changes)?))
    }

    // Whether the open transaction may begin so many pages.
    fn has_room(&self, pages: u64) -> bool
        ensures { result ≡ true → MayBegin (facts_of self.now) pages }
    {
        let state = self.store.state();
        state.known();
        state.is_open() && self.store.has_room(pages)
    }

    // Whether these bytes may be put into the block from this one on.
    fn may_change(
        &self,
        alloc: Global,
        block: Block,
        at: usize,
        new: &[u8],
    ) -> Result<bool, AllocError>
        ensures { IfOk result (λ may. may ≡ true → MayMake (facts_of self.now) block at new.now) }
    {
        pages_are_enough();
        let state = self.store.state();
        state.known();
        if !can_lie(state, block, at, new) {
            return Ok(false);
        }
        let change = change_of(alloc, block, at, new)?;
        let pages = self.store.pages_for(alloc, &[change])?;
        Ok(self.has_room(pages))
    }

    /// Puts these bytes into the block from this one on, where the store allows that. The error is
    /// want of memory before the call.
    pub fn change(
        &mut self,
        alloc: Global,
        block: Block,
        at: usize,
        new: &[u8],
    ) -> Result<Answer, AllocError> {
        if !self.may_change(alloc, block, at, new)? {
            return Ok(Answer::Barred);
        }
        pages_are_enough();
        let answer = match self.store.change(alloc, block, at, new) {
            Ok(()) => Answer::Done,
            Err(ChangeFault::Fault) => Answer::Fault,
            Err(ChangeFault::Memory) => Answer::Memory,
            Err(ChangeFault::Unspelled) => Answer::Unspelled,
        };
        self.store.state().known();
        Ok(answer)
    }

    /// Commits the open transaction, where there is one and room for its entry. The error is want
    /// of memory before the call.
    pub fn commit(&mut self, alloc: Global) -> Result<Answer, AllocError> {
        pages_are_enough();
        let pages = self.store.pages_for(alloc, &[])?;
        let state = self.store.state();
        if !state.is_open() || !self.has_room(pages) {
            return Ok(Answer::Barred);
        }
        self.store.commit();
        Ok(Answer::Done)
    }

    /// Gives the open transaction up.
    pub fn give_up(&mut self) -> Answer {
        if !self.store.state().is_open() {
            return Answer::Barred;
        }
        self.store.give_up();
        Answer::Done
    }

    /// Seals the page that is filled.
    pub fn seal(&mut self) -> Answer {
        self.store.seal();
        Answer::Done
    }

    /// Writes the next sealed page.
    pub fn write_page(&mut self) -> Answer {
        if self.store.state().log().sealed() == 0 {
            return Answer::Barred;
        }
        told(self.store.write_page())
    }

    /// Syncs the device.
    pub fn sync(&mut self) -> Answer {
        told(self.store.sync_device())
    }

    /// Writes a block out.
    pub fn write_out(&mut self, block: Block) -> Answer {
        if !self.store.state().is_ready(block) {
            return Answer::Barred;
        }
        told(self.store.write_out(block))
    }

    /// Begins a checkpoint, where no transaction is open and no checkpoint has begun.
    pub fn begin_checkpoint(&mut self) -> Answer {
        let state = self.store.state();
        if state.is_open() || state.noted().is_some() {
            return Answer::Barred;
        }
        self.store.begin_checkpoint();
        Answer::Done
    }

    // Whether a next step may be taken.
    fn may_go_on(&self) -> bool
        ensures { result ≡ true → MayGoOn (facts_of self.now) }
    {
        !self.store.state().is_open()
            && self.store.state().log().has_lap(0x58)
            && self.turns < 1 << 31
    }

    /// The step that the store takes next, where no transaction is open; none where nothing is left
    /// to do.
    pub fn next(&self) -> Option<StoreStep>
        ensures { IfSome result (λ step. MayTurn (facts_of self.now) step) }
    {
        steps_lead_on();
        if !self.may_go_on() {
            return None;
        }
        next_step(&self.store.facts())
    }

    /// Takes the next step, where there is one, and tells which it was.
    pub fn turn(&mut self) -> Option<(StoreStep, Answer)> {
        let step = self.next()?;
        if self.turns == u32::MAX {
            return None;
        }
        self.turns += 1;
        Some((step, told(self.store.turn(step))))
    }
}
