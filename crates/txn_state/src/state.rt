//! A store in memory.
ghost use Rattle.std.specs.Prelude.{◌≡◌, IfOk, is_some};
ghost use Rattle.std.specs.Option.{option_copied, option_map};
ghost use Rattle.txn_log.specs.store_pools.Pools.{body_of_kept};
ghost use Rattle.txn_log.specs.txn_model.Calls.{first_facts, is_ready};
ghost use Rattle.txn_state.specs.States.{facts_of};

use crate::marks::mark_of;
use std::alloc::{AllocError, Global};
use std::marker::Model;
use txn_log::{Block, KeptBody, LogArea, LogPlace, Mark, Pool};

/// What a store of blocks holds in memory.
#[derive(Debug, Drop)]
pub struct StoreState {
    pub(crate) place: LogPlace,
    pub(crate) log: LogArea,
    pub(crate) found: Vec<Block>,
    pub(crate) bodies: Pool<KeptBody>,
    pub(crate) marks: Pool<Mark>,
    pub(crate) before: Pool<KeptBody>,
    pub(crate) is_open: bool,
    pub(crate) tx: u64,
    pub(crate) last: u64,
    pub(crate) commits: u64,
    pub(crate) durable: u64,
    pub(crate) ends: Vec<u64>,
    pub(crate) noted: Option<u64>,
}

impl Model for StoreState {
    ghost use Rattle.txn_state.specs.States.{StateOf, state_of, facts_of, IsStore};

    ghost Value = { StateOf };

    ghost view = { λ s. state_of s.place s.log s.found.items s.bodies s.marks s.before s.is_open s.tx s.last s.commits s.durable s.ends.items s.noted };

    ghost invariant = { λ s. IsStore (facts_of (state_of s.place s.log s.found.items s.bodies s.marks s.before s.is_open s.tx s.last s.commits s.durable s.ends.items s.noted)) };
}

impl StoreState {
    /// A store at its start, over the log of this place, which has no entries; `found` are the
    /// blocks by which the log is found. The error is want of memory. Linear in the log's pages.
    pub fn start(
        alloc: Global,
        place: LogPlace,
        log: LogArea,
        found: Vec<Block>,
    ) -> Result<StoreState, AllocError>
        requires pages { log.pages ≡ place.pages }
        requires sectors { log.sectors ≡ place.device }
        ensures { IfOk result (λ s. facts_of s ≡ first_facts place log found.items) }
    {
        let ends = vec![in alloc; 0; log.size() as usize]?;
        Ok(StoreState {
            place,
            log,
            found,
            bodies: Pool::new(alloc),
            marks: Pool::new(alloc),
            before: Pool::new(alloc),
            is_open: false,
            tx: 1,
            last: 0,
            commits: 0,
            durable: 0,
            ends,
            noted: None,
        })
    }

    /// Where the log lies.
    pub fn place(&self) -> &LogPlace
        ensures { result.now ≡ self.now.place }
    {
        &self.place
    }

    /// The log.
    pub fn log(&self) -> &LogArea
        ensures { result.now ≡ self.now.log }
    {
        &self.log
    }

    /// The blocks by which the log is found.
    pub fn found(&self) -> &[Block]
        ensures { result.now ≡ self.now.found }
    {
        &self.found
    }

    /// What is marked of the blocks that have a mark.
    pub fn marks(&self) -> &Pool<Mark>
        ensures { result.now ≡ self.now.marks }
    {
        &self.marks
    }

    /// Whether a transaction is open.
    pub fn is_open(&self) -> bool
        ensures { result ≡ self.now.is_open }
    {
        self.is_open
    }

    /// The number of the open transaction, or of the next one.
    pub fn tx(&self) -> u64
        ensures { result ≡ self.now.tx }
    {
        self.tx
    }

    /// How many commits there were.
    pub fn commits(&self) -> u64
        ensures { result ≡ self.now.commits }
    {
        self.commits
    }

    /// How many of them are known durable.
    pub fn durable(&self) -> u64
        ensures { result ≡ self.now.durable }
    {
        self.durable
    }

    /// The page that a checkpoint noted which has begun.
    pub fn noted(&self) -> Option<u64>
        ensures { result ≡ self.now.noted }
    {
        self.noted
    }

    /// What is marked of a block, in time logarithmic in the number of marks.
    pub fn mark(&self, block: Block) -> Mark
        ensures { result ≡ (facts_of self.now).mark block }
    {
        mark_of(&self.marks, block)
    }

    /// The body of a block that is dirty or dead, in time logarithmic in the number of bodies.
    pub fn body(&self, block: Block) -> Option<&KeptBody>
        ensures { option_map body_of_kept (option_copied result) ≡ (facts_of self.now).body block }
    {
        self.bodies.get(block)
    }

    /// Whether the open transaction changed a block, in time logarithmic in the number of those.
    pub fn is_changed(&self, block: Block) -> bool
        ensures { result ≡ is_some ((facts_of self.now).before block) }
    {
        self.before.get(block).is_some()
    }

    /// Whether a block is to be written out, and may be: it is dirty, no open transaction and no
    /// commit that isn't durable changed it, and its updates stand in durable pages.
    pub fn is_ready(&self, block: Block) -> bool
        ensures { result ≡ is_ready (facts_of self.now) block }
    {
        let mark = self.mark(block);
        mark.dirty
            && !self.is_changed(block)
            && mark.commit <= self.durable
            && mark.until <= self.log.durable_pages()
    }
}
