//! Changes of blocks in a transaction.
ghost use Rattle.std.specs.Prelude.{◌≡◌, ◌⊎◌, ◌≤◌, ◌+◌, ◌*◌, true, false, length, None, Some, OnOk, OnErr, IfOk, IfErr, IfSome, is_some};
ghost use Rattle.device_blocks.specs.disk_model.Bytes.{written};
ghost use Rattle.device_blocks.specs.fixup_record.Spellings.{has_spelling};
ghost use Rattle.device_blocks.specs.disk_model.Content.{content_of};
ghost use Rattle.device_blocks.specs.disk_model.Sectors.{sector_of, sectors};
ghost use Rattle.txn_laws.specs.block_pool.Pools.{with_block};
ghost use Rattle.device_blocks.specs.device_view.Devices.{GoesOnwards, CountsOnDevice};
ghost use Rattle.device_blocks.specs.Words.{IsToldOf, changed_word, IsFitWord};
ghost use Rattle.txn_state.specs.store_pools.Pools.{body_of_kept};
ghost use Rattle.txn_laws.specs.txn_model.Calls.{changed_facts, given_up_facts};
ghost use Rattle.txn_state.specs.States.{facts_of, HasSize, MayChange};
ghost use Rattle.txn_core.specs.declared.fault.ChangeFault.TheVariants.{Unspelled};
ghost use Rattle.txn_core.specs.Changes.{view_cause, change_cause, change_fault, IsPut, IsPresent, WordIsPut, MayChangeNow, HasChanged, AfterChanging, IsDone};
ghost use Rattle.txn_core.specs.Seen.{word_of, TakesStep};

use crate::fault::ChangeFault;
use crate::store::Store;
use crate::writing::word_of;
use device_blocks::{Block, Body, CheckWord, has_spelling, put_bytes, read_block};
use host_base::{Bytes, Failed};
use std::alloc::{AllocError, Global};
use txn_laws::{Device, Pool, ViewFault};
use txn_state::{KeptBody, StoreState};

// A body, and what is known of the check word of its block.
#[derive(Drop)]
struct Present {
    body: KeptBody,
    word: CheckWord,
}

// A copy of a body. The error is want of memory.
fn copy_of(alloc: Global, bytes: &[u8], torn: bool) -> Result<KeptBody, AllocError>
    ensures { IfOk result (λ x. body_of_kept x ≡ record { bytes = bytes.now; torn = torn }) }
{
    Ok(KeptBody {
        bytes: Bytes::copy_of(alloc, bytes)?,
        torn,
    })
}

// Reads the body of a block, and what stands there of its check word.
fn read_present<D: Device>(
    device: &mut D,
    alloc: Global,
    block: Block,
) -> Result<Present, ViewFault>
    requires { block.first + sectors block.kind ≤ D.sector_count device.old }
    ensures body { IfOk result (λ p. IfSome (D.gives device.old) (λ disk. content_of (sector_of disk) block ≡ body_of_kept p.body)) }
    ensures size { IfOk result (λ p. HasSize block (body_of_kept p.body)) }
    ensures word { IfOk result (λ p. IfSome (D.gives device.old) (IsToldOf p.word block)) }
    ensures fit { IfOk result (λ p. IsFitWord p.word) }
    ensures gives { D.gives device.new ≡ D.gives device.old }
    ensures changes { D.changes_of device.new ≡ D.changes_of device.old }
    ensures sectors { D.sector_count device.new ≡ D.sector_count device.old }
    ensures onwards { GoesOnwards D.fault_count D.moment_of device.old device.new }
    ensures cause { CountsOnDevice view_cause (D.fault_count device.old) (D.fault_count device.new) (D.moment_of device.new) result }
{
    let mut out = Body::empty(alloc)?;
    let word = match read_block(device, block, &mut out) {
        Ok(word) => word,
        Err(Failed) => return Err(ViewFault::Fault),
    };
    let body = copy_of(alloc, out.bytes(), out.torn())?;
    Ok(Present { body, word })
}

// The body that is kept of a block, and its word once it is changed.
fn kept_present(
    state: &StoreState,
    words: &Pool<CheckWord>,
    alloc: Global,
    block: Block,
) -> Result<Option<Present>, AllocError>
    ensures kept { IfOk result (λ o. is_some o ≡ is_some ((facts_of state.now).body block)) }
    ensures body { IfOk result (λ o. IfSome o (λ p. (facts_of state.now).body block ≡ Some (body_of_kept p.body))) }
    ensures size { IfOk result (λ o. IfSome o (λ p. HasSize block (body_of_kept p.body))) }
    ensures word { IfOk result (λ o. IfSome o (λ p. p.word ≡ changed_word (word_of words.now block))) }
    ensures fit { IfOk result (λ o. IfSome o (λ p. IsFitWord p.word)) }
{
    state.known();
    match state.body(block) {
        Some(kept) => {
            let body = copy_of(alloc, kept.bytes.as_slice(), kept.torn)?;
            let word = word_of(words, block).changed();
            Ok(Some(Present { body, word }))
        }
        None => Ok(None),
    }
}

// The present body of a block: the one that is kept, or what the device gives.
fn find_present<D: Device>(
    device: &mut D,
    state: &StoreState,
    words: &Pool<CheckWord>,
    alloc: Global,
    block: Block,
) -> Result<Present, ViewFault>
    requires { block.first + sectors block.kind ≤ D.sector_count device.old }
    ensures body { IfOk result (λ p. IsPresent (D.gives device.old) (facts_of state.now) block (body_of_kept p.body)) }
    ensures size { IfOk result (λ p. HasSize block (body_of_kept p.body)) }
    ensures changed { IfOk result (λ p. is_some ((facts_of state.now).body block) ≡ true → p.word ≡ changed_word (word_of words.now block)) }
    ensures read { IfOk result (λ p. is_some ((facts_of state.now).body block) ≡ false → IfSome (D.gives device.old) (IsToldOf p.word block)) }
    ensures fit { IfOk result (λ p. IsFitWord p.word) }
    ensures gives { D.gives device.new ≡ D.gives device.old }
    ensures changes { D.changes_of device.new ≡ D.changes_of device.old }
    ensures sectors { D.sector_count device.new ≡ D.sector_count device.old }
    ensures onwards { GoesOnwards D.fault_count D.moment_of device.old device.new }
    ensures cause { CountsOnDevice view_cause (D.fault_count device.old) (D.fault_count device.new) (D.moment_of device.new) result }
{
    match kept_present(state, words, alloc, block)? {
        Some(present) => Ok(present),
        None => read_present(device, alloc, block),
    }
}

// Whether the body with these bytes over its own from `at` on has a spelling. The error is want of
// memory.
fn is_spelled_with(
    alloc: Global,
    block: Block,
    at: usize,
    new: &[u8],
    body: &KeptBody,
) -> Result<bool, AllocError>
    requires size { HasSize block (body_of_kept body.now) }
    requires fits { at + length new.now ≤ 512 * sectors block.kind }
    ensures { IfOk result (λ v. v ≡ has_spelling block.kind (written at new.now (body_of_kept body.now).bytes)) }
{
    let mut bytes = Vec::from_slice(alloc, body.bytes.as_slice())?;
    put_bytes(&mut bytes, at, new);
    Ok(has_spelling(block.kind, &bytes))
}

// The change of the present body in memory, and its word is kept; or the transaction is given up.
fn put_present(
    state: &mut StoreState,
    words: &mut Pool<CheckWord>,
    alloc: Global,
    block: Block,
    at: usize,
    new: &[u8],
    present: Present,
) -> Result<(), AllocError>
    requires may { MayChange (facts_of state.old) block at new.now (body_of_kept present.body) }
    ensures ok { OnOk result (facts_of state.new ≡ changed_facts block at new.now (body_of_kept present.body) (facts_of state.old)) }
    ensures err { OnErr result (facts_of state.new ≡ given_up_facts (facts_of state.old)) }
    ensures words { OnOk result (words.new ≡ with_block block present.word words.old) }
    ensures left { OnErr result ((words.new ≡ words.old) ⊎ (words.new ≡ with_block block present.word words.old)) }
{
    let Present { body, word } = present;
    match words.put(block, word) {
        Ok(()) => {}
        Err(fault) => {
            state.give_up();
            return Err(fault);
        }
    }
    state.change(alloc, block, at, new, body)
}

// The same where the body after it has a spelling, or no memory is left to tell.
fn change_present(
    state: &mut StoreState,
    words: &mut Pool<CheckWord>,
    alloc: Global,
    block: Block,
    at: usize,
    new: &[u8],
    present: Present,
) -> Result<(), ChangeFault>
    requires may { MayChange (facts_of state.old) block at new.now (body_of_kept present.body) }
    ensures done { IsPut present result block at new.now (facts_of state.old) (facts_of state.new) words.old words.new }
{
    match is_spelled_with(alloc, block, at, new, &present.body) {
        Ok(true) => match put_present(state, words, alloc, block, at, new, present) {
            Ok(()) => Ok(()),
            Err(AllocError) => Err(ChangeFault::Memory),
        },
        Ok(false) => {
            state.give_up();
            Err(ChangeFault::Unspelled)
        }
        Err(AllocError) => {
            state.give_up();
            Err(ChangeFault::Memory)
        }
    }
}

// What a view's fault is to a change.
fn change_fault(fault: ViewFault) -> ChangeFault
    ensures { result ≡ change_fault fault }
{
    match fault {
        ViewFault::Fault => ChangeFault::Fault,
        ViewFault::Memory => ChangeFault::Memory,
    }
}

// The same of a present body that was asked for.
fn change_asked(
    state: &mut StoreState,
    words: &mut Pool<CheckWord>,
    alloc: Global,
    block: Block,
    at: usize,
    new: &[u8],
    asked: Result<Present, ViewFault>,
) -> Result<(), ChangeFault>
    requires opened { (facts_of state.old).is_open ≡ true }
    requires may { IfOk asked (λ p. MayChange (facts_of state.old) block at new.now (body_of_kept p.body)) }
    ensures done { IsDone asked result block at new.now (facts_of state.old) (facts_of state.new) words.old words.new }
{
    match asked {
        Ok(present) => change_present(state, words, alloc, block, at, new, present),
        Err(fault) => {
            state.give_up();
            Err(change_fault(fault))
        }
    }
}

impl<D: Device> Store<D> {
    /// Changes a block in the open transaction: these bytes stand from `at` on over its present
    /// body, which is read where it isn't kept. What it logs is appended to the log, and nothing is
    /// written to the device. Dirty rivals of the block are dead. The block begins in the volume:
    /// recovery refuses a log with an entry of one behind it.
    ///
    /// [`ChangeFault::Fault`]: the device failed, only where the body was read;
    /// [`ChangeFault::Memory`]: want of memory; [`ChangeFault::Unspelled`]: the body after the change
    /// has no spelling, which comes only where what the device gives isn't known. Then the
    /// transaction is given up. At most one call of the device;
    /// logarithmic in the number of blocks that have marks or bodies, and linear in the body.
    pub fn change(
        &mut self,
        alloc: Global,
        block: Block,
        at: usize,
        new: &[u8],
    ) -> Result<(), ChangeFault>
        requires may { MayChangeNow (D.gives self.old.device) (facts_of self.old.state) block at new.now }
        ensures facts { HasChanged result (D.gives self.old.device) (facts_of self.old.state) (facts_of self.new.state) block at new.now }
        ensures unspelled { IfErr result (λ fault. fault ≡ Unspelled → D.gives self.old.device ≡ None) }
        ensures words { OnOk result (WordIsPut (D.gives self.old.device) (facts_of self.old.state) block self.old.words self.new.words) }
        ensures gives { D.gives self.new.device ≡ D.gives self.old.device }
        ensures changes { D.changes_of self.new.device ≡ D.changes_of self.old.device }
        ensures sectors { D.sector_count self.new.device ≡ D.sector_count self.old.device }
        ensures onwards { GoesOnwards D.fault_count D.moment_of self.old.device self.new.device }
        ensures cause { CountsOnDevice change_cause (D.fault_count self.old.device) (D.fault_count self.new.device) (D.moment_of self.new.device) result }
        ensures step { TakesStep D.sector_count D.moment_of D.changes_of (AfterChanging result block at new.now) self.old self.new }
    {
        self.state.known();
        let asked = find_present(&mut self.device, &self.state, &self.words, alloc, block);
        let result = change_asked(
            &mut self.state,
            &mut self.words,
            alloc,
            block,
            at,
            new,
            asked,
        );
        self.told.after_change(&self.state, result.is_ok());
        result
    }
}
