//! Blocks are written out.
ghost use Rattle.std.specs.Prelude.{◌≡◌, ◌≤◌, true, Some, is_some};
ghost use Rattle.device_blocks.specs.disk_model.declared.block.Body.{Body};
ghost use Rattle.device_blocks.specs.disk_model.Sectors.{are_rivals};
ghost use Rattle.host_base.specs.Causes.{FailsByCause};
ghost use Rattle.txn_laws.specs.block_pool.Pools.{held};
ghost use Rattle.txn_laws.specs.txn_model.Calls.{is_ready};
ghost use Rattle.txn_state.specs.States.{facts_of};
ghost use Rattle.txn_laws.specs.Windows.{MovesTo};
ghost use Rattle.device_blocks.specs.Words.{IsFitWord};
ghost use Rattle.txn_core.specs.Calls.{is_spelled, out_facts, out_words, failed_out_facts, WritesOut, IsOut};
ghost use Rattle.txn_core.specs.Seen.{word_of, TakesStep};

use crate::store::Store;
use device_blocks::{Block, CheckWord, has_spelling, write_again, write_body};
use host_base::Failed;
use txn_laws::{Device, Pool};
use txn_state::StoreState;

// Whether the body that is kept of a block has a spelling.
fn is_spelled(state: &StoreState, block: Block) -> bool
    ensures { result ≡ is_spelled (facts_of state.now) block }
{
    state.known();
    match state.body(block) {
        Some(kept) => has_spelling(block.kind, kept.bytes.as_slice()),
        None => false,
    }
}

// What is known of the check word of a block.
pub(crate) fn word_of(words: &Pool<CheckWord>, block: Block) -> CheckWord
    ensures { result ≡ word_of words.now block }
{
    match words.get(block) {
        Some(word) => *word,
        None => CheckWord::Unread,
    }
}

// Sends the body of a block that is ready, or the block as it stands.
fn send_out<D: Device>(
    device: &mut D,
    state: &StoreState,
    block: Block,
    word: &mut CheckWord,
    spelled: bool,
) -> Result<(), Failed>
    requires ready { is_ready (facts_of state.now) block ≡ true }
    requires told { spelled ≡ is_spelled (facts_of state.now) block }
    requires place { (facts_of state.now).place.device ≤ D.sector_count device.old }
    ensures sent { (x : Body) → (facts_of state.now).body block ≡ Some x → WritesOut D.gives D.changes_of D.moment_of spelled word.old word.new block x.bytes result device.old device.new }
    ensures fit { IsFitWord word.old → IsFitWord word.new }
    ensures sectors { D.sector_count device.new ≡ D.sector_count device.old }
    ensures cause { FailsByCause (D.fault_count device.old) (D.fault_count device.new) (D.moment_of device.new) result }
{
    state.known();
    match state.body(block) {
        Some(kept) if spelled => write_body(device, block, word, kept.bytes.as_slice()),
        _ => write_again(device, block),
    }
}

// What a write-out that failed makes of the state.
fn fail_out(state: &mut StoreState, block: Block, word: CheckWord)
    requires { is_ready (facts_of state.old) block ≡ true }
    ensures { facts_of state.new ≡ failed_out_facts word block (facts_of state.old) }
{
    match word {
        CheckWord::Sent(_) => state.sent_out(block),
        CheckWord::Unread => {}
        CheckWord::Missing => {}
        CheckWord::Stands(_) => {}
    }
}

// What a write-out makes of the state.
fn settle_out(state: &mut StoreState, block: Block, word: CheckWord, spelled: bool, ok: bool)
    requires { is_ready (facts_of state.old) block ≡ true }
    ensures { facts_of state.new ≡ out_facts spelled ok word block (facts_of state.old) }
{
    if spelled {
        if ok {
            state.written_out(block);
        } else {
            fail_out(state, block, word);
        }
    } else if ok {
        state.again(block);
    }
}

// What a write-out makes of the words.
fn settle_word(words: &mut Pool<CheckWord>, block: Block, word: CheckWord, ok: bool)
    requires { is_some (held words.old block) ≡ true }
    ensures { words.new ≡ out_words ok word block words.old }
{
    if ok {
        words.take(block);
    } else {
        words.replace(block, word);
    }
}

impl<D: Device> Store<D> {
    /// Writes a block out that is ready: dirty, changed by no open transaction and by no commit
    /// that isn't durable, with all its updates in durable pages of the log. Its body is written under
    /// the next check word of what stands there, which is read where it isn't known; a body without
    /// a spelling, which a give-up brought back, is written as it stands there. The block is clean
    /// then, and dead bodies of its rivals leave.
    ///
    /// The error is a failure of the device: then the block is still dirty, and any of its sectors
    /// may stand. A call after one that failed behind the read writes the same bytes, unless the
    /// block was changed since. At most two calls of the device.
    pub fn write_out(&mut self, block: Block) -> Result<(), Failed>
        requires ready { is_ready (facts_of self.old.state) block ≡ true }
        ensures out { IsOut D.gives D.changes_of D.moment_of (facts_of self.old.state) (facts_of self.new.state) block self.old.words self.new.words result self.old.device self.new.device }
        ensures sectors { D.sector_count self.new.device ≡ D.sector_count self.old.device }
        ensures cause { FailsByCause (D.fault_count self.old.device) (D.fault_count self.new.device) (D.moment_of self.new.device) result }
        ensures step { TakesStep D.sector_count D.moment_of D.changes_of (MovesTo (are_rivals block)) self.old self.new }
    {
        self.state.known();
        let spelled = is_spelled(&self.state, block);
        let anew = self.state.owes_rival(block);
        let mut word = word_of(&self.words, block);
        let result = send_out(&mut self.device, &self.state, block, &mut word, spelled);
        let ok = result.is_ok();
        settle_out(&mut self.state, block, word, spelled, ok);
        settle_word(&mut self.words, block, word, ok);
        self.told.after_write(&self.state, block, anew);
        result
    }
}
