//! A body that is written to its block, and a block that is written as it stands.
ghost use Rattle.std.specs.Prelude.{◌≡◌, ◌+◌, ◌*◌, ◌≤◌, true, length, OnOk, OnErr, IfOk, IfSome};
ghost use Rattle.disk_model.specs.Sectors.{sector_of, sectors, raw_from};
ghost use Rattle.fixup_record.specs.Spellings.{has_spelling, spelled};
ghost use Rattle.host_base.specs.Causes.{FailsByCause};
ghost use Rattle.log_area.specs.Areas.{IsWord};
ghost use Rattle.log_area.specs.Calls.{IsAsked, sending_moment, Sends};
ghost use Rattle.device_blocks.specs.declared.word.CheckWord.TheVariants.{Unread};
ghost use Rattle.device_blocks.specs.Calls.{IsNextOf, IsPutOrNot, IsPutAgainOrNot};
ghost use Rattle.device_blocks.specs.Words.{stood_check, next_word, known_word, written_word, IsFitWord};

use crate::undoing::{is_sequenced, word_in};
use crate::word::CheckWord;
use disk_model::{Block, BlockKind};
use fixup_record::{next_check, protect};
use host_base::Failed;
use log_area::Device;

// The word of a write over raw bytes of such a block, which are changed.
fn word_over(kind: BlockKind, raw: &mut [u8]) -> u16
    requires sized { length raw.old ≡ 512 * sectors kind }
    ensures value { result ≡ next_word (stood_check kind raw.old) }
    ensures word { IsWord result }
{
    match word_in(kind, raw) {
        CheckWord::Stands(check) => next_check(check),
        _ => 1,
    }
}

// Reads the block, and picks the word of a write over it: one call.
fn pick<D: Device>(device: &mut D, block: Block, raw: &mut [u8]) -> Result<u16, Failed>
    requires room { length raw.old ≡ 512 * sectors block.kind }
    requires inside { block.first + sectors block.kind ≤ D.sector_count device.old }
    ensures word { IfOk result IsWord }
    ensures picked { IfOk result (λ check. IfSome (D.gives device.old) (λ disk. check ≡ next_word (stood_check block.kind (raw_from (sector_of disk) block.first (sectors block.kind))))) }
    ensures size { length raw.new ≡ length raw.old }
    ensures asked { IsAsked D.gives D.changes_of D.moment_of device.old device.new }
    ensures sectors { D.sector_count device.new ≡ D.sector_count device.old }
    ensures cause { FailsByCause (D.fault_count device.old) (D.fault_count device.new) (D.moment_of device.new) result }
{
    device.read(block.first, raw)?;
    Ok(word_over(block.kind, raw))
}

// The word of a write to this block: the one that is known, or the one that is picked.
fn choose<D: Device>(
    device: &mut D,
    block: Block,
    word: CheckWord,
    raw: &mut [u8],
) -> Result<u16, Failed>
    requires room { length raw.old ≡ 512 * sectors block.kind }
    requires inside { block.first + sectors block.kind ≤ D.sector_count device.old }
    ensures chosen { IfOk result (IsNextOf word (D.gives device.old) block) }
    ensures word { IsFitWord word → IfOk result IsWord }
    ensures size { length raw.new ≡ length raw.old }
    ensures same { D.gives device.new ≡ D.gives device.old }
    ensures unchanged { D.changes_of device.new ≡ D.changes_of device.old }
    ensures moment { D.moment_of device.new ≡ sending_moment (known_word word) (D.moment_of device.old) }
    ensures first_time { OnErr result (word ≡ Unread) }
    ensures sectors { D.sector_count device.new ≡ D.sector_count device.old }
    ensures cause { FailsByCause (D.fault_count device.old) (D.fault_count device.new) (D.moment_of device.new) result }
{
    match word.next() {
        Some(check) => Ok(check),
        None => pick(device, block, raw),
    }
}

// Makes it the bytes by which a body is written under this word.
#[tactic(auto, unfolding(fixup_record::specs::Spellings::has_spelling, fixup_record::specs::Spellings::spelled))]
fn spell(kind: BlockKind, check: u16, bytes: &[u8], raw: &mut [u8])
    requires sized { length bytes.now ≡ 512 * sectors kind }
    requires room { length raw.old ≡ length bytes.now }
    requires spelled { has_spelling kind bytes.now ≡ true }
    ensures value { raw.new ≡ spelled kind check bytes.now }
    ensures size { length raw.new ≡ length raw.old }
{
    raw.copy_from_slice(bytes);
    if is_sequenced(kind, bytes) {
        protect(raw, check);
    }
}

// Writes a body to its block under this word.
fn send<D: Device>(
    device: &mut D,
    block: Block,
    check: u16,
    bytes: &[u8],
    raw: &mut [u8],
) -> Result<(), Failed>
    requires sized { length bytes.now ≡ 512 * sectors block.kind }
    requires room { length raw.old ≡ length bytes.now }
    requires spelled { has_spelling block.kind bytes.now ≡ true }
    requires inside { block.first + sectors block.kind ≤ D.sector_count device.old }
    ensures sends { Sends D.gives D.changes_of D.moment_of (D.moment_of device.old) block.first (spelled block.kind check bytes.now) result device.old device.new }
    ensures sectors { D.sector_count device.new ≡ D.sector_count device.old }
    ensures cause { FailsByCause (D.fault_count device.old) (D.fault_count device.new) (D.moment_of device.new) result }
{
    spell(block.kind, check, bytes, raw);
    device.write(block.first, raw)
}

// The word of a body that stands in its block, written under this one.
fn written_word(kind: BlockKind, bytes: &[u8], check: u16) -> CheckWord
    ensures value { result ≡ written_word kind bytes.now check }
    ensures fit { IsFitWord result }
{
    if is_sequenced(kind, bytes) {
        CheckWord::Stands(check)
    } else {
        CheckWord::Missing
    }
}

// Writes a body to its block through a buffer of its size.
fn write_through<D: Device>(
    device: &mut D,
    block: Block,
    word: &mut CheckWord,
    bytes: &[u8],
    raw: &mut [u8],
) -> Result<(), Failed>
    requires sized { length bytes.now ≡ 512 * sectors block.kind }
    requires room { length raw.old ≡ length bytes.now }
    requires spelled { has_spelling block.kind bytes.now ≡ true }
    requires inside { block.first + sectors block.kind ≤ D.sector_count device.old }
    ensures put { IsPutOrNot D.gives D.changes_of D.moment_of word.old word.new block bytes.now result device.old device.new }
    ensures fit { IsFitWord word.old → IsFitWord word.new }
    ensures sectors { D.sector_count device.new ≡ D.sector_count device.old }
    ensures cause { FailsByCause (D.fault_count device.old) (D.fault_count device.new) (D.moment_of device.new) result }
{
    let check = choose(device, block, *word, raw)?;
    *word = CheckWord::Sent(check);
    send(device, block, check, bytes, raw)?;
    *word = written_word(block.kind, bytes, check);
    Ok(())
}

/// Writes a body, which has a spelling, to its block, which lies inside the device, under the next
/// check word of what stands there (Linux-NTFS documentation, "Fixup"): a signed body is protected
/// by it, another one is written as it is. The block is read first where its word isn't known. The
/// word is then the one that stands there.
///
/// The error is a failure of the device. Behind the read any sectors of the block may stand, and
/// the word is the one that was sent: a call with the same body reads nothing, and writes the same
/// bytes. At most two calls of the device; linear in the body.
pub fn write_body<D: Device>(
    device: &mut D,
    block: Block,
    word: &mut CheckWord,
    bytes: &[u8],
) -> Result<(), Failed>
    requires sized { length bytes.now ≡ 512 * sectors block.kind }
    requires spelled { has_spelling block.kind bytes.now ≡ true }
    requires inside { block.first + sectors block.kind ≤ D.sector_count device.old }
    ensures put { IsPutOrNot D.gives D.changes_of D.moment_of word.old word.new block bytes.now result device.old device.new }
    ensures fit { IsFitWord word.old → IsFitWord word.new }
    ensures sectors { D.sector_count device.new ≡ D.sector_count device.old }
    ensures cause { FailsByCause (D.fault_count device.old) (D.fault_count device.new) (D.moment_of device.new) result }
{
    match block.kind {
        BlockKind::Plain => write_through(device, block, word, bytes, &mut [0; 512]),
        BlockKind::FileRec => write_through(device, block, word, bytes, &mut [0; 1024]),
        BlockKind::Index => write_through(device, block, word, bytes, &mut [0; 4096]),
    }
}

// Writes a block as it stands, through a buffer of its size.
fn rewrite_through<D: Device>(device: &mut D, block: Block, raw: &mut [u8]) -> Result<(), Failed>
    requires room { length raw.old ≡ 512 * sectors block.kind }
    requires inside { block.first + sectors block.kind ≤ D.sector_count device.old }
    ensures put { IsPutAgainOrNot D.gives D.changes_of D.moment_of block result device.old device.new }
    ensures sectors { D.sector_count device.new ≡ D.sector_count device.old }
    ensures cause { FailsByCause (D.fault_count device.old) (D.fault_count device.new) (D.moment_of device.new) result }
{
    device.read(block.first, raw)?;
    device.write(block.first, raw)
}

/// Writes a block, which lies inside the device, as it stands there: its sectors are read and
/// written again, as where its body has no spelling. What is known of its check word stays.
///
/// The error is a failure of the device. Two calls of the device, or one where that fails; linear
/// in the sectors.
pub fn write_again<D: Device>(device: &mut D, block: Block) -> Result<(), Failed>
    requires inside { block.first + sectors block.kind ≤ D.sector_count device.old }
    ensures put { IsPutAgainOrNot D.gives D.changes_of D.moment_of block result device.old device.new }
    ensures sectors { D.sector_count device.new ≡ D.sector_count device.old }
    ensures cause { FailsByCause (D.fault_count device.old) (D.fault_count device.new) (D.moment_of device.new) result }
{
    match block.kind {
        BlockKind::Plain => rewrite_through(device, block, &mut [0; 512]),
        BlockKind::FileRec => rewrite_through(device, block, &mut [0; 1024]),
        BlockKind::Index => rewrite_through(device, block, &mut [0; 4096]),
    }
}
