//! The raw bytes of a block: the body that they stand for, and their check word.
ghost use Rattle.std.specs.Prelude.{◌≡◌, ◌*◌, ◌≤◌, true, length};
ghost use Rattle.disk_model.specs.Content.{body_of};
ghost use Rattle.disk_model.specs.Sectors.{sectors};
ghost use Rattle.fixup_record.specs.Spellings.{is_sequenced};
ghost use Rattle.device_blocks.specs.Words.{stood_check, read_word};

use crate::word::CheckWord;
use disk_model::{BlockKind, Body};
use fixup_record::{to_body, unprotect};

/// Whether a block of this kind with these bytes has an update sequence.
pub fn is_sequenced(kind: BlockKind, bytes: &[u8]) -> bool
    ensures value { result ≡ is_sequenced kind bytes.now }
{
    match kind {
        BlockKind::Plain => false,
        BlockKind::FileRec => bytes.starts_with(b"FILE"),
        BlockKind::Index => bytes.starts_with(b"INDX"),
    }
}

// Makes it the body of raw bytes that have an update sequence.
#[tactic(auto, unfolding(disk_model::specs::Content::body_of, crate::specs::Words::stood_check))]
fn undo_sequenced(kind: BlockKind, raw: &mut [u8], out: &mut Body) -> CheckWord
    requires sized { length raw.old ≡ 512 * sectors kind }
    requires sequenced { is_sequenced kind raw.old ≡ true }
    ensures body { out.new ≡ body_of kind raw.old }
    ensures word { result ≡ read_word (stood_check kind raw.old) }
{
    match to_body(raw) {
        Ok(check) => {
            out.set(raw, false);
            CheckWord::Stands(check)
        }
        Err(_) => {
            out.set(raw, true);
            CheckWord::Missing
        }
    }
}

/// Makes it the body that these raw bytes of such a block stand for, and answers the check word
/// that stands in them. The raw bytes are changed. Linear in them.
#[tactic(auto, unfolding(disk_model::specs::Content::body_of, crate::specs::Words::stood_check))]
pub fn undo(kind: BlockKind, raw: &mut [u8], out: &mut Body) -> CheckWord
    requires sized { length raw.old ≡ 512 * sectors kind }
    ensures body { out.new ≡ body_of kind raw.old }
    ensures word { result ≡ read_word (stood_check kind raw.old) }
{
    if !is_sequenced(kind, raw) {
        out.set(raw, false);
        return CheckWord::Missing;
    }
    undo_sequenced(kind, raw, out)
}

/// The check word that stands in these raw bytes of such a block, which are changed.
#[tactic(auto, unfolding(crate::specs::Words::stood_check))]
pub fn word_in(kind: BlockKind, raw: &mut [u8]) -> CheckWord
    requires sized { length raw.old ≡ 512 * sectors kind }
    ensures word { result ≡ read_word (stood_check kind raw.old) }
{
    if !is_sequenced(kind, raw) {
        return CheckWord::Missing;
    }
    match unprotect(raw) {
        Ok(check) => CheckWord::Stands(check),
        Err(_) => CheckWord::Missing,
    }
}
