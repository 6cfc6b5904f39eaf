//! Which bodies have bytes on a disk by which they are written.
ghost use Rattle.std.specs.Prelude.{◌≡◌, ◌+◌, ◌*◌, ◌≤◌, length};
ghost use Rattle.disk_model.specs.Fixups.{array_at, sector_count};
ghost use Rattle.disk_model.specs.Sectors.{sectors};
ghost use Rattle.fixup_record.specs.Spellings.{is_sequenced, is_ready, has_zeros, has_spelling};

use crate::has_shape;
use disk_model::{BlockKind, u16_at};

// Whether a block of this kind with this body has an update sequence.
fn is_sequenced(kind: BlockKind, body: &[u8]) -> bool
    ensures { result ≡ is_sequenced kind body.now }
{
    match kind {
        BlockKind::Plain => false,
        BlockKind::FileRec => body.starts_with(b"FILE"),
        BlockKind::Index => body.starts_with(b"INDX"),
    }
}

#[tactic(auto, unfolding(crate::specs::Spellings::has_zeros))]
fn has_zeros(body: &[u8], at: usize, len: usize) -> bool
    requires place { at ≡ array_at body.now }
    requires size { len ≡ 2 * (sector_count body.now + 1) }
    requires inside { at + len ≤ length body.now }
    ensures { result ≡ has_zeros body.now }
{
    body[at..at + len].iter().all(|byte| *byte == 0)
}

// Whether the array is in shape, lies behind the words at 4 and 6, and is zeros.
fn is_ready(body: &[u8]) -> bool
    requires { 512 ≤ length body.now }
    ensures { result ≡ is_ready body.now }
{
    let at = u16_at(body, 4) as usize;
    has_shape(body) && 8 <= at && has_zeros(body, at, 2 * (body.len() / 512 + 1))
}

/// Whether there are bytes of a disk by which a body of such a block is written: it isn't signed
/// (begins neither `FILE` nor `INDX`, or is the body of a plain block), or the array of its update
/// sequence is in shape, lies behind the words at 4 and 6, and is zeros. [`crate::protect`] makes
/// the bytes of a signed one; those of another are the body itself. Linear in the array.
#[tactic(auto, unfolding(crate::specs::Spellings::has_spelling))]
pub fn has_spelling(kind: BlockKind, body: &[u8]) -> bool
    requires { length body.now ≡ 512 * sectors kind }
    ensures value { result ≡ has_spelling kind body.now }
{
    !is_sequenced(kind, body) || is_ready(body)
}
