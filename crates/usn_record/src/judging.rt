ghost use Rattle.std.specs.Prelude.{◌≡◌, ◌≢◌, ◌==◌, ◌&&◌, not, ◌+◌, ◌<◌, ◌≤◌, ◌^◌, length, is_ok, IfOk, IfErr};
ghost use Rattle.host_base.specs.Answers.{Gives};
ghost use Rattle.utf16_name.specs.Names.{is_bad_unit, name_of};
ghost use Rattle.disk_model.specs.Numbers.{field};
ghost use Rattle.disk_model.specs.Bytes.{all_zeros};
ghost use Rattle.journal_model.specs.UsnRecords.{usn_cause, known_version, name_units, padding, has_layout, is_usn};
ghost use Rattle.usn_record.specs.Checking.{length_in};

use crate::front::{HEAD, KNOWN_VERSION, is_length, is_whole, up8};
use disk_model::{all_zeros, u16_at, u32_at, u64_at};
use journal_model::UsnFault;

// The most units of a name.
const LONGEST: usize = 255;

/// How many bytes the name of a record has.
pub fn name_bytes(own: &[u8]) -> usize
    requires { 0x3C ≤ length own.now }
    ensures value { result ≡ field 0x38 2 own.now }
    ensures small { result < 2 ^ 16 }
{
    usize::from(u16_at(own, 0x38))
}

// Whether the fields of a record's head fit its offset, and its name's bytes its length.
#[tactic(auto, unfolding(journal_model::specs::UsnRecords::has_layout))]
fn has_fields(own: &[u8], at: u64) -> bool
    requires { 0x3C ≤ length own.now }
    ensures { result ≡ has_layout at own.now }
{
    u16_at(own, 0x06) == 0
        && u64_at(own, 0x18) == at
        && usize::from(u16_at(own, 0x3a)) == HEAD
        && name_bytes(own) % 2 == 0
        && own.len() == up8(HEAD + name_bytes(own))
}

// The same of any bytes.
#[tactic(auto, using(crate::proofs::Judged::too_short))]
fn has_layout(own: &[u8], at: u64) -> bool
    ensures { result ≡ has_layout at own.now }
{
    own.len() >= HEAD && has_fields(own, at)
}

// Whether no name holds this unit.
fn is_bad_unit(unit: u16) -> bool
    ensures { result ≡ is_bad_unit unit }
{
    unit == 0 || unit == 0x2f
}

// Whether the units of a record's name are a name.
fn has_name(own: &[u8]) -> bool
    requires { 0x3C + field 0x38 2 own.now ≤ length own.now }
    ensures { result ≡ is_ok (name_of (name_units own.now)) }
{
    let count = name_bytes(own) / 2;
    for i in 0..count {
        if is_bad_unit(u16_at(own, HEAD + 2 * i)) {
            return false;
        }
    }
    0 < count && count <= LONGEST
}

// Whether zeros alone stand behind a record's name.
#[tactic(auto, unfolding(journal_model::specs::UsnRecords::padding))]
fn has_zeros_behind(own: &[u8]) -> bool
    requires { 0x3C + field 0x38 2 own.now ≤ length own.now }
    ensures { result ≡ all_zeros (padding own.now) }
{
    all_zeros(own.split_at(HEAD + name_bytes(own)).1)
}

// Whether these bytes are a record of version 2 that stands at this offset.
#[tactic(auto, using(crate::proofs::Judged::layout_inside), unfolding(journal_model::specs::UsnRecords::is_usn))]
fn is_usn(own: &[u8], at: u64) -> bool
    ensures { result ≡ is_usn at own.now }
{
    has_layout(own, at) && has_name(own) && has_zeros_behind(own)
}

/// Whether a record is of the version that is read.
pub fn is_known(own: &[u8]) -> bool
    requires { 8 ≤ length own.now }
    ensures { result ≡ (field 0x04 2 own.now == known_version) }
{
    u16_at(own, 0x04) == KNOWN_VERSION
}

// Whether a record is of the version that is read, and is out of shape.
fn is_misshapen(own: &[u8], at: u64) -> bool
    requires { 8 ≤ length own.now }
    ensures { result ≡ ((field 0x04 2 own.now == known_version) && not (is_usn at own.now)) }
{
    is_known(own) && !is_usn(own, at)
}

/// The length of the record at the front of these bytes, which stand at this offset of the journal.
/// `Cut` comes where they don't reach the record's end, and then `Shape` where they are no record.
/// It takes no memory, and time linear in the record.
pub fn checked_length(bytes: &[u8], at: u64) -> Result<u32, UsnFault>
    ensures value { Gives (λ n. n) usn_cause result (length_in bytes.now at) }
    ensures memory { IfErr result (λ fault. fault ≢ UsnFault.Memory) }
    ensures inside { IfOk result (λ n. (8 ≤ n) × (n ≤ length bytes.now)) }
{
    if !is_whole(bytes) {
        return Err(UsnFault::Cut { at });
    }
    let length = u32_at(bytes, 0);
    if !is_length(length) {
        return Err(UsnFault::Shape { at });
    }
    let own = bytes.split_at(length as usize).0;
    if is_misshapen(own, at) {
        return Err(UsnFault::Shape { at });
    }
    Ok(length)
}
