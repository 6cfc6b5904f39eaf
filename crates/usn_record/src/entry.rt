ghost use Rattle.std.specs.Prelude.{◌≡◌, ◌+◌, ◌≤◌, true, Ok, length, is_ok, IfOk};
ghost use Rattle.host_base.specs.Answers.{Gives};
ghost use Rattle.utf16_name.specs.Names.{name_of};
ghost use Rattle.disk_model.specs.Numbers.{field};
ghost use Rattle.journal_model.specs.UsnRecords.{usn_cause, name_units, usn_of, usn_in, usn_at};

use crate::front::{HEAD, from_offset};
use crate::judging::{checked_length, is_known, name_bytes};
use disk_model::{u32_at, u64_at};
use file_tree::Usn;
use host_base::FileRef;
use journal_model::{UsnFault, units_at};
use std::alloc::Global;
use utf16_name::Name;

// The name of a record whose units were judged.
#[tactic(auto, using(crate::proofs::Judged::same_name), unfolding(journal_model::specs::UsnRecords::name_units))]
fn name(alloc: Global, own: &[u8]) -> Result<Name, UsnFault>
    requires inside { 0x3C + field 0x38 2 own.now ≤ length own.now }
    requires name { is_ok (name_of (name_units own.now)) ≡ true }
    ensures { Gives (λ name. name) usn_cause result (Ok (name_units own.now)) }
{
    let units = units_at(alloc, HEAD, name_bytes(own) / 2, own)?;
    match Name::checked(alloc, units.as_slice()) {
        Ok(name) => Ok(name),
        // The units are a name, so only memory can be wanting.
        Err(_) => Err(UsnFault::Memory),
    }
}

// The entry of a record of version 2 that was judged.
#[tactic(auto, unfolding(journal_model::specs::UsnRecords::usn_of))]
fn entry(alloc: Global, own: &[u8]) -> Result<Usn, UsnFault>
    requires inside { 0x3C + field 0x38 2 own.now ≤ length own.now }
    requires name { is_ok (name_of (name_units own.now)) ≡ true }
    ensures { Gives (λ entry. entry) usn_cause result (Ok (usn_of own.now)) }
{
    Ok(Usn {
        usn: u64_at(own, 0x18),
        child: FileRef::unpack(u64_at(own, 0x08)),
        parent: FileRef::unpack(u64_at(own, 0x10)),
        reason: u32_at(own, 0x28),
        flags: u32_at(own, 0x34),
        time: u64_at(own, 0x20).cast_signed(),
        source: u32_at(own, 0x2c),
        security: u32_at(own, 0x30),
        name: name(alloc, own)?,
    })
}

/// The record at the front of these bytes, which stand at this offset of the journal, and its
/// length; no entry where it is of another version. The errors are those of `checked_length`, and
/// want of memory. It takes time and memory linear in the record.
pub fn first_record(alloc: Global, bytes: &[u8], at: u64) -> Result<(Option<Usn>, u32), UsnFault>
    ensures value { Gives (λ found. found) usn_cause result (usn_in bytes.now at) }
    ensures inside { IfOk result (λ found. (8 ≤ found.1) × (found.1 ≤ length bytes.now)) }
{
    let length = checked_length(bytes, at)?;
    let own = bytes.split_at(length as usize).0;
    if !is_known(own) {
        return Ok((None, length));
    }
    Ok((Some(entry(alloc, own)?), length))
}

/// Reads the record at the offset `at` of the journal (Microsoft's reference, "USN_RECORD_V2") in
/// the bytes of its page, of which there are 4,096, or fewer where the journal ends inside it;
/// bytes that are given behind these are none of the page. The answer is the entry and the record's
/// length; no entry where the major version isn't 2.
///
/// - `Cut`: the length, or the record, runs past the page.
/// - `Shape`: the length is below 8 or no multiple of 8; or a record of version 2 has a minor
///   version other than 0, a USN other than `at`, a name elsewhere than at 0x3C, a
///   length other than its name needs, bytes other than zeros behind the name, or units that are no
///   name.
/// - `Memory`: want of memory.
///
/// It takes time and memory linear in the record.
#[tactic(auto, unfolding(journal_model::specs::UsnRecords::usn_at))]
pub fn read(alloc: Global, page: &[u8], at: u64) -> Result<(Option<Usn>, u32), UsnFault>
    ensures value { Gives (λ found. found) usn_cause result (usn_at page.now at) }
{
    first_record(alloc, from_offset(page, at), at)
}
