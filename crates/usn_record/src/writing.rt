ghost use Rattle.std.specs.Prelude.{◌≡◌, ◌<◌, ◌^◌, ◌++◌, OnOk, OnErr, IfOk};
ghost use Rattle.disk_model.specs.Numbers.{spell};
ghost use Rattle.disk_model.specs.Bytes.{zeros};
ghost use Rattle.journal_model.specs.record_model.Attributes.{unit_bytes};
ghost use Rattle.journal_model.specs.UsnRecords.{head_spelling, usn_spelling};

use crate::front::{HEAD, KNOWN_VERSION, up8};
use disk_model::{put_u16, put_u32, put_u64};
use file_tree::Usn;
use host_base::Memory;
use std::alloc::{AllocError, Global};

// The fields before the name. The minor version is 0.
#[tactic(auto, unfolding(journal_model::specs::UsnRecords::head_spelling, disk_model::specs::Numbers::spell))]
fn head(entry: &Usn) -> [u8; HEAD]
    requires child { entry.now.child.number < 2 ^ 48 }
    requires parent { entry.now.parent.number < 2 ^ 48 }
    ensures { result ≡ head_spelling entry.now }
{
    let name_bytes = 2 * entry.name.units().len();
    let mut bytes = [0; HEAD];
    put_u32(&mut bytes, 0x00, up8(HEAD + name_bytes) as u32);
    put_u16(&mut bytes, 0x04, KNOWN_VERSION);
    put_u64(&mut bytes, 0x08, entry.child.pack());
    put_u64(&mut bytes, 0x10, entry.parent.pack());
    put_u64(&mut bytes, 0x18, entry.usn);
    put_u64(&mut bytes, 0x20, entry.time.cast_unsigned());
    put_u32(&mut bytes, 0x28, entry.reason);
    put_u32(&mut bytes, 0x2c, entry.source);
    put_u32(&mut bytes, 0x30, entry.security);
    put_u32(&mut bytes, 0x34, entry.flags);
    put_u16(&mut bytes, 0x38, name_bytes as u16);
    put_u16(&mut bytes, 0x3a, HEAD as u16);
    bytes
}

// Appends a unit, low byte first.
#[tactic(auto, unfolding(disk_model::specs::Numbers::spell))]
fn push_unit(out: &mut Vec<u8>, unit: u16) -> Result<(), AllocError>
    ensures { OnOk result (out.new.items ≡ out.old.items ++ spell 2 unit) }
{
    let mut bytes = [0; 2];
    put_u16(&mut bytes, 0, unit);
    out.extend_from_slice(&bytes)?;
    Ok(())
}

// Appends units one behind the other.
fn push_units(out: &mut Vec<u8>, units: &[u16]) -> Result<(), AllocError>
    ensures { OnOk result (out.new.items ≡ out.old.items ++ unit_bytes units.now) }
{
    for unit in units {
        push_unit(out, *unit)?;
    }
    Ok(())
}

// Appends so many zeros.
fn push_zeros(out: &mut Vec<u8>, count: usize) -> Result<(), AllocError>
    ensures { OnOk result (out.new.items ≡ out.old.items ++ zeros count) }
{
    for _ in 0..count {
        out.push(0)?;
    }
    Ok(())
}

// The spelling of an entry.
fn spelling(alloc: Global, entry: &Usn) -> Result<Vec<u8>, AllocError>
    requires child { entry.now.child.number < 2 ^ 48 }
    requires parent { entry.now.parent.number < 2 ^ 48 }
    ensures { IfOk result (λ bytes. bytes.items ≡ usn_spelling entry.now) }
{
    let units = entry.name.units();
    let end = HEAD + 2 * units.len();
    let mut bytes = Vec::from_slice(alloc, &head(entry))?;
    push_units(&mut bytes, units)?;
    push_zeros(&mut bytes, up8(end) - end)?;
    Ok(bytes)
}

/// Appends the record of an entry (Microsoft's reference, "USN_RECORD_V2"), of version 2.0, with
/// zeros behind the name up to a multiple of 8. The numbers of its two files are below 2^48. The
/// error is want of memory, and leaves what is appended to. It takes time and memory linear in the
/// name.
pub fn write(entry: &Usn, out: &mut Vec<u8>) -> Result<(), Memory>
    requires child { entry.now.child.number < 2 ^ 48 }
    requires parent { entry.now.parent.number < 2 ^ 48 }
    ensures ok { OnOk result (out.new.items ≡ out.old.items ++ usn_spelling entry.now) }
    ensures err { OnErr result (out.new.items ≡ out.old.items) }
{
    let bytes = spelling(*out.allocator(), entry)?;
    out.extend_from_slice(&bytes)?;
    Ok(())
}
