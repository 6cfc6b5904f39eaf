ghost use Rattle.std.specs.Prelude.{◌≡◌, ◌+◌, ◌*◌, ◌<◌, ◌≤◌, ◌^◌, ◌++◌, [], length, OnOk, IfOk};
ghost use Rattle.disk_model.specs.Numbers.{spell};
ghost use Rattle.disk_model.specs.Bytes.{up8, zeros};
ghost use Rattle.record_model.specs.Attributes.{unit_bytes, filled, held_bytes, front_spelling, sizes_spelling};
ghost use Rattle.attr_codec.specs.Writing.{resident_attr};

use disk_model::{put_u16, put_u32, put_u64};
use record_model::{Head, Sizes};
use std::alloc::{AllocError, Global};

// The pieces of an attribute's spelling, each appended to those before it.

// The least multiple of 8 that isn't below n.
pub fn up8(n: usize) -> usize
    requires { n < 2 ^ 32 }
    ensures { result ≡ up8 n }
{
    8 * ((n + 7) / 8)
}

#[tactic(auto, unfolding(disk_model::specs::Numbers::spell))]
pub fn push_u16(out: &mut Vec<u8>, value: u16) -> Result<(), AllocError>
    ensures { OnOk result (out.new.items ≡ out.old.items ++ spell 2 value) }
{
    let mut bytes = [0; 2];
    put_u16(&mut bytes, 0, value);
    out.extend_from_slice(&bytes)?;
    Ok(())
}

#[tactic(auto, unfolding(disk_model::specs::Numbers::spell))]
pub fn push_u32(out: &mut Vec<u8>, value: u32) -> Result<(), AllocError>
    ensures { OnOk result (out.new.items ≡ out.old.items ++ spell 4 value) }
{
    let mut bytes = [0; 4];
    put_u32(&mut bytes, 0, value);
    out.extend_from_slice(&bytes)?;
    Ok(())
}

#[tactic(auto, unfolding(disk_model::specs::Numbers::spell))]
pub fn push_u64(out: &mut Vec<u8>, value: u64) -> Result<(), AllocError>
    ensures { OnOk result (out.new.items ≡ out.old.items ++ spell 8 value) }
{
    let mut bytes = [0; 8];
    put_u64(&mut bytes, 0, value);
    out.extend_from_slice(&bytes)?;
    Ok(())
}

// Appends so many zeros.
pub fn push_zeros(out: &mut Vec<u8>, count: usize) -> Result<(), AllocError>
    ensures { OnOk result (out.new.items ≡ out.old.items ++ zeros count) }
{
    for _ in 0..count {
        out.push(0)?;
    }
    Ok(())
}

// Appends units, low byte first.
fn push_units(out: &mut Vec<u8>, units: &[u16]) -> Result<(), AllocError>
    ensures { OnOk result (out.new.items ≡ out.old.items ++ unit_bytes units.now) }
{
    for unit in units {
        push_u16(out, *unit)?;
    }
    Ok(())
}

// Appends the name that stands behind a header of so many bytes, and the zeros behind it.
pub fn push_name(out: &mut Vec<u8>, header: usize, name: &[u16]) -> Result<(), AllocError>
    requires header { header ≤ 0x48 }
    requires short { length name.now < 256 }
    ensures { OnOk result (out.new.items ≡ out.old.items ++ filled header (unit_bytes name.now)) }
{
    push_units(out, name)?;
    let end = header + 2 * name.len();
    push_zeros(out, up8(end) - end)?;
    Ok(())
}

// Appends a value or mapping pairs, and the zeros behind them.
pub fn push_filled(out: &mut Vec<u8>, bytes: &[u8]) -> Result<(), AllocError>
    requires { length bytes.now < 2 ^ 31 }
    ensures { OnOk result (out.new.items ≡ out.old.items ++ filled 0 bytes.now) }
{
    out.extend_from_slice(bytes)?;
    push_zeros(out, up8(bytes.len()) - bytes.len())?;
    Ok(())
}

// The fields that every header has.
#[tactic(auto, unfolding(disk_model::specs::Numbers::spell, record_model::specs::Attributes::front_spelling))]
pub fn front(
    alloc: Global,
    head: &Head,
    name: &[u16],
    own_length: u32,
    mapped: u8,
    header: u16,
) -> Result<Vec<u8>, AllocError>
    requires { length name.now < 256 }
    ensures { IfOk result (λ bytes. bytes.items
        ≡ front_spelling (resident_attr head.now name.now [] 0) own_length mapped header) }
{
    let mut bytes = Vec::new(alloc);
    push_u32(&mut bytes, head.kind)?;
    push_u32(&mut bytes, own_length)?;
    bytes.push(mapped)?;
    bytes.push(name.len() as u8)?;
    push_u16(&mut bytes, header)?;
    push_u16(&mut bytes, head.flags)?;
    push_u16(&mut bytes, head.id)?;
    Ok(bytes)
}

// The bytes of a mapped attribute's header.
#[tactic(auto, using(crate::proofs::Pushed::held_length))]
pub fn header_length(held: Option<u64>) -> usize
    ensures value { result ≡ 0x40 + length (held_bytes held) }
    ensures most { result ≤ 0x48 }
{
    if held.is_some() { 0x48 } else { 0x40 }
}

// Appends the size of the clusters really held, where there is one.
pub fn push_held(out: &mut Vec<u8>, held: Option<u64>) -> Result<(), AllocError>
    ensures { OnOk result (out.new.items ≡ out.old.items ++ held_bytes held) }
{
    match held {
        Some(held) => push_u64(out, held),
        None => Ok(()),
    }
}

// Appends the numbers of a mapped attribute, whose pairs begin at this place.
pub fn push_sizes(out: &mut Vec<u8>, sizes: &Sizes, at: u16) -> Result<(), AllocError>
    ensures { OnOk result (out.new.items ≡ out.old.items ++ sizes_spelling sizes.now at) }
{
    push_u64(out, sizes.first)?;
    push_u64(out, sizes.last)?;
    push_u16(out, at)?;
    push_u16(out, sizes.unit)?;
    push_zeros(out, 4)?;
    push_u64(out, sizes.allocated)?;
    push_u64(out, sizes.real)?;
    push_u64(out, sizes.initialised)?;
    push_held(out, sizes.held)?;
    Ok(())
}
