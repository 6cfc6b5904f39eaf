ghost use Rattle.std.specs.Prelude.{◌≡◌, ◌+◌, ◌<◌, ◌^◌, ◌++◌, length, OnOk, OnErr, IfOk};
ghost use Rattle.record_model.specs.Attributes.{spelling, resident_spelling, mapped_spelling, FitsAttr};
ghost use Rattle.attr_codec.specs.Writing.{resident_attr, mapped_attr};

use crate::pushing::{
    front, header_length, push_filled, push_name, push_sizes, push_u16, push_u32, up8,
};
use disk_model::Memory;
use record_model::{Head, Sizes};
use std::alloc::{AllocError, Global};

// The spelling of an attribute whose value stands in the record.
#[tactic(auto, using(crate::proofs::Pushed::resident_pushed))]
fn resident(
    alloc: Global,
    head: &Head,
    name: &[u16],
    value: &[u8],
    indexed: u8,
) -> Result<Vec<u8>, AllocError>
    requires name { length name.now < 256 }
    requires value { length value.now < 2 ^ 31 }
    ensures { IfOk result (λ bytes. bytes.items
        ≡ resident_spelling (resident_attr head.now name.now value.now indexed) value.now indexed) }
{
    let at = up8(0x18 + 2 * name.len());
    let length = up8(at + value.len());
    let mut bytes = front(alloc, head, name, length as u32, 0, 0x18)?;
    push_u32(&mut bytes, value.len() as u32)?;
    push_u16(&mut bytes, at as u16)?;
    bytes.push(indexed)?;
    bytes.push(0)?;
    push_name(&mut bytes, 0x18, name)?;
    push_filled(&mut bytes, value)?;
    Ok(bytes)
}

// The spelling of an attribute whose value stands in clusters.
#[tactic(auto, using(crate::proofs::Pushed::mapped_pushed))]
fn mapped(
    alloc: Global,
    head: &Head,
    name: &[u16],
    sizes: &Sizes,
    pairs: &[u8],
) -> Result<Vec<u8>, AllocError>
    requires name { length name.now < 256 }
    requires pairs { length pairs.now < 2 ^ 31 }
    ensures { IfOk result (λ bytes. bytes.items
        ≡ mapped_spelling (mapped_attr head.now name.now sizes.now pairs.now) sizes.now pairs.now) }
{
    let header = header_length(sizes.held);
    let at = up8(header + 2 * name.len());
    let length = up8(at + pairs.len());
    let mut bytes = front(alloc, head, name, length as u32, 1, header as u16)?;
    push_sizes(&mut bytes, sizes, at as u16)?;
    push_name(&mut bytes, header, name)?;
    push_filled(&mut bytes, pairs)?;
    Ok(bytes)
}

/// Appends the spelling of an attribute whose value stands in the record (Linux-NTFS documentation,
/// "Attribute Header"): the name behind the header, the value from the least multiple of 8 on that
/// isn't below the name's end, and zeros up to a multiple of 8. The name has fewer than 256 units,
/// the value fewer than 2^31 bytes. The error is want of memory, and leaves what is appended to. It
/// takes time and memory linear in the name and the value.
pub fn write_resident(
    head: &Head,
    name: &[u16],
    value: &[u8],
    indexed: u8,
    out: &mut Vec<u8>,
) -> Result<(), Memory>
    requires fits { FitsAttr (resident_attr head.now name.now value.now indexed) }
    ensures ok { OnOk result (out.new.items
        ≡ out.old.items ++ spelling (resident_attr head.now name.now value.now indexed)) }
    ensures err { OnErr result (out.new.items ≡ out.old.items) }
{
    let bytes = resident(*out.allocator(), head, name, value, indexed)?;
    out.extend_from_slice(&bytes)?;
    Ok(())
}

/// Appends the spelling of an attribute whose value stands in clusters (Linux-NTFS documentation,
/// "Attribute Header"), its mapping pairs where a value would stand. The pairs, zeros behind their
/// end among them, have a multiple of 8 bytes and fewer than 2^31; `held` is there exactly where
/// the flags say compressed or sparse and the first VCN is 0. The error is want of memory, and
/// leaves what is appended to. It takes time and memory linear in the name and the pairs.
pub fn write_mapped(
    head: &Head,
    name: &[u16],
    sizes: &Sizes,
    pairs: &[u8],
    out: &mut Vec<u8>,
) -> Result<(), Memory>
    requires fits { FitsAttr (mapped_attr head.now name.now sizes.now pairs.now) }
    ensures ok { OnOk result (out.new.items
        ≡ out.old.items ++ spelling (mapped_attr head.now name.now sizes.now pairs.now)) }
    ensures err { OnErr result (out.new.items ≡ out.old.items) }
{
    let bytes = mapped(*out.allocator(), head, name, sizes, pairs)?;
    out.extend_from_slice(&bytes)?;
    Ok(())
}
