ghost use Rattle.std.specs.Prelude.{◌≡◌, ◌+◌, ◌<◌, ◌≤◌, ◌^◌, ◌++◌, length, All, OnOk, OnErr};
ghost use Rattle.std.specs.List.{flat_map};
ghost use Rattle.disk_model.specs.Bytes.{written};
ghost use Rattle.record_model.specs.Attributes.{spelling, resident_spelling, mapped_spelling, held_bytes, FitsAttr};
ghost use Rattle.record_model.specs.Records.{spelled_bytes};
ghost use Rattle.file_record.specs.attr_codec.Writing.{resident_attr, mapped_attr};
ghost use Rattle.record_writer.specs.Edits.{whole_length};

use crate::lengths::{header_length, spelled_length, up8};
use crate::putting::{Front, put_filled, put_front, put_name, put_sizes};
use disk_model::{Memory, put_bytes, put_u16, put_u32};
use file_record::{write_mapped, write_resident};
use record_model::{Attr, Head, OwnForm, Sizes};

// Puts the spelling of an attribute whose value stands in the record.
fn put_resident(out: &mut [u8], at: usize, head: &Head, name: &[u16], value: &[u8], indexed: u8)
    requires name { length name.now < 256 }
    requires value { length value.now < 2 ^ 31 }
    requires room { at + whole_length 0x18 (length name.now) (length value.now) ≤ length out.old }
    ensures { out.new ≡ written at
        (resident_spelling (resident_attr head.now name.now value.now indexed) value.now indexed) out.old }
{
    let place = up8(0x18 + 2 * name.len());
    let front = Front {
        own_length: up8(place + value.len()) as u32,
        mapped: 0,
        header: 0x18,
    };
    put_front(out, at, head, name, front);
    put_u32(out, at + 0x10, value.len() as u32);
    put_u16(out, at + 0x14, place as u16);
    put_bytes(out, at + 0x16, &[indexed, 0]);
    put_name(out, at + 0x18, 0x18, name);
    put_filled(out, at + place, value);
}

// Puts the spelling of an attribute whose value stands in clusters.
fn put_mapped(out: &mut [u8], at: usize, head: &Head, name: &[u16], sizes: &Sizes, pairs: &[u8])
    requires name { length name.now < 256 }
    requires pairs { length pairs.now < 2 ^ 31 }
    requires room { at + whole_length (0x40 + length (held_bytes sizes.now.held)) (length name.now) (length pairs.now) ≤ length out.old }
    ensures { out.new ≡ written at
        (mapped_spelling (mapped_attr head.now name.now sizes.now pairs.now) sizes.now pairs.now) out.old }
{
    let header = header_length(sizes.held);
    let place = up8(header + 2 * name.len());
    let front = Front {
        own_length: up8(place + pairs.len()) as u32,
        mapped: 1,
        header: header as u16,
    };
    put_front(out, at, head, name, front);
    put_sizes(out, at + 0x10, sizes, place as u16);
    put_name(out, at + header, header, name);
    put_filled(out, at + place, pairs);
}

// Puts an attribute's spelling, and answers the place behind it.
fn put_attr(attr: &Attr, out: &mut [u8], at: usize) -> usize
    requires fits { FitsAttr attr.now }
    requires room { at + length (spelling attr.now) ≤ length out.old }
    ensures place { result ≡ at + length (spelling attr.now) }
    ensures bytes { out.new ≡ written at (spelling attr.now) out.old }
{
    let name = attr.name.as_slice();
    match &attr.form {
        OwnForm::Resident { value, indexed } => {
            put_resident(out, at, &attr.head, name, value.as_slice(), *indexed);
        }
        OwnForm::Mapped { sizes, pairs } => {
            put_mapped(out, at, &attr.head, name, sizes, pairs.as_slice());
        }
    }
    at + spelled_length(attr)
}

// Puts the attributes' spellings one behind the other, and answers the place behind them.
pub fn put_attrs(attrs: &[Attr], out: &mut [u8], at: usize) -> usize
    requires fits { All FitsAttr attrs.now }
    requires room { at + spelled_bytes attrs.now ≤ length out.old }
    ensures place { result ≡ at + spelled_bytes attrs.now }
    ensures bytes { out.new ≡ written at (flat_map spelling attrs.now) out.old }
{
    let mut place = at;
    for attr in attrs {
        place = put_attr(attr, out, place);
    }
    place
}

/// Appends the spelling of an attribute (Linux-NTFS documentation, "Attribute Header"): the name
/// behind the header, the value or the mapping pairs from the least multiple of 8 on that isn't
/// below the name's end, and zeros up to a multiple of 8. The attribute has a spelling, as
/// [`attr_has_spelling`](crate::attr_has_spelling) tells. The error is want of memory, and leaves
/// what is appended to. It takes time and memory linear in the attribute.
pub fn write_attr(attr: &Attr, out: &mut Vec<u8>) -> Result<(), Memory>
    requires fits { FitsAttr attr.now }
    ensures ok { OnOk result (out.new.items ≡ out.old.items ++ spelling attr.now) }
    ensures err { OnErr result (out.new.items ≡ out.old.items) }
{
    let name = attr.name.as_slice();
    match &attr.form {
        OwnForm::Resident { value, indexed } => {
            write_resident(&attr.head, name, value.as_slice(), *indexed, out)
        }
        OwnForm::Mapped { sizes, pairs } => {
            write_mapped(&attr.head, name, sizes, pairs.as_slice(), out)
        }
    }
}
