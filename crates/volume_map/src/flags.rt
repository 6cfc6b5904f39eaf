//! The flags of a stream.
ghost use Rattle.std.specs.Prelude.{◌≡◌, if◌then◌else◌};
ghost use Rattle.std.specs.Option.{option_copied};
ghost use Rattle.state_model.specs.Streams.{is_attribute_of, attributes_of};
ghost use Rattle.volume_model.specs.Nodes.{first_flags};
ghost use Rattle.volume_map.specs.First.{first_of, earlier, flags_or};

use file_record::FileRec;
use record_model::Attr;
use stream_map::{first_vcn, is_attribute_of};

// Of an attribute found so far and a later one, the one that begins first.
fn earlier<'a>(found: Option<&'a Attr>, attr: &'a Attr) -> Option<&'a Attr>
    ensures { option_copied result ≡ earlier (option_copied found.entry) attr.now }
{
    match found {
        Some(attribute) if first_vcn(attr) >= first_vcn(attribute) => Some(attribute),
        _ => Some(attr),
    }
}

// The first attribute so far, with one attribute more.
fn with_attr<'a>(
    kind: u32,
    name: &[u16],
    found: Option<&'a Attr>,
    attr: &'a Attr,
) -> Option<&'a Attr>
    ensures { option_copied result ≡ (if is_attribute_of kind name.now attr.now then earlier (option_copied found.entry) attr.now else option_copied found.entry) }
{
    if is_attribute_of(kind, name, attr) {
        earlier(found, attr)
    } else {
        found
    }
}

// The first attribute of the stream with this type and name.
#[tactic(auto, using(crate::proofs::Firsts::none_first, crate::proofs::Firsts::all_first))]
fn first_attribute<'a>(kind: u32, name: &[u16], attrs: &'a [Attr]) -> Option<&'a Attr>
    ensures { option_copied result ≡ first_of (attributes_of kind name.now attrs.now) }
{
    let mut found = None;
    for attr in attrs {
        found = with_attr(kind, name, found, attr);
    }
    found
}

fn flags_or(attribute: Option<&Attr>) -> u16
    ensures { result ≡ flags_or (option_copied attribute.entry) }
{
    match attribute {
        Some(attr) => attr.head.flags,
        None => 0,
    }
}

/// The flags of the stream with this type and name (in UTF-16 units) of a file, which are those of
/// its first attribute (Linux-NTFS documentation, "Attribute Header"); 0 where there is none.
/// Linear in the attributes.
#[tactic(auto, using(crate::proofs::Firsts::flags_first))]
pub fn stream_flags(kind: u32, name: &[u16], file: &FileRec) -> u16
    ensures value { result ≡ first_flags (attributes_of kind name.now file.now.attrs) }
{
    flags_or(first_attribute(kind, name, file.attrs().as_slice()))
}
