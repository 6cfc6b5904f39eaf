ghost use Rattle.std.specs.Prelude.{◌≡◌, ◌≤◌, true, length, IsTrue};
ghost use Rattle.record_model.specs.Attributes.{is_mapped, is_compressed_or_sparse, has_held, header_length, has_length, is_name_inside, is_value_inside, is_inside, head_of, held_of, sizes_of};

use disk_model::{u8_at, u16_at, u32_at, u64_at};
use record_model::{AttributeFlags, Head, Sizes};

// The fields of an attribute's header (Linux-NTFS documentation, "Attribute Header"). `a` is the
// attribute's own bytes.

// Whether the value stands in clusters.
pub fn is_mapped(a: &[u8]) -> bool
    requires { 0x18 ≤ length a.now }
    ensures { result ≡ is_mapped a.now }
{
    u8_at(a, 0x08) != 0
}

// Whether the flags say compressed or sparse.
fn is_compressed_or_sparse(flags: u16) -> bool
    ensures { result ≡ is_compressed_or_sparse flags }
{
    AttributeFlags::has_compressed(flags) || AttributeFlags::has_sparse(flags)
}

// Whether a mapped attribute has the field with the size of the clusters really held.
fn has_held(a: &[u8]) -> bool
    requires { 0x18 ≤ length a.now }
    ensures { result ≡ has_held a.now }
{
    is_compressed_or_sparse(u16_at(a, 0x0c)) && u64_at(a, 0x10) == 0
}

// The bytes of the header.
#[tactic(auto, unfolding(record_model::specs::Attributes::header_length))]
fn header_length(a: &[u8]) -> usize
    requires { 0x18 ≤ length a.now }
    ensures { result ≡ header_length a.now }
{
    if is_mapped(a) {
        if has_held(a) { 0x48 } else { 0x40 }
    } else {
        0x18
    }
}

// Whether the length of an attribute at the front of these bytes is lawful.
#[tactic(auto, using(crate::proofs::Headers::too_short, crate::proofs::Headers::length_header), unfolding(record_model::specs::Attributes::has_length))]
pub fn has_length(bytes: &[u8]) -> bool
    ensures value { result ≡ has_length bytes.now }
    ensures header { IsTrue result → header_length bytes.now ≤ length bytes.now }
{
    if bytes.len() < 0x18 {
        return false;
    }
    let length = u32_at(bytes, 0x04) as usize;
    header_length(bytes) <= length && length % 8 == 0 && length <= bytes.len()
}

// Whether the name, if there is one, lies inside the attribute.
#[tactic(auto, unfolding(record_model::specs::Attributes::is_name_inside))]
fn is_name_inside(a: &[u8]) -> bool
    requires { 0x18 ≤ length a.now }
    ensures { result ≡ is_name_inside a.now }
{
    let count = u8_at(a, 0x09) as usize;
    count == 0 || u16_at(a, 0x0a) as usize + 2 * count <= a.len()
}

// Whether the value, or the mapping pairs, lie inside the attribute.
#[tactic(auto, using(crate::proofs::Headers::headers), unfolding(record_model::specs::Attributes::is_value_inside))]
fn is_value_inside(a: &[u8]) -> bool
    requires { header_length a.now ≤ length a.now }
    ensures { result ≡ is_value_inside a.now }
{
    if is_mapped(a) {
        u16_at(a, 0x20) as usize <= a.len()
    } else {
        u16_at(a, 0x14) as usize + u32_at(a, 0x10) as usize <= a.len()
    }
}

/// Whether the name and the value lie inside the attribute.
#[tactic(auto, using(crate::proofs::Headers::headers))]
pub fn is_inside(a: &[u8]) -> bool
    requires { header_length a.now ≤ length a.now }
    ensures { result ≡ is_inside a.now }
{
    is_name_inside(a) && is_value_inside(a)
}

// The fields that every header has.
#[tactic(auto, unfolding(record_model::specs::Attributes::head_of))]
pub fn head(a: &[u8]) -> Head
    requires { 0x18 ≤ length a.now }
    ensures { result ≡ head_of a.now }
{
    Head {
        kind: u32_at(a, 0x00),
        flags: u16_at(a, 0x0c),
        id: u16_at(a, 0x0e),
    }
}

// The size of the clusters really held, where the header has it.
#[tactic(auto, using(crate::proofs::Headers::headers), unfolding(record_model::specs::Attributes::held_of))]
fn held(a: &[u8]) -> Option<u64>
    requires mapped { is_mapped a.now ≡ true }
    requires header { header_length a.now ≤ length a.now }
    ensures { result ≡ held_of a.now }
{
    if has_held(a) {
        Some(u64_at(a, 0x40))
    } else {
        None
    }
}

// The numbers of a mapped attribute.
#[tactic(auto, using(crate::proofs::Headers::headers), unfolding(record_model::specs::Attributes::sizes_of))]
pub fn sizes(a: &[u8]) -> Sizes
    requires mapped { is_mapped a.now ≡ true }
    requires header { header_length a.now ≤ length a.now }
    ensures { result ≡ sizes_of a.now }
{
    Sizes {
        first: u64_at(a, 0x10),
        last: u64_at(a, 0x18),
        unit: u16_at(a, 0x22),
        allocated: u64_at(a, 0x28),
        real: u64_at(a, 0x30),
        initialised: u64_at(a, 0x38),
        held: held(a),
    }
}
