ghost use Rattle.std.specs.Prelude.{◌≡◌, ◌≤◌, [], ◌∷◌, ◌++◌, IfOk, OnOk, length, take, drop, filter, insert};
ghost use Rattle.state_model.specs.Streams.{form_first, first_vcn, is_attribute_of, with_attribute, sorted_into, attributes_of};
ghost use Rattle.stream_map.specs.Attributes.{behind, BeginUpTo};

use record_model::{Attr, OwnForm};
use std::alloc::{AllocError, Global};

fn form_first(form: &OwnForm) -> u64
    ensures { result ≡ form_first form.now }
{
    match form {
        OwnForm::Resident { .. } => 0,
        OwnForm::Mapped { sizes, .. } => sizes.first,
    }
}

/// The first VCN of an attribute; 0 of one that is resident.
pub fn first_vcn(attr: &Attr) -> u64
    ensures { result ≡ first_vcn attr.now }
{
    form_first(&attr.form)
}

/// Whether the attribute is one of the stream with this type and name.
#[tactic(auto, unfolding(state_model::specs::Streams::is_attribute_of))]
pub fn is_attribute_of(kind: u32, name: &[u16], attr: &Attr) -> bool
    ensures { result ≡ is_attribute_of kind name.now attr.now }
{
    attr.head.kind == kind && attr.name.as_slice() == name
}

/// Before which of the attributes a new one stands.
fn place_of(attributes: &[&Attr], attr: &Attr) -> usize
    ensures inside { result ≤ length attributes.now }
    ensures place { with_attribute attr.now (behind attributes.now)
        ≡ insert (behind attributes.now) result attr.now }
{
    for (i, attribute) in attributes.iter().enumerate() {
        if first_vcn(attr) < first_vcn(attribute) {
            return i;
        }
    }
    attributes.len()
}

/// Puts an attribute behind those that begin at or before its first VCN. No attribute begins past
/// `most`; the answer is that number afterwards. One that begins there or behind takes no search.
fn put_in<'a>(attributes: &mut Vec<&'a Attr>, most: u64, attr: &'a Attr) -> Result<u64, AllocError>
    requires { BeginUpTo most (behind attributes.old.items) }
    ensures attributes { OnOk result
        (behind attributes.new.items ≡ with_attribute attr.now (behind attributes.old.items)) }
    ensures most { IfOk result (λ m. BeginUpTo m (behind attributes.new.items)) }
{
    let first = first_vcn(attr);
    if most <= first {
        attributes.push(attr)?;
        return Ok(first);
    }
    let at = place_of(attributes, attr);
    attributes.insert(at, attr)?;
    Ok(most)
}

/// The attributes of a stream by rising first VCN; those with one first VCN stay in their order.
#[tactic(auto, unfolding(state_model::specs::Streams::attributes_of))]
pub fn attributes_of<'a>(
    alloc: Global,
    kind: u32,
    name: &[u16],
    attrs: &'a [Attr],
) -> Result<Vec<&'a Attr>, AllocError>
    ensures { IfOk result (λ attributes. behind attributes.items ≡ attributes_of kind name.now attrs.now) }
{
    let mut attributes = Vec::new(alloc);
    let mut most = 0;
    for attr in attrs {
        if is_attribute_of(kind, name, attr) {
            most = put_in(&mut attributes, most, attr)?;
        }
    }
    Ok(attributes)
}
