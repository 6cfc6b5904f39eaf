ghost use Rattle.std.specs.Prelude.{◌≡◌, ◌≤◌, true, false, length, IfOk};
ghost use Rattle.disk_model.specs.host_base.Answers.{Gives};
ghost use Rattle.disk_model.specs.Numbers.{field};
ghost use Rattle.record_model.specs.Attributes.{is_mapped, header_length, is_name_inside, is_value_inside, is_inside, form_of};
ghost use Rattle.attr_codec.specs.Reading.{own_bytes, attr_at, name_bytes, form_seen, attr_seen, attr_cause};

use crate::borrowed::{AttrFault, AttrRef, Form};
use crate::header::{has_length, head, is_inside, is_mapped, sizes};
use disk_model::{u8_at, u16_at, u32_at};

// The bytes of the name; one of no units stands nowhere.
#[tactic(auto, using(crate::proofs::Headers::places))]
fn name(a: &[u8]) -> &[u8]
    requires header { 0x18 ≤ length a.now }
    requires inside { is_name_inside a.now ≡ true }
    ensures { result.now ≡ name_bytes a.now }
{
    let count = u8_at(a, 0x09) as usize;
    if count == 0 {
        return a.split_at(0).0;
    }
    a.split_at(u16_at(a, 0x0a) as usize).1.split_at(2 * count).0
}

// The numbers and the mapping pairs.
#[tactic(auto, using(crate::proofs::Headers::headers, crate::proofs::Headers::places), unfolding(record_model::specs::Attributes::form_of))]
fn mapped_form(a: &[u8]) -> Form<'_>
    requires mapped { is_mapped a.now ≡ true }
    requires header { header_length a.now ≤ length a.now }
    requires inside { is_value_inside a.now ≡ true }
    ensures { form_seen result ≡ form_of a.now }
{
    Form::Mapped {
        sizes: sizes(a),
        pairs: a.split_at(u16_at(a, 0x20) as usize).1,
    }
}

// The value that stands in the record.
#[tactic(auto, using(crate::proofs::Headers::places), unfolding(record_model::specs::Attributes::form_of))]
fn resident_form(a: &[u8]) -> Form<'_>
    requires resident { is_mapped a.now ≡ false }
    requires header { 0x18 ≤ length a.now }
    requires inside { is_value_inside a.now ≡ true }
    ensures { form_seen result ≡ form_of a.now }
{
    let later = a.split_at(u16_at(a, 0x14) as usize).1;
    Form::Resident {
        value: later.split_at(u32_at(a, 0x10) as usize).0,
        indexed: u8_at(a, 0x16),
    }
}

// Where the value stands.
#[tactic(auto, using(crate::proofs::Headers::headers))]
fn form(a: &[u8]) -> Form<'_>
    requires header { header_length a.now ≤ length a.now }
    requires inside { is_value_inside a.now ≡ true }
    ensures { form_seen result ≡ form_of a.now }
{
    if is_mapped(a) {
        mapped_form(a)
    } else {
        resident_form(a)
    }
}

/// Reads the attribute that stands at the front of these bytes, whatever stands behind it
/// (Linux-NTFS documentation, "Attribute Header"). `Rule` has the least rule that is broken: 3
/// where the attribute's length is below its header, no multiple of 8 or above the bytes, 6 where
/// its name, value or mapping pairs lie outside it. It takes no memory, and the same time for all
/// bytes.
#[tactic(auto, using(crate::proofs::Headers::headers, crate::proofs::Whole::answers))]
pub fn read(bytes: &[u8]) -> Result<AttrRef<'_>, AttrFault>
    ensures value { Gives attr_seen attr_cause result (attr_at bytes.now) }
    ensures length { IfOk result (λ attr. attr.length ≡ field 0x04 4 bytes.now) }
    ensures name { IfOk result (λ attr. attr.name.now ≡ name_bytes (own_bytes bytes.now)) }
{
    if !has_length(bytes) {
        return Err(AttrFault::Rule { rule: 3 });
    }
    let length = u32_at(bytes, 0x04);
    let own = bytes.split_at(length as usize).0;
    if !is_inside(own) {
        return Err(AttrFault::Rule { rule: 6 });
    }
    Ok(AttrRef {
        head: head(own),
        length,
        name: name(own),
        form: form(own),
    })
}
