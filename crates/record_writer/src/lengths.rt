ghost use Rattle.std.specs.Prelude.{◌≡◌, ◌+◌, ◌<◌, ◌≤◌, ◌^◌, length};
ghost use Rattle.disk_model.specs.Bytes.{up8};
ghost use Rattle.record_model.specs.Attributes.{held_bytes, spelling};
ghost use Rattle.record_model.specs.Records.{spelled_bytes};
ghost use Rattle.record_writer.specs.Edits.{whole_length, form_length};

use record_model::{Attr, OwnForm};

// How many bytes spellings take.

// The least multiple of 8 that isn't below n.
pub fn up8(n: usize) -> usize
    requires { n < 2 ^ 40 }
    ensures { result ≡ up8 n }
{
    8 * ((n + 7) / 8)
}

// The bytes of a mapped attribute's header.
#[tactic(auto, using(crate::proofs::Measures::held_length))]
pub fn header_length(held: Option<u64>) -> usize
    ensures value { result ≡ 0x40 + length (held_bytes held) }
    ensures most { result ≤ 0x48 }
{
    if held.is_some() { 0x48 } else { 0x40 }
}

// The bytes of an attribute with a header, a name and a value of these lengths.
fn whole_length(header: usize, name: usize, value: usize) -> usize
    requires { whole_length header name value < 2 ^ 32 }
    ensures { result ≡ whole_length header name value }
{
    up8(up8(header + 2 * name) + value)
}

// The same by the form, and a name of so many units.
fn form_length(name: usize, form: &OwnForm) -> usize
    requires { form_length name form.now < 2 ^ 32 }
    ensures { result ≡ form_length name form.now }
{
    match form {
        OwnForm::Resident { value, .. } => whole_length(0x18, name, value.len()),
        OwnForm::Mapped { sizes, pairs } => {
            whole_length(header_length(sizes.held), name, pairs.len())
        }
    }
}

// The bytes of an attribute's spelling.
pub fn spelled_length(attr: &Attr) -> usize
    requires { length (spelling attr.now) < 2 ^ 32 }
    ensures { result ≡ length (spelling attr.now) }
{
    form_length(attr.name.len(), &attr.form)
}

// The bytes of the attributes' spellings.
pub fn spelled_bytes(attrs: &[Attr]) -> usize
    requires { spelled_bytes attrs.now < 2 ^ 32 }
    ensures { result ≡ spelled_bytes attrs.now }
{
    let mut sum = 0;
    for attr in attrs {
        sum += spelled_length(attr);
    }
    sum
}
