ghost use Rattle.std.specs.Prelude.{◌≡◌, ◌↔◌, ◌<◌, ◌≤◌, ◌^◌, All, IsTrue, length};
ghost use Rattle.record_model.specs.Attributes.{FitsHeld, FitsMapped, FitsForm, FitsAttr};
ghost use Rattle.record_model.specs.Values.{has_lawful_value};
ghost use Rattle.record_model.specs.Records.{used_of, TypesRise, FitsHead};
ghost use Rattle.record_writer.specs.Fitting.{FitsPlace, rise_from};

use crate::lengths::spelled_length;
use file_record::is_file_name;
use record_model::{Attr, END_MARK, FILE_NAME, OwnForm, RecHead, STANDARD_INFORMATION, Sizes};

// A file has a number below this one.
const NUMBERS: u64 = 0x1_0000_0000_0000;

// A value has fewer bytes than these.
const VALUE_LIMIT: usize = 0x8000_0000;

// What a record of 1,024 bytes has for attributes: all but its header and its end mark.
const ROOM: usize = 960;

// Which records have a spelling.

// Whether the header's fields have one.
pub fn fits_head(head: RecHead) -> bool
    ensures { IsTrue result ↔ FitsHead head }
{
    let RecHead { base, .. } = head;
    base.number < NUMBERS
}

// Whether the size of the clusters really held is there exactly where the header has its field.
fn fits_held(flags: u16, first: u64, held: Option<u64>) -> bool
    ensures { IsTrue result ↔ FitsHeld flags first held }
{
    let has_field = (flags % 2 == 1 || flags / 0x8000 % 2 == 1) && first == 0;
    match held {
        Some(_) => has_field,
        None => !has_field,
    }
}

fn fits_mapped(flags: u16, sizes: Sizes, pairs: &[u8]) -> bool
    ensures { IsTrue result ↔ FitsMapped flags sizes pairs.now }
{
    let held = fits_held(flags, sizes.first, sizes.held);
    held && pairs.len() % 8 == 0 && pairs.len() < VALUE_LIMIT
}

fn fits_form(flags: u16, form: &OwnForm) -> bool
    ensures { IsTrue result ↔ FitsForm flags form.now }
{
    match form {
        OwnForm::Resident { value, indexed } => {
            let _byte = *indexed;
            value.len() < VALUE_LIMIT
        }
        OwnForm::Mapped { sizes, pairs } => fits_mapped(flags, *sizes, pairs.as_slice()),
    }
}

// Whether a name's length stands in a byte.
fn is_short(name: &[u16]) -> bool
    ensures short { IsTrue result ↔ (length name.now < 256) }
    ensures units { All (λ unit. unit < 2 ^ 16) name.now }
{
    name.len() < 256
}

/// Whether the attribute has a spelling (Linux-NTFS documentation, "Attribute Header"): its name
/// has fewer than 256 units, its value or mapping pairs fewer than 2^31 bytes, the pairs a multiple
/// of 8, and `held` is there exactly where the flags say compressed or sparse and the first VCN is
/// 0. It takes constant time.
pub fn attr_has_spelling(attr: &Attr) -> bool
    ensures value { IsTrue result ↔ FitsAttr attr.now }
{
    let _kind = attr.head.kind;
    let flags = attr.head.flags;
    let _id = attr.head.id;
    let short = is_short(attr.name.as_slice());
    short && fits_form(flags, &attr.form)
}

// Whether standard information or a file name is resident and in shape; other attributes are free.
#[tactic(auto, unfolding(record_model::specs::Values::has_lawful_value, record_model::specs::Values::is_standard_information))]
fn has_lawful_value(attr: &Attr) -> bool
    ensures { result ≡ has_lawful_value attr.now }
{
    let kind = attr.head.kind;
    match &attr.form {
        OwnForm::Resident { value, .. } => {
            if kind == STANDARD_INFORMATION {
                value.len() >= 0x30
            } else if kind == FILE_NAME {
                is_file_name(value.as_slice())
            } else {
                true
            }
        }
        OwnForm::Mapped { .. } => kind != STANDARD_INFORMATION && kind != FILE_NAME,
    }
}

// Whether an attribute may stand in a written record.
fn fits_place(attr: &Attr) -> bool
    ensures { IsTrue result ↔ FitsPlace attr.now }
{
    attr_has_spelling(attr) && attr.head.kind < END_MARK && has_lawful_value(attr)
}

// Whether each may.
pub fn each_fits(attrs: &[Attr]) -> bool
    ensures { IsTrue result ↔ All FitsPlace attrs.now }
{
    attrs.iter().all(|attr| fits_place(attr))
}

// Whether types don't fall.
pub fn types_rise(attrs: &[Attr]) -> bool
    ensures { IsTrue result ↔ TypesRise attrs.now }
{
    rise_from_zero(attrs)
}

fn rise_from_zero(attrs: &[Attr]) -> bool
    ensures { result ≡ rise_from 0 attrs.now }
{
    let mut least = 0;
    for attr in attrs {
        if attr.head.kind < least {
            return false;
        }
        least = attr.head.kind;
    }
    true
}

// Whether 1,024 bytes have room for these attributes.
pub fn have_room(attrs: &[Attr]) -> bool
    requires { All FitsPlace attrs.now }
    ensures { IsTrue result ↔ (used_of attrs.now ≤ 1024) }
{
    let mut left = ROOM;
    for attr in attrs {
        let bytes = spelled_length(attr);
        if left < bytes {
            return false;
        }
        left -= bytes;
    }
    true
}
