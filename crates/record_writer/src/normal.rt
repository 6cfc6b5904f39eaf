ghost use Rattle.std.specs.Prelude.{◌≡◌, ◌-◌, IfOk};
ghost use Rattle.disk_model.specs.Bytes.{up8};
ghost use Rattle.record_model.specs.Attributes.{filled};
ghost use Rattle.record_writer.specs.Normal.{normal_form, normal};

use crate::copying::copy_form;
use disk_model::{Bytes, Memory};
use file_record::Units;
use record_model::{Attr, OwnForm};
use std::alloc::{AllocError, Global};

// Attributes in the form in which this project writes them.

// How many bytes are lacking up to a multiple of 8.
fn lacking(len: usize) -> usize
    ensures { result ≡ up8 len - len }
{
    (8 - len % 8) % 8
}

// Mapping pairs with zeros behind them up to a multiple of 8.
fn filled(alloc: Global, pairs: &[u8]) -> Result<Bytes, AllocError>
    ensures value { IfOk result (λ bytes. bytes ≡ filled 0 pairs.now) }
{
    let mut bytes = Vec::new(alloc);
    bytes.extend_from_slice(pairs)?;
    for _ in 0..lacking(pairs.len()) {
        bytes.push(0)?;
    }
    Ok(Bytes::from(bytes))
}

// A copy of the form with its pairs filled.
fn normal_form(alloc: Global, form: &OwnForm) -> Result<OwnForm, AllocError>
    ensures value { IfOk result (λ f. f ≡ normal_form form.now) }
{
    match form {
        OwnForm::Resident { .. } => copy_form(alloc, form),
        OwnForm::Mapped { sizes, pairs } => Ok(OwnForm::Mapped {
            sizes: *sizes,
            pairs: filled(alloc, pairs.as_slice())?,
        }),
    }
}

fn normal_copy(alloc: Global, attr: &Attr) -> Result<Attr, AllocError>
    ensures value { IfOk result (λ a. a ≡ normal attr.now) }
{
    Ok(Attr {
        head: attr.head,
        name: Units::copy_of(alloc, attr.name.as_slice())?,
        form: normal_form(alloc, &attr.form)?,
    })
}

/// A copy of an attribute that was read, in the form in which it is written (Linux-NTFS
/// documentation, "Attribute Header"): mapping pairs are filled with zeros to a multiple of 8, as
/// an attribute's bytes end at one wherever its pairs begin. All else stays, the id too. It stands
/// for the same, as [`normal_stands_for_same`](crate::normal_stands_for_same) says, and what was
/// read of a record has a spelling then, as [`normal_has_spelling`](crate::normal_has_spelling)
/// does. The error is want of memory. It takes time and memory linear in the attribute.
pub fn normal_attr(alloc: Global, attr: &Attr) -> Result<Attr, Memory>
    ensures value { IfOk result (λ a. a ≡ normal attr.now) }
{
    Ok(normal_copy(alloc, attr)?)
}
