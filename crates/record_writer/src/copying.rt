//! Copies of attributes.
ghost use Rattle.std.specs.Prelude.{◌≡◌, ◌++◌, [], ◌∷◌, IfOk, OnOk};

use disk_model::Bytes;
use file_record::{FileRec, Units};
use record_model::{Attr, OwnForm};
use std::alloc::{AllocError, Global};

// A copy of the form, in memory linear in its bytes.
pub fn copy_form(alloc: Global, form: &OwnForm) -> Result<OwnForm, AllocError>
    ensures value { IfOk result (λ f. f ≡ form.now) }
{
    match form {
        OwnForm::Resident { value, indexed } => Ok(OwnForm::Resident {
            value: Bytes::copy_of(alloc, value.as_slice())?,
            indexed: *indexed,
        }),
        OwnForm::Mapped { sizes, pairs } => Ok(OwnForm::Mapped {
            sizes: *sizes,
            pairs: Bytes::copy_of(alloc, pairs.as_slice())?,
        }),
    }
}

// A copy of the attribute, in memory linear in its bytes.
fn copy_attr(alloc: Global, attr: &Attr) -> Result<Attr, AllocError>
    ensures value { IfOk result (λ a. a ≡ attr.now) }
{
    Ok(Attr {
        head: attr.head,
        name: Units::copy_of(alloc, attr.name.as_slice())?,
        form: copy_form(alloc, &attr.form)?,
    })
}

/// Puts a copy of the attribute at the record's end. The error is want of memory. It takes time and
/// memory linear in the attribute.
pub fn push_copy(alloc: Global, attr: &Attr, to: &mut FileRec) -> Result<(), AllocError>
    ensures value { OnOk result (to.new ≡ record { head = to.old.head; attrs = to.old.attrs ++ attr.now ∷ [] }) }
{
    let copy = copy_attr(alloc, attr)?;
    to.push(copy)?;
    Ok(())
}

/// Puts copies of the attributes at the record's end, in their order. The error is want of memory,
/// with the first of them put, or none. It takes time and memory linear in the attributes.
pub fn push_copies(alloc: Global, attrs: &[Attr], to: &mut FileRec) -> Result<(), AllocError>
    ensures value { OnOk result (to.new ≡ record { head = to.old.head; attrs = to.old.attrs ++ attrs.now }) }
{
    for attr in attrs {
        push_copy(alloc, attr, to)?;
    }
    Ok(())
}
