//! Copies of attributes with other times.
ghost use Rattle.std.specs.Prelude.{◌≡◌, ◌+◌, ◌≤◌, ◌++◌, ◌∷◌, [], IfOk, OnOk, length};
ghost use Rattle.disk_model.specs.Numbers.{spell};
ghost use Rattle.disk_model.specs.Bytes.{written};
ghost use Rattle.record_times.specs.Times.{timed_value, timed_form, timed_attr};

use disk_model::put_u64;
use host_base::Bytes;
use plan_changes::FileRec;
use record_model::{Attr, OwnForm};
use std::alloc::AllocError;

// The fewest bytes of standard information.
const LEAST: usize = 0x30;

// Puts the times of the last change.
fn put_times(value: &mut [u8], stamp: u64)
    requires { 0x30 ≤ length value.old }
    ensures { value.new ≡ written 0x10 (spell 8 stamp) (written 0x08 (spell 8 stamp) value.old) }
{
    put_u64(value, 0x08, stamp);
    put_u64(value, 0x10, stamp);
}

// The value with the times of the last change, where it is standard information.
#[tactic(auto, unfolding(crate::specs::Times::timed_value, record_model::specs::Values::is_standard_information))]
fn timed_value(value: &Bytes, stamp: u64) -> Result<Bytes, AllocError>
    ensures { IfOk result (λ v. v ≡ timed_value stamp value.now) }
{
    if value.len() < LEAST {
        return value.clone();
    }
    let mut bytes = value.clone()?.into_vec();
    put_times(&mut bytes, stamp);
    Ok(Bytes::from(bytes))
}

// The form with these times.
fn timed_form(form: &OwnForm, stamp: u64) -> Result<OwnForm, AllocError>
    ensures { IfOk result (λ f. f ≡ timed_form stamp form.now) }
{
    match form {
        OwnForm::Resident { value, indexed } => Ok(OwnForm::Resident {
            value: timed_value(value, stamp)?,
            indexed: *indexed,
        }),
        OwnForm::Mapped { sizes, pairs } => Ok(OwnForm::Mapped {
            sizes: *sizes,
            pairs: pairs.clone()?,
        }),
    }
}

/// The attribute with these times at the record's end.
pub fn push_timed(attr: &Attr, stamp: u64, to: &mut FileRec) -> Result<(), AllocError>
    ensures { OnOk result (to.new ≡ record { head = to.old.head; attrs = to.old.attrs ++ timed_attr stamp attr.now ∷ [] }) }
{
    to.push(Attr {
        head: attr.head,
        name: attr.name.clone()?,
        form: timed_form(&attr.form, stamp)?,
    })
}
