ghost use Rattle.std.specs.Prelude.{◌≡◌, IfOk};

use disk_model::Bytes;
use record_model::{Attr, Head, OwnForm, Sizes, units_at};
use std::alloc::{AllocError, Global};
use thiserror::Error;

/// Where an attribute has its value: in the record, or in clusters by mapping pairs, which are the
/// bytes from their offset to the attribute's end.
#[derive(Clone, Copy, Debug, PartialEq, Eq)]
pub enum Form<'a> {
    Resident { value: &'a [u8], indexed: u8 },
    Mapped { sizes: Sizes, pairs: &'a [u8] },
}

/// An attribute where it stands (Linux-NTFS documentation, "Attribute Header").
#[derive(Clone, Copy, Debug, PartialEq, Eq)]
pub struct AttrRef<'a> {
    pub head: Head,
    /// How many bytes the attribute has.
    pub length: u32,
    /// The name in UTF-16, low byte first; none where it has no units.
    pub name: &'a [u8],
    pub form: Form<'a>,
}

/// Why bytes begin with no attribute.
#[derive(Clone, Copy, Debug, PartialEq, Eq, Error)]
pub enum AttrFault {
    /// The least rule that the bytes break: 3 where the length is below the header, no multiple of
    /// 8 or above the bytes, 6 where the name, the value or the mapping pairs lie outside the
    /// attribute.
    #[error("rule {rule} of attributes is broken")]
    Rule { rule: u32 },
}

impl Form<'_> {
    ghost use Rattle.attr_codec.specs.Reading.{form_seen};

    /// The same in a form that owns its bytes, in time and memory linear in them. The error is want
    /// of memory.
    pub fn to_own_form(&self, alloc: Global) -> Result<OwnForm, AllocError>
        ensures value { IfOk result (λ form. form ≡ form_seen self.now) }
    {
        match self {
            Form::Resident { value, indexed } => Ok(OwnForm::Resident {
                value: Bytes::copy_of(alloc, value)?,
                indexed: *indexed,
            }),
            Form::Mapped { sizes, pairs } => Ok(OwnForm::Mapped {
                sizes: *sizes,
                pairs: Bytes::copy_of(alloc, pairs)?,
            }),
        }
    }
}

impl AttrRef<'_> {
    ghost use Rattle.attr_codec.specs.Reading.{attr_seen};

    /// The same attribute with a name and a form of its own, in time and memory linear in their
    /// bytes. The error is want of memory.
    pub fn to_attr(&self, alloc: Global) -> Result<Attr, AllocError>
        ensures value { IfOk result (λ attr. attr ≡ attr_seen self.now) }
    {
        Ok(Attr {
            head: self.head,
            name: units_at(alloc, 0, self.name.len() / 2, self.name)?,
            form: self.form.to_own_form(alloc)?,
        })
    }
}
