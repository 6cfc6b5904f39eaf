//! File records in which a stream has another value.
ghost use Rattle.std.specs.Prelude.{◌≡◌, ◌≤◌, ◌^◌, IfOk, length};
ghost use Rattle.record_streams.specs.stream_map.Attributes.{behind};
ghost use Rattle.record_streams.specs.Fitting.{FitsButRoom, IsPlaceable};
ghost use Rattle.record_values.specs.Values.{indexed_of, valued_attr, valued_first, valued_record};

use record_streams::{Attr, Bytes, FileRec, Memory, OwnForm, attributes_of, copied, with_stream};
use std::alloc::{AllocError, Global};

// Whether an index lists the value, as its attribute says.
fn indexed_of(form: &OwnForm) -> u8
    ensures { result ≡ indexed_of form.now }
{
    match form {
        OwnForm::Resident { indexed, .. } => *indexed,
        OwnForm::Mapped { .. } => 0,
    }
}

// The attribute with this value.
fn valued_attr(alloc: Global, value: &[u8], attr: &Attr) -> Result<Attr, AllocError>
    ensures { IfOk result (λ a. a ≡ valued_attr value.now attr.now) }
{
    Ok(Attr {
        head: attr.head,
        name: attr.name.clone()?,
        form: OwnForm::Resident {
            value: Bytes::copy_of(alloc, value)?,
            indexed: indexed_of(&attr.form),
        },
    })
}

// The record with this value of the first of these attributes of a stream.
fn valued_first(
    alloc: Global,
    kind: u32,
    name: &[u16],
    value: &[u8],
    file: &FileRec,
    attributes: &[&Attr],
) -> Result<FileRec, AllocError>
    ensures { IfOk result (λ r. r ≡ valued_first kind name.now value.now file.now (behind attributes.now)) }
{
    let Some((first, _)) = attributes.split_first() else {
        return copied(alloc, file);
    };
    let new = valued_attr(alloc, value, first)?;
    with_stream(alloc, kind, name, &new, file)
}

/// The record with this value of the stream of this type and name (in UTF-16 units), in the record
/// (Linux-NTFS documentation, "Attribute Header"): in one attribute, which is the stream's first by
/// rising VCNs, in the place of the one that stands first in the record; its others go. A record
/// without that stream is copied. The value has at most 65,536 bytes, and the type is neither that
/// of standard information nor that of file names. [`values_are_put`](crate::values_are_put) says
/// what the record's streams are then. It may use more than 1,024 bytes. The error is want of
/// memory. It takes time and memory linear in the record and the value.
pub fn valued_record(
    alloc: Global,
    kind: u32,
    name: &[u16],
    value: &[u8],
    file: &FileRec,
) -> Result<FileRec, Memory>
    requires short { length value.now ≤ 2 ^ 16 }
    requires kind { IsPlaceable kind }
    requires fits { FitsButRoom file.now }
    ensures value { IfOk result (λ r. r ≡ valued_record kind name.now value.now file.now) }
    ensures fits { IfOk result FitsButRoom }
{
    let attributes = attributes_of(alloc, kind, name, file.attrs().as_slice())?;
    Ok(valued_first(alloc, kind, name, value, file, &attributes)?)
}
