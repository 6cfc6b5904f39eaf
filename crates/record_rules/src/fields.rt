//! What one record says by itself, wherever the bytes of its values lie.
ghost use Rattle.std.specs.Prelude.{◌≡◌, ◌==◌, find};
ghost use Rattle.std.specs.Option.{option_copied};
ghost use Rattle.state_model.specs.record_model.Constants.{standard_information};
ghost use Rattle.state_model.specs.record_model.StdValues.{std_info_of};
ghost use Rattle.state_model.specs.record_model.declared.attribute.Attr.{Attr as the_attr};
ghost use Rattle.state_model.specs.Files.{no_info, has_type, form_info, info_of, info_or, is_encrypted, is_compressed, is_sparse, is_directory_record};

use file_record::{FileRec, FixedValue};
use state_model::{Attr, AttributeFlags, OwnForm, RecordFlags, STANDARD_INFORMATION, StdInfo};

/// Whether the record is that of a directory, by the flag 2 of its header (Linux-NTFS
/// documentation, "FILE Record").
pub fn is_directory_record(file: &FileRec) -> bool
    ensures value { result ≡ is_directory_record file.now }
{
    RecordFlags::has_directory(file.head().flags)
}

/// Whether the record has an attribute of the type `kind` (Linux-NTFS documentation, "Attribute
/// Header"), resident or in clusters. It takes time linear in the attributes.
#[tactic(auto, unfolding(state_model::specs::Files::has_type))]
pub fn has_type(kind: u32, file: &FileRec) -> bool
    ensures value { result ≡ has_type kind file.now }
{
    let attrs = file.attrs().as_slice();
    attrs.iter().any(|attr| attr.head.kind == kind)
}

// The fields of a value; one that is too short has no flags and times of zero.
fn info_or_none(value: &[u8]) -> StdInfo
    ensures { result ≡ info_or (std_info_of value.now) }
{
    match StdInfo::read(value) {
        Ok(info) => info,
        Err(_) => no_info(),
    }
}

fn no_info() -> StdInfo
    ensures { result ≡ no_info }
{
    StdInfo {
        created: 0,
        modified: 0,
        changed: 0,
        read_at: 0,
        flags: 0,
    }
}

fn form_info(form: &OwnForm) -> StdInfo
    ensures { result ≡ form_info form.now }
{
    match form {
        OwnForm::Resident { value, .. } => info_or_none(value.as_slice()),
        OwnForm::Mapped { .. } => no_info(),
    }
}

fn std_info_attr(file: &FileRec) -> Option<&Attr>
    ensures { option_copied result ≡ find (λ (a : the_attr). a.head.kind == standard_information) file.now.attrs }
{
    let attrs = file.attrs().as_slice();
    attrs
        .iter()
        .find(|attr| attr.head.kind == STANDARD_INFORMATION)
}

/// The record's standard information, of its first attribute of that type (Linux-NTFS
/// documentation, "$STANDARD_INFORMATION"). One that isn't there, is in clusters or is too short
/// has no flags, and times of zero. It takes time linear in the attributes.
#[tactic(auto, unfolding(state_model::specs::Files::info_of))]
pub fn info_of(file: &FileRec) -> StdInfo
    ensures value { result ≡ info_of file.now }
{
    match std_info_attr(file) {
        Some(attr) => form_info(&attr.form),
        None => no_info(),
    }
}

/// Whether an attribute with these flags is encrypted (Linux-NTFS documentation, "Attribute
/// Header").
pub fn is_encrypted(flags: u16) -> bool
    ensures value { result ≡ is_encrypted flags }
{
    AttributeFlags::has_encrypted(flags)
}

/// Whether an attribute with these flags is compressed (Linux-NTFS documentation, "Attribute
/// Header").
pub fn is_compressed(flags: u16) -> bool
    ensures value { result ≡ is_compressed flags }
{
    AttributeFlags::has_compressed(flags)
}

/// Whether an attribute with these flags is sparse (Linux-NTFS documentation, "Attribute Header").
pub fn is_sparse(flags: u16) -> bool
    ensures value { result ≡ is_sparse flags }
{
    AttributeFlags::has_sparse(flags)
}
