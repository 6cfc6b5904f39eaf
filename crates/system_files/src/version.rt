//! The version of a volume.
ghost use Rattle.std.specs.Prelude.{◌≡◌, ◌==◌, find};
ghost use Rattle.std.specs.Option.{option_copied};
ghost use Rattle.volume_map.specs.record_model.declared.attribute.Attr.{Attr as the_attr};
ghost use Rattle.volume_map.specs.record_model.Constants.{volume_information};
ghost use Rattle.volume_map.specs.record_model.StdValues.{volume_info_of};
ghost use Rattle.volume_map.specs.Maps.{volume_in};
ghost use Rattle.volume_state.specs.Versions.{no_version, info_or_none, form_info, attr_info, volume_info};

use record_rules::file_at;
use volume_map::{Attr, FileRec, FixedValue, OwnForm, VOLUME_INFORMATION, VolumeInfo, VolumeMap};

const VOLUME_FILE: u64 = 3;

fn no_version() -> VolumeInfo
    ensures { result ≡ no_version }
{
    VolumeInfo {
        major: 0,
        minor: 0,
        flags: 0,
    }
}

fn info_or_none(value: &[u8]) -> VolumeInfo
    ensures { result ≡ info_or_none (volume_info_of value.now) }
{
    match VolumeInfo::read(value) {
        Ok(info) => info,
        Err(_) => no_version(),
    }
}

fn form_info(form: &OwnForm) -> VolumeInfo
    ensures { result ≡ form_info form.now }
{
    match form {
        OwnForm::Resident { value, .. } => info_or_none(value.as_slice()),
        OwnForm::Mapped { .. } => no_version(),
    }
}

// The first attribute of that type.
fn info_attr(attrs: &[Attr]) -> Option<&Attr>
    ensures { option_copied result ≡ find (λ (a : the_attr). a.head.kind == volume_information) attrs.now }
{
    attrs
        .iter()
        .find(|attr| attr.head.kind == VOLUME_INFORMATION)
}

// The volume information of a record.
fn file_info(file: &FileRec) -> VolumeInfo
    ensures { result ≡ attr_info (find (λ (a : the_attr). a.head.kind == volume_information) file.now.attrs) }
{
    match info_attr(file.attrs().as_slice()) {
        Some(attr) => form_info(&attr.form),
        None => no_version(),
    }
}

/// The volume information of `$Volume` (Linux-NTFS documentation, "$VOLUME_INFORMATION"); that of
/// version 0.0 where there is none, or it isn't resident or too short.
#[tactic(auto, unfolding(volume_state::specs::Versions::volume_info))]
pub fn volume_info(map: &VolumeMap) -> VolumeInfo
    ensures value { result ≡ volume_info (volume_in map.now) }
{
    match file_at(&map.files, VOLUME_FILE) {
        Some(file) => file_info(file),
        None => no_version(),
    }
}
