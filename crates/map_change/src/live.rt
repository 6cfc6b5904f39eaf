//! A loaded volume that follows its changes.
ghost use Rattle.std.specs.Prelude.{◌≡◌, true};
ghost use Rattle.std.specs.List.{list_all};
ghost use Rattle.map_change.specs.Plain.{is_plain};

use volume_map::VolumeMap;

/// A loaded volume that follows its changes.
#[derive(Debug, Drop)]
pub struct LiveMap {
    /// The volume.
    pub map: VolumeMap,
    /// No file has an attribute list, where this says so.
    pub plain: bool,
    pub ghost listless: { plain ≡ true → list_all is_plain map.files.items ≡ true },
}
