//! The loading of a map.
ghost use Rattle.std.specs.Prelude.{◌≡◌, ◌*◌, ◌^◌, ◌<◌, IfSome};
ghost use Rattle.std.specs.List.{list_all};
ghost use Rattle.host_base.specs.Answers.{GivesOrFails};
ghost use Rattle.volume_map.specs.block_view.Views.{AsksView};
ghost use Rattle.volume_map.specs.Errors.{map_cause};
ghost use Rattle.map_change.specs.Plain.{is_plain};
ghost use Rattle.map_change.specs.Parts.{map_of, live_parts};

use crate::live::LiveMap;
use std::alloc::Global;
use volume_map::{ATTRIBUTE_LIST, FileRec, Geometry, MapFault, View, has_type, load_volume};

// Whether the file, if there is one, has no attribute list.
pub fn is_plain(file: &Option<FileRec>) -> bool
    ensures { result ≡ is_plain file.now }
{
    match file {
        Some(file) => !has_type(file, ATTRIBUTE_LIST),
        None => true,
    }
}

fn are_plain(files: &[Option<FileRec>]) -> bool
    ensures { result ≡ list_all is_plain files.now }
{
    files.iter().all(|file| is_plain(file))
}

/// The map of the volume that a view's content is, of so many clusters, by
/// [`load_volume`](volume_map::load_volume): it has the same errors, and costs what that does.
pub fn load_live<V: View>(
    alloc: Global,
    view: &mut V,
    geometry: &Geometry,
    clusters: u64,
) -> Result<LiveMap, MapFault>
    requires place { geometry.now.mft * geometry.now.per_cluster < 2 ^ 62 }
    ensures answer { IfSome (V.content view.old) (λ c. GivesOrFails live_parts map_cause result (map_of c geometry.now clusters)) }
    ensures kept { AsksView V.content V.kept V.faults map_cause view.old view.new result }
{
    let map = load_volume(alloc, view, geometry, clusters)?;
    let plain = are_plain(&map.files);
    Ok(LiveMap { map, plain })
}
