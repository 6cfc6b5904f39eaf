//! The data that the nodes of a volume show.
ghost use Rattle.std.specs.Prelude.{◌≡◌, IfOk, IfSome};
ghost use Rattle.state_model.specs.Files.{record_links};
ghost use Rattle.volume_map.specs.Maps.{volume_in};
ghost use Rattle.volume_tree.specs.Shown.{file_shown, shown_at};

use crate::kind::{Data, kind_in, shows_data};
use crate::names::NamedVolume;
use crate::stream::{data_flags, data_stream, has_hole};
use host_base::Memory;
use record_rules::{file_at, links_of};
use state_model::{FIRST_USER_RECORD, Link, Stream};
use std::alloc::Global;
use volume_map::FileRec;

// The data that the file with this number and these names shows.
#[tactic(auto, unfolding(crate::specs::Shown::file_shown))]
fn file_shown(
    alloc: Global,
    volume: &NamedVolume,
    number: u64,
    file: &FileRec,
    links: &[Link],
) -> Result<Option<Stream>, Memory>
    requires links { links.now ≡ record_links number file.now }
    ensures value { IfOk result (λ shown. shown ≡ file_shown (volume_in volume.now.map.now) number file.now) }
{
    let stream = data_stream(alloc, file)?;
    let about = Data {
        flags: data_flags(file),
        has_hole: has_hole(&stream),
    };
    if shows_data(kind_in(volume, number, file, links, about)) {
        Ok(stream)
    } else {
        Ok(None)
    }
}

/// The data that the node of the file with this number shows, if it has one that shows any. The
/// error is want of memory. It takes time and memory linear in the attributes and runs of the file,
/// and in its names.
#[tactic(auto, using(record_rules::proofs::Links::links_found), unfolding(crate::specs::Shown::shown_at, state_model::specs::Trees::is_nameless, state_model::specs::Files::links_at))]
pub fn shown_at(alloc: Global, volume: &NamedVolume, number: u64) -> Result<Option<Stream>, Memory>
    ensures value { IfOk result (λ shown. shown ≡ shown_at (volume_in volume.now.map.now) number) }
{
    let Some(file) = file_at(&volume.map.files, number) else {
        return Ok(None);
    };
    let names = links_of(&volume.names.links, number);
    if number < FIRST_USER_RECORD && names.is_empty() {
        return Ok(None);
    }
    file_shown(alloc, volume, number, file, names)
}
