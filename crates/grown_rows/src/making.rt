//! One file that is made in the root of a volume, as a plan of changes.
ghost use Rattle.std.specs.Prelude.{◌≡◌, ◌<◌, ◌^◌, All, IfOk};
ghost use Rattle.block_view.specs.Changes.{Fits};
ghost use Rattle.record_streams.specs.Fitting.{FitsButRoom};

use crate::volume::{CLUSTERS, geometry};
use block_view::{Body, Change, View};
use draft_records::{data_extents, file};
use host_base::FileRef;
use place_makes::{Draft, FileRec, NewFile, VolumeStreams, make_in_place};
use plan_space::Taken;
use record_model::BITMAP_TYPE;
use record_streams::WrittenRecord;
use state_model::{Extents, Stream};
use std::alloc::Global;
use std::test::Fail;
use stream_map::stream_of;
use upcase_order::Upcase;
use utf16_name::Name;
use volume_images::per_cluster;
use volume_map::{VolumeMap, load_volume};

// More bytes than a stream of a small volume has.
const MANY: u64 = 1 << 40;

// A file of the root with this number and name.
fn new_file(alloc: Global, number: u64, name: Name) -> Result<NewFile, Fail>
    ensures number { IfOk result (λ made. made.file.number ≡ number) }
    ensures parent { IfOk result (λ made. made.parent.number ≡ 5) }
{
    Ok(NewFile {
        file: FileRef { number, seq: 1 },
        parent: FileRef { number: 5, seq: 5 },
        name,
        stamp: 9,
    })
}

// The record with this number.
fn record_in<V: View>(
    draft: &mut Draft<'_, V>,
    alloc: Global,
    lies: &Extents,
    number: u64,
) -> Result<FileRec, Fail>
    requires { number < 2 ^ 48 }
    ensures { IfOk result FitsButRoom }
{
    match file(draft, alloc, per_cluster(8), lies, number)? {
        Some(record) => Ok(record),
        None => Err("no record".into()),
    }
}

// The clusters of the unnamed data of the record with this number.
fn data_in<V: View>(
    draft: &mut Draft<'_, V>,
    alloc: Global,
    lies: &Extents,
    number: u64,
) -> Result<Extents, Fail>
    requires { number < 2 ^ 48 }
    ensures { IfOk result (λ e. e.initialised < 2 ^ 63) }
{
    let record = record_in(draft, alloc, lies, number)?;
    let extents = data_extents(alloc, &record)?;
    if extents.initialised >= MANY {
        return Err("too long".into());
    }
    Ok(extents)
}

// The clusters of the bits of the numbers, by record 0.
fn numbers_in<V: View>(
    draft: &mut Draft<'_, V>,
    alloc: Global,
    lies: &Extents,
) -> Result<Extents, Fail>
    ensures { IfOk result (λ e. e.initialised < 2 ^ 63) }
{
    let record = record_in(draft, alloc, lies, 0)?;
    match stream_of(alloc, BITMAP_TYPE, &[], record.attrs().as_slice())? {
        Some(Stream::Placed(extents)) if extents.initialised < MANY => Ok(extents),
        _ => Err("no numbers".into()),
    }
}

// The streams of the volume whose file table lies so.
fn streams_in<V: View>(
    draft: &mut Draft<'_, V>,
    alloc: Global,
    lies: &Extents,
) -> Result<VolumeStreams, Fail>
    ensures { IfOk result (λ s. s.bitmap.initialised < 2 ^ 63) }
{
    Ok(VolumeStreams {
        table: data_in(draft, alloc, lies, 0)?,
        mirror: data_in(draft, alloc, lies, 1)?,
        bitmap: data_in(draft, alloc, lies, 6)?,
    })
}

// Makes a file in a draft, where the file table and the clear clusters are those of the map.
fn make_in<V: View>(
    draft: &mut Draft<'_, V>,
    alloc: Global,
    map: &VolumeMap,
    made: &NewFile,
) -> Result<(), Fail>
    requires number { made.now.file.number < 2 ^ 32 }
    requires parent { made.now.parent.number ≡ 5 }
{
    let up = Upcase::standard(alloc)?;
    let streams = streams_in(draft, alloc, &map.table)?;
    let numbers = numbers_in(draft, alloc, &map.table)?;
    let root = record_in(draft, alloc, &map.table, 5)?;
    let mut bits = Taken::new(alloc, &map.cluster_bits);
    let mut counted = Taken::new(alloc, &map.cluster_bits);
    make_in_place(
        draft,
        alloc,
        per_cluster(8),
        &mut bits,
        &mut counted,
        &up,
        &streams,
        &numbers,
        made,
        &root,
    )?;
    Ok(())
}

/// The changes by which the volume that a view shows gets a file of the root with this number and
/// name.
pub fn making<V: View>(
    alloc: Global,
    view: &mut V,
    number: u64,
    name: Name,
) -> Result<Vec<Change>, Fail>
    requires { number < 2 ^ 32 }
    ensures { IfOk result (λ changes. All Fits changes.items) }
{
    let map = load_volume(alloc, view, &geometry(), CLUSTERS)?;
    let made = new_file(alloc, number, name)?;
    let mut draft = Draft::new(alloc, Body::empty(alloc)?, view);
    make_in(&mut draft, alloc, &map, &made)?;
    Ok(draft.finish(alloc)?)
}
