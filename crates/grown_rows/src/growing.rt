//! One growth of a volume's file table, as a plan of changes.
ghost use Rattle.std.specs.Prelude.{◌≡◌, ◌≤◌, All, IfOk};
ghost use Rattle.block_view.specs.Changes.{Fits};
ghost use Rattle.planned_streams.specs.draft_bitmaps.Bitmaps.{bit_count, IsBitmap};
ghost use Rattle.planned_streams.specs.draft_growth.Growing.{IsTable};

use crate::volume::{CLUSTERS, geometry};
use bit_set::BitSet;
use block_view::{Body, Change, View};
use draft_records::{data_extents, file};
use planned_streams::{Bitmap, Draft, Extents, Table, bitmap_of, grow_table, has_bits, table_of};
use record_model::DATA;
use std::alloc::Global;
use std::test::Fail;
use volume_images::per_cluster;
use volume_map::{VolumeMap, load_volume};

// The clusters of the mirror, by record 1.
fn mirror_in<V: View>(
    draft: &mut Draft<'_, V>,
    alloc: Global,
    lies: &Extents,
) -> Result<Extents, Fail> {
    match file(draft, alloc, per_cluster(8), lies, 1)? {
        Some(record) => Ok(data_extents(alloc, &record)?),
        None => Err("no mirror".into()),
    }
}

// The file table by record 0, where it may grow among so many clusters.
fn table_in<V: View>(
    draft: &mut Draft<'_, V>,
    alloc: Global,
    lies: &Extents,
    clusters: u64,
) -> Result<Table, Fail>
    ensures { IfOk result (IsTable clusters) }
{
    let Some(record) = file(draft, alloc, per_cluster(8), lies, 0)? else {
        return Err("no record 0".into());
    };
    match table_of(alloc, clusters, record)? {
        Some(table) => Ok(table),
        None => Err("no table".into()),
    }
}

// The bitmap of the clusters by record 6, with so many bits.
fn clusters_in<V: View>(
    draft: &mut Draft<'_, V>,
    alloc: Global,
    lies: &Extents,
    count: u64,
) -> Result<Bitmap, Fail>
    ensures stands { IfOk result IsBitmap }
    ensures within { IfOk result (λ bitmap. count ≤ bit_count bitmap.stream) }
{
    let Some(record) = file(draft, alloc, per_cluster(8), lies, 6)? else {
        return Err("no record 6".into());
    };
    match bitmap_of(alloc, 6, DATA, record)? {
        Some(bitmap) if has_bits(&bitmap.stream, count) => Ok(bitmap),
        _ => Err("no bitmap".into()),
    }
}

// Lets the table grow in a draft, with these bits of the clusters, where the file table lies so.
fn grow_in<V: View>(
    draft: &mut Draft<'_, V>,
    alloc: Global,
    bits: &mut BitSet,
    lies: &Extents,
) -> Result<(), Fail> {
    let count = bits.bits();
    let mirror = mirror_in(draft, alloc, lies)?;
    let table = table_in(draft, alloc, lies, count)?;
    let mut clusters = clusters_in(draft, alloc, lies, count)?;
    let per = per_cluster(8);
    grow_table(draft, alloc, per, bits, &mirror, table, &mut clusters)?;
    Ok(())
}

/// The changes of one growth of the file table of the volume that a view shows.
pub fn growth<V: View>(alloc: Global, view: &mut V) -> Result<Vec<Change>, Fail>
    ensures { IfOk result (λ changes. All Fits changes.items) }
{
    let VolumeMap {
        table,
        mut cluster_bits,
        ..
    } = load_volume(alloc, view, &geometry(), CLUSTERS)?;
    let mut draft = Draft::new(alloc, Body::empty(alloc)?, view);
    grow_in(&mut draft, alloc, &mut cluster_bits, &table)?;
    Ok(draft.finish(alloc)?)
}
