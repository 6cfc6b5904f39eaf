//! One growth of a file table, as record 0 has it in the draft.
ghost use Rattle.std.specs.Prelude.{◌≤◌, IfOk, IfSome};
ghost use Rattle.planned_streams.specs.draft_bitmaps.Bitmaps.{bit_count, IsBitmap};
ghost use Rattle.planned_streams.specs.draft_growth.Growing.{IsTable};

use bit_set::BitSet;
use block_view::View;
use draft_records::{DraftFault, file};
use host_base::Memory;
use planned_streams::{
    Bitmap, Draft, Extents, GrowthFault, Table, bitmap_of, grow_table, has_bits, table_of,
};
use record_model::DATA;
use std::alloc::Global;
use volume_images::per_cluster;

/// The file table by record 0, where it may grow among so many clusters.
pub fn table_in<V: View>(
    draft: &mut Draft<'_, V>,
    alloc: Global,
    lies: &Extents,
    clusters: u64,
) -> Result<Option<Table>, DraftFault>
    ensures { IfOk result (λ table. IfSome table (IsTable clusters)) }
{
    let Some(record) = file(draft, alloc, per_cluster(8), lies, 0)? else {
        return Ok(None);
    };
    match table_of(alloc, clusters, record) {
        Ok(table) => Ok(table),
        Err(Memory) => Err(DraftFault::Memory),
    }
}

/// The bitmap of the clusters by record 6, where it has so many bits and they may be changed.
pub fn clusters_in<V: View>(
    draft: &mut Draft<'_, V>,
    alloc: Global,
    lies: &Extents,
    count: u64,
) -> Result<Option<Bitmap>, DraftFault>
    ensures stands { IfOk result (λ bitmap. IfSome bitmap IsBitmap) }
    ensures within { IfOk result (λ bitmap. IfSome bitmap (λ b. count ≤ bit_count b.stream)) }
{
    let Some(record) = file(draft, alloc, per_cluster(8), lies, 6)? else {
        return Ok(None);
    };
    match bitmap_of(alloc, 6, DATA, record) {
        Ok(Some(bitmap)) if has_bits(&bitmap.stream, count) => Ok(Some(bitmap)),
        Ok(_) => Ok(None),
        Err(Memory) => Err(DraftFault::Memory),
    }
}

/// The table with its bitmap after a growth; none where record 0 or 6 has no stream that may be
/// changed. Both are read where these clusters have their records.
pub fn grow<V: View>(
    draft: &mut Draft<'_, V>,
    alloc: Global,
    bits: &mut BitSet,
    lies: &Extents,
    mirror: &Extents,
) -> Result<Option<Table>, GrowthFault> {
    let count = bits.bits();
    let Some(table) = table_in(draft, alloc, lies, count)? else {
        return Ok(None);
    };
    let Some(mut clusters) = clusters_in(draft, alloc, lies, count)? else {
        return Ok(None);
    };
    let per = per_cluster(8);
    let grown = grow_table(draft, alloc, per, bits, mirror, table, &mut clusters)?;
    Ok(Some(grown))
}
