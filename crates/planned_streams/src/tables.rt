//! A file table that may grow.
ghost use Rattle.std.specs.Prelude.{◌≡◌, ◌↔◌, ◌<◌, true, IfOk, IfSome};
ghost use Rattle.record_model.specs.Constants.{data_type};
ghost use Rattle.draft_growth.specs.record_streams.Fitting.{FitsButRoom};
ghost use Rattle.draft_growth.specs.stream_runs.Runs.{last_cluster};
ghost use Rattle.draft_growth.specs.draft_bitmaps.Bitmaps.{IsBitmap};
ghost use Rattle.draft_growth.specs.Growing.{MayGrow, MayGrowIn, IsTable};
ghost use Rattle.planned_streams.specs.Planned.{placed_data, table_in, IsWhere};

use crate::bitmaps::bitmap_of;
use crate::spelling::{CLUSTER_LIMIT, have_spelling};
use draft_growth::{
    Bitmap, Extents, FileRec, Stream, Table, last_cluster, stream_of, total_clusters,
};
use host_base::Memory;
use record_model::{BITMAP_TYPE, DATA, Runs};
use std::alloc::Global;

// A stream that grows has at most so many runs, and at most so many clusters; its sizes are below
// this one.
const RUN_ROOM: usize = 63_488;

const CLUSTER_ROOM: u64 = CLUSTER_LIMIT - 2048;

const SIZE_LIMIT: u64 = 0x8000_0000;

// A value that grows has at most so many bytes before, and so many behind.
const VALUE_ROOM: usize = 32_768;

const VALUE_LIMIT: u64 = 65_536;

// Whether the last cluster is below this number; a sparse one is.
fn ends_below(clusters: u64, runs: &Runs) -> bool
    ensures { (result ≡ true) ↔ IfSome (last_cluster runs.now) (λ at. at < clusters) }
{
    match last_cluster(runs) {
        Some(at) => at < clusters,
        None => true,
    }
}

/// Whether a stream of the file table may take clusters of a volume with so many, as
/// [`grow_table`](draft_growth::grow_table) asks it: its runs have a spelling, its last cluster is one
/// of the volume, it has at most 63,488 runs and 2^32 - 2,048 clusters, and its sizes are below 2^31. It
/// takes time linear in the runs.
pub fn may_grow(clusters: u64, extents: &Extents) -> bool
    ensures { (result ≡ true) ↔ MayGrow clusters extents.now }
{
    if extents.real >= SIZE_LIMIT || extents.initialised >= SIZE_LIMIT {
        return false;
    }
    if extents.runs.len() > RUN_ROOM || !have_spelling(&extents.runs) {
        return false;
    }
    total_clusters(extents.runs.as_slice()) <= CLUSTER_ROOM && ends_below(clusters, &extents.runs)
}

// Whether a bitmap may come to have so many bytes.
fn may_grow_in(clusters: u64, size: u64, stream: &Stream) -> bool
    ensures { (result ≡ true) ↔ MayGrowIn clusters size stream.now }
{
    match stream {
        Stream::Held(value) => value.len() <= VALUE_ROOM && size <= VALUE_LIMIT,
        Stream::Placed(extents) => may_grow(clusters, extents),
    }
}

fn is_table(clusters: u64, table: &Table) -> bool
    requires bitmap { IsBitmap table.now.bitmap }
    requires number { table.now.bitmap.number ≡ 0 }
    ensures { (result ≡ true) ↔ IsTable clusters table.now }
{
    if clusters > CLUSTER_LIMIT || !may_grow(clusters, &table.extents) {
        return false;
    }
    let size = (table.extents.real / 1024 + 263) / 8;
    may_grow_in(clusters, size, &table.bitmap.stream)
}

// The clusters of the unnamed data, if they lie in some.
fn placed_data(alloc: Global, file: &FileRec) -> Result<Option<Extents>, Memory>
    ensures { IfOk result (λ extents. extents ≡ placed_data file.now) }
{
    match stream_of(alloc, DATA, &[], file.attrs().as_slice())? {
        Some(Stream::Placed(extents)) => Ok(Some(extents)),
        _ => Ok(None),
    }
}

/// The file table that this record 0 has, with the bitmap of its numbers (Linux-NTFS documentation,
/// "$MFT"), where [`grow_table`](draft_growth::grow_table) may let it grow in a volume of so many
/// clusters: none where its data don't lie in clusters, where it has no bitmap, or where one of both
/// may not grow, as [`may_grow`] says; a bitmap that is a value in the record has at most 32,768
/// bytes. The file is one that was read, as [`file`](draft_records::file) gives it. The error is want
/// of memory. It takes time linear in the record's attributes and the runs of both streams where the
/// attributes stand by rising first VCN.
pub fn table_of(alloc: Global, clusters: u64, file: FileRec) -> Result<Option<Table>, Memory>
    requires fits { FitsButRoom file }
    ensures value { IfOk result (λ table. IsWhere (IsTable clusters) (table_in file) table) }
{
    let Some(extents) = placed_data(alloc, &file)? else {
        return Ok(None);
    };
    let Some(bitmap) = bitmap_of(alloc, 0, BITMAP_TYPE, file)? else {
        return Ok(None);
    };
    let table = Table { extents, bitmap };
    if !is_table(clusters, &table) {
        return Ok(None);
    }
    Ok(Some(table))
}
