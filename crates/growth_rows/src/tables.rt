//! Tables in memory that grow: where their bitmaps stand in a record, where one ends with its
//! cluster, where clusters or room in record 0 lack, and calls of the view that fail.
use crate::growing::{clusters_in, grow, table_in};
use crate::records::{Standing, Volume, bits_of, lies_of, view_of};
use block_view::{Body, View};
use planned_streams::{Draft, Extents, GrowthFault, Stream};
use record_model::Run;
use std::alloc::Global;
use std::test::Fail;
use stream_map::{front, no_extents};
use volume_images::per_cluster;

// What stands then: the last run of the records, by its VCN, its cluster and its length, and how many they are, the bytes of their bitmap and
// its clusters, and how many clusters came by record 6.
#[derive(Clone, Copy, Debug, PartialEq)]
struct Found {
    last: (u64, u64, u64),
    records: u64,
    bytes: u64,
    clusters: u64,
    taken: u32,
}

struct Row(Volume, Result<Found, GrowthFault>);

// Tables of 64 records in 16 clusters from cluster 4 on, and of 32,768 in 8,192.
const SHORT: Standing = Standing::Pairs(&[0x11, 16, 4, 0, 0, 0, 0, 0], 15, 65_536);

const LONG: Standing = Standing::Pairs(&[0x12, 0, 32, 4, 0, 0, 0, 0], 8191, 0x200_0000);

// A bitmap in cluster 30 with slack, and one in cluster 9000 that is full.
const SLACK: Standing = Standing::Pairs(&[0x11, 1, 30, 0, 0, 0, 0, 0], 0, 8);

const FULL: Standing = Standing::Pairs(&[0x21, 1, 40, 35, 0, 0, 0, 0], 0, 4096);

// A bitmap of 64 records as a value, and the bits of 256 clusters.
const VALUE: Standing = Standing::Value(8);

const OWNERS: Standing = Standing::Value(32);

// The bits of 16,384 clusters, in cluster 9001.
const WIDE: Standing = Standing::Pairs(&[0x21, 1, 41, 35, 0, 0, 0, 0], 0, 2048);

// How many bits are set.
fn ones(bytes: &[u8]) -> u32 {
    let mut count: u32 = 0;
    for byte in bytes {
        count = count.saturating_add(byte.count_ones());
    }
    count
}

// The last run, zeros where there is none.
fn last_of(runs: &[Run]) -> (u64, u64, u64) {
    match runs.last() {
        Some(run) => (run.vcn, run.lcn.unwrap_or(0), run.len),
        None => (0, 0, 0),
    }
}

fn clusters_of(runs: &[Run]) -> u64 {
    let mut count: u64 = 0;
    for run in runs {
        count = count.saturating_add(run.len);
    }
    count
}

// The bytes and the clusters of a stream.
fn sizes_of(stream: &Stream) -> (u64, u64) {
    match stream {
        Stream::Held(value) => (value.len() as u64, 0),
        Stream::Placed(extents) => (extents.real, clusters_of(extents.runs.as_slice())),
    }
}

// How many bits the bitmap of the clusters has in the draft.
fn taken<V: View>(draft: &mut Draft<'_, V>, alloc: Global, lies: &Extents) -> Result<u32, Fail> {
    let Some(clusters) = clusters_in(draft, alloc, lies, 0)? else {
        return Err("no bitmap".into());
    };
    let mut out = [0u8; 2048];
    let mut body = Body::empty(alloc)?;
    front(
        draft,
        per_cluster(8),
        &clusters.stream,
        0,
        &mut body,
        &mut out,
    )?;
    Ok(ones(&out))
}

// What stands in the draft.
fn stands<V: View>(
    draft: &mut Draft<'_, V>,
    alloc: Global,
    lies: &Extents,
    clusters: u64,
) -> Result<Found, Fail> {
    let Some(table) = table_in(draft, alloc, lies, clusters)? else {
        return Err("no table".into());
    };
    let (bytes, clusters) = sizes_of(&table.bitmap.stream);
    Ok(Found {
        last: last_of(table.extents.runs.as_slice()),
        records: table.extents.real / 1024,
        bytes,
        clusters,
        taken: taken(draft, alloc, lies)?,
    })
}

// What comes of a growth.
fn grown<V: View>(
    alloc: Global,
    view: &mut V,
    volume: &Volume,
) -> Result<Result<Found, GrowthFault>, Fail> {
    let mut bits = bits_of(alloc, volume)?;
    let lies = lies_of(alloc, volume)?;
    let mut draft = Draft::new(alloc, Body::empty(alloc)?, view);
    match grow(&mut draft, alloc, &mut bits, &lies, &no_extents(alloc)) {
        Ok(_) => Ok(Ok(stands(&mut draft, alloc, &lies, volume.0)?)),
        Err(fault) => Ok(Err(fault)),
    }
}

// Whether a growth answers so.
fn grows_so(alloc: Global, row: &Row) -> Result<bool, Fail> {
    let mut view = view_of(alloc, &row.0, &[])?;
    Ok(grown(alloc, &mut view, &row.0)? == row.1)
}

// The bitmaps are values: the clusters that come are those behind the table, or the first ones.
static HELD: [Row; 2] = [
    Row(
        Volume(256, SHORT, VALUE, 0, OWNERS, (20, 236, 1)),
        Ok(Found {
            last: (0, 4, 80),
            records: 320,
            bytes: 40,
            clusters: 0,
            taken: 64,
        }),
    ),
    Row(
        Volume(256, SHORT, VALUE, 0, OWNERS, (100, 156, 1)),
        Ok(Found {
            last: (16, 100, 64),
            records: 320,
            bytes: 40,
            clusters: 0,
            taken: 64,
        }),
    ),
];

// A bitmap in clusters: with slack it takes none; one that is full takes one behind the records', or
// behind its own.
static PLACED: [Row; 3] = [
    Row(
        Volume(256, SHORT, SLACK, 0, OWNERS, (100, 156, 1)),
        Ok(Found {
            last: (16, 100, 64),
            records: 320,
            bytes: 40,
            clusters: 1,
            taken: 64,
        }),
    ),
    Row(
        Volume(16_384, LONG, FULL, 0, WIDE, (10_000, 100, 1)),
        Ok(Found {
            last: (8192, 10_000, 64),
            records: 33_024,
            bytes: 4128,
            clusters: 2,
            taken: 65,
        }),
    ),
    Row(
        Volume(16_384, LONG, FULL, 0, WIDE, (8196, 65, 1)),
        Ok(Found {
            last: (0, 4, 8256),
            records: 33_024,
            bytes: 4128,
            clusters: 2,
            taken: 65,
        }),
    ),
];

// One cluster too few: for the records, and for their bitmap.
static LACKING: [Row; 2] = [
    Row(
        Volume(256, SHORT, VALUE, 0, OWNERS, (100, 63, 1)),
        Err(GrowthFault::Short { room: 63 }),
    ),
    Row(
        Volume(16_384, LONG, FULL, 0, WIDE, (10_000, 64, 1)),
        Err(GrowthFault::Short { room: 0 }),
    ),
];

// Each second cluster is free, so that 64 runs come. Record 0 has 56 bytes of its header and 8 of
// the end mark, 64 and 200 of its data, 72 of the bitmap, and 24 of the other value with its bytes.
static CROWDED: [Row; 2] = [
    Row(
        Volume(256, SHORT, SLACK, 600, OWNERS, (100, 64, 2)),
        Ok(Found {
            last: (79, 226, 1),
            records: 320,
            bytes: 40,
            clusters: 1,
            taken: 64,
        }),
    ),
    Row(
        Volume(256, SHORT, SLACK, 608, OWNERS, (100, 64, 2)),
        Err(GrowthFault::Full { used: 1032 }),
    ),
];

fn first_other(alloc: Global, rows: &[Row]) -> Result<Option<usize>, Fail> {
    for (i, row) in rows.iter().enumerate() {
        if !grows_so(alloc, row)? {
            return Ok(Some(i));
        }
    }
    Ok(None)
}

#[test]
fn bitmaps_in_records_become_longer(rt: HostRuntime) -> Result<(), Fail> {
    assert_eq!(rt; first_other(rt.alloc(), &HELD)?, None);
    Ok(())
}

#[test]
fn a_bitmap_in_clusters_becomes_longer(rt: HostRuntime) -> Result<(), Fail> {
    assert_eq!(rt; first_other(rt.alloc(), &PLACED)?, None);
    Ok(())
}

#[test]
fn clusters_may_lack(rt: HostRuntime) -> Result<(), Fail> {
    assert_eq!(rt; first_other(rt.alloc(), &LACKING)?, None);
    Ok(())
}

#[test]
fn record_0_may_be_too_full(rt: HostRuntime) -> Result<(), Fail> {
    assert_eq!(rt; first_other(rt.alloc(), &CROWDED)?, None);
    Ok(())
}

// Whether a growth fails whose call of the view with this number fails.
fn fails_at(alloc: Global, volume: &Volume, call: u64) -> Result<bool, Fail> {
    let mut view = view_of(alloc, volume, &[call])?;
    Ok(grown(alloc, &mut view, volume)? == Err(GrowthFault::Fault))
}

// How many calls of the view a growth makes.
fn calls_of(alloc: Global, volume: &Volume) -> Result<u64, Fail> {
    let mut view = view_of(alloc, volume, &[])?;
    let _ = grown(alloc, &mut view, volume)?;
    Ok(view.calls)
}

// Records 0 and 6 are asked for and touched, and then each of the 256 new records is touched. What
// is read of the draft then asks for no other block.
#[test]
fn each_call_of_the_view_may_fail(rt: HostRuntime) -> Result<(), Fail> {
    let volume = &HELD[0].0;
    assert_eq!(rt; calls_of(rt.alloc(), volume)?, 260);
    for call in [1, 2, 3, 4, 5, 260] {
        assert!(rt; fails_at(rt.alloc(), volume, call)?, "call {call}");
    }
    Ok(())
}
