//! The heads of a file table's records, the bits of a volume's bitmaps, and how often a load asks
//! its view.
ghost use Rattle.std.specs.Prelude.{◌≡◌, ◌<◌};

use block_view::{Block, BlockKind, Held, MemoryView};
use disk_model::put_bytes;
use host_base::Bytes;
use std::alloc::{AllocError, Global};
use std::test::Fail;
use volume_images::per_cluster;
use volume_map::{Geometry, VolumeMap, first_unmarked, load, load_volume};

// The file table begins at sector 16: record 0 has eight records in the clusters 16 to 31, of which
// the last lies past the initialised size, and the bits of records 47 and ff.
static TABLE: [u8; 0xa8] = [
    b'F', b'I', b'L', b'E', 0x30, 0, 3, 0, 0, 0, 0, 0, 0, 0, 0, 0, 1, 0, 1, 0, 0x38, 0, 1, 0, 0xa8,
    0, 0, 0, 0, 4, 0, 0, 0, 0, 0, 0, 0, 0, 0, 0, 2, 0, 0, 0, 0, 0, 0, 0, 0, 0, 0, 0, 0, 0, 0, 0,
    0x80, 0, 0, 0, 0x48, 0, 0, 0, 1, 0, 0x40, 0, 0, 0, 0, 0, 0, 0, 0, 0, 0, 0, 0, 0, 15, 0, 0, 0,
    0, 0, 0, 0, 0x40, 0, 0, 0, 0, 0, 0, 0, 0, 0x20, 0, 0, 0, 0, 0, 0, 0, 0x20, 0, 0, 0, 0, 0, 0, 0,
    0x1c, 0, 0, 0, 0, 0, 0, 0x11, 16, 16, 0, 0, 0, 0, 0, 0xb0, 0, 0, 0, 0x20, 0, 0, 0, 0, 0, 0x18,
    0, 0, 0, 1, 0, 8, 0, 0, 0, 0x18, 0, 0, 0, 0x47, 0xff, 0, 0, 0, 0, 0, 0, 0xff, 0xff, 0xff, 0xff,
    0, 0, 0, 0,
];

// The record of `$Bitmap`, in use with sequence 6: its data are the bytes 0f and fe in cluster 40.
static BITMAP: [u8; 0x88] = [
    b'F', b'I', b'L', b'E', 0x30, 0, 3, 0, 0, 0, 0, 0, 0, 0, 0, 0, 6, 0, 1, 0, 0x38, 0, 1, 0, 0x88,
    0, 0, 0, 0, 4, 0, 0, 0, 0, 0, 0, 0, 0, 0, 0, 1, 0, 0, 0, 6, 0, 0, 0, 0, 0, 0, 0, 0, 0, 0, 0,
    0x80, 0, 0, 0, 0x48, 0, 0, 0, 1, 0, 0x40, 0, 0, 0, 0, 0, 0, 0, 0, 0, 0, 0, 0, 0, 0, 0, 0, 0, 0,
    0, 0, 0, 0x40, 0, 0, 0, 0, 0, 0, 0, 0, 2, 0, 0, 0, 0, 0, 0, 2, 0, 0, 0, 0, 0, 0, 0, 2, 0, 0, 0,
    0, 0, 0, 0, 0x11, 1, 40, 0, 0, 0, 0, 0, 0xff, 0xff, 0xff, 0xff, 0, 0, 0, 0,
];

// A record without attributes: its number, its sequence, its flags, and the number of its base.
struct Bare(u8, u8, u8, u8);

// A file, a record that refers to it, a free one with a sequence, and a free one with none. Record
// 5, which was never used, has zeros.
static BARE: [Bare; 4] = [
    Bare(1, 5, 1, 0),
    Bare(2, 7, 1, 1),
    Bare(3, 9, 0, 0),
    Bare(4, 0, 0, 0),
];

// Whether each record is in use, and the sequence that a new file would get there.
static HEADS: [(bool, u16); 8] = [
    (true, 1),
    (true, 5),
    (true, 7),
    (false, 9),
    (false, 1),
    (false, 1),
    (true, 6),
    (false, 1),
];

fn held(alloc: Global, number: u8, bytes: &[u8]) -> Result<Held, AllocError> {
    let mut body = vec![in alloc; 0u8; 1024]?;
    if bytes.len() <= 1024 {
        put_bytes(&mut body, 0, bytes);
    }
    Ok(Held {
        block: Block {
            first: 16 + 2 * u64::from(number),
            kind: BlockKind::FileRec,
        },
        bytes: Bytes::from(body),
        torn: false,
    })
}

fn bytes_of(row: &Bare) -> [u8; 0x40] {
    let mut bytes = [0; 0x40];
    put_bytes(&mut bytes, 0x00, b"FILE");
    bytes[0x10] = row.1;
    bytes[0x14] = 0x38;
    bytes[0x16] = row.2;
    bytes[0x18] = 0x40;
    bytes[0x1d] = 4;
    bytes[0x20] = row.3;
    put_bytes(&mut bytes, 0x38, &[0xff, 0xff, 0xff, 0xff]);
    bytes
}

// The bytes 0f and fe in the sector 40.
fn marked(alloc: Global) -> Result<Held, AllocError> {
    let mut room = vec![in alloc; 0u8; 512]?;
    put_bytes(&mut room, 0, &[0x0f, 0xfe]);
    Ok(Held {
        block: Block {
            first: 40,
            kind: BlockKind::Plain,
        },
        bytes: Bytes::from(room),
        torn: false,
    })
}

fn view_of(alloc: Global) -> Result<MemoryView, AllocError> {
    let mut all = Vec::new(alloc);
    all.push(held(alloc, 0, &TABLE)?)?;
    for row in BARE.iter() {
        all.push(held(alloc, row.0, &bytes_of(row))?)?;
    }
    all.push(held(alloc, 6, &BITMAP)?)?;
    all.push(marked(alloc)?)?;
    Ok(MemoryView::new(all, Vec::new(alloc)))
}

fn geometry() -> Geometry
    ensures per { result.per_cluster ≡ 1 }
    ensures mft { result.mft ≡ 16 }
{
    Geometry {
        per_cluster: per_cluster(1),
        mft: 16,
    }
}

// The map of twelve clusters.
fn map_of(alloc: Global) -> Result<VolumeMap, Fail> {
    let mut view = view_of(alloc)?;
    let map = load_volume(alloc, &mut view, &geometry(), 12)?;
    Ok(map)
}

#[test]
fn a_map_has_the_heads_of_all_records(rt: HostRuntime) -> Result<(), Fail> {
    let map = map_of(rt.alloc())?;
    assert_eq!(rt; map.heads.len(), HEADS.len());
    for (number, (head, want)) in map.heads.iter().zip(HEADS.iter()).enumerate() {
        assert_eq!(rt; (head.in_use, head.sequence), *want, "record {number}");
    }
    Ok(())
}

#[test]
fn a_map_has_the_bits_of_its_records_and_clusters(rt: HostRuntime) -> Result<(), Fail> {
    let map = map_of(rt.alloc())?;
    let (records, clusters) = (&map.record_bits, &map.cluster_bits);
    assert_eq!(rt; (records.bits(), records.count_clear()), (8, 4));
    assert_eq!(rt; (clusters.bits(), clusters.count_clear()), (12, 5));
    assert_eq!(rt;
        (clusters.test(3), clusters.test(8), clusters.test(12)),
        (true, false, false)
    );
    assert_eq!(rt; first_unmarked(&map.heads, records), None);
    assert_eq!(rt; first_unmarked(&map.heads, clusters), Some(6));
    Ok(())
}

// Record 0 is asked for first, then each record below the initialised size, and then, where the
// bits are read, the sector of the clusters' bitmap.
#[test]
fn each_record_is_read_once(rt: HostRuntime) -> Result<(), Fail> {
    let mut view = view_of(rt.alloc())?;
    let files = load(rt.alloc(), &mut view, &geometry())?;
    let alone = view.calls;
    let mut again = view_of(rt.alloc())?;
    let map = load_volume(rt.alloc(), &mut again, &geometry(), 12)?;
    assert_eq!(rt; (files.len(), alone), (8, 8));
    assert_eq!(rt; (map.files.len(), again.calls), (8, 9));
    Ok(())
}
