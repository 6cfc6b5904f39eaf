//! What the streams of files keep.
use block_view::MemoryView;
use record_model::{DATA, INDEX_ALLOCATION, NAMES_INDEX};
use std::alloc::{AllocError, Global};
use std::test::Fail;
use stream_rules::{Body, FileRec, SizesFault, first_broken, keeps_streams};
use volume_images::{Kept, Part, index_view, per_cluster, put_file, record};

// 8 clusters from cluster 16 on, or 8 that are sparse.
fn pairs(is_sparse: bool) -> &'static [u8] {
    if is_sparse {
        &[0x01, 8, 0]
    } else {
        &[0x11, 8, 16, 0]
    }
}

// A stream with 4,096 allocated and 4,000 real bytes: whether it is a directory's index or else
// data, its first VCN and initialised size, and whether it is sparse.
#[derive(Drop)]
struct Row(bool, u64, u64, bool);

// How many clusters a volume has, the number of its only file, the file's stream, and whether the
// stream keeps its rules.
struct KeptRow(u64, u64, Row, Result<bool, SizesFault>);

static STREAMS: [KeptRow; 11] = [
    // a stream lies in the volume; the view fails at its second call, for the second record
    KeptRow(24, 24, Row(false, 0, 4000, false), Ok(true)),
    KeptRow(23, 24, Row(false, 0, 4000, false), Ok(false)),
    KeptRow(24, 0, Row(false, 0, 4000, false), Err(SizesFault::View)),
    // it begins with its first VCN, and no more is initialised than there is
    KeptRow(24, 24, Row(false, 1, 4000, false), Ok(false)),
    KeptRow(24, 24, Row(false, 0, 4001, false), Ok(false)),
    // the table is whole: not sparse, and all of it initialised
    KeptRow(24, 24, Row(false, 0, 4000, true), Ok(true)),
    KeptRow(24, 0, Row(false, 0, 4000, true), Ok(false)),
    KeptRow(24, 24, Row(false, 0, 3999, false), Ok(true)),
    KeptRow(24, 0, Row(false, 0, 3999, false), Ok(false)),
    // no begun block of an index is torn
    KeptRow(24, 24, Row(true, 0, 1, false), Ok(false)),
    KeptRow(24, 24, Row(true, 0, 0, false), Ok(true)),
];

// Two pieces of data, each by its first VCN and its pairs, and whether they are one stream of eight
// clusters.
static PIECES: [((u64, &[u8]), (u64, &[u8]), bool); 4] = [
    ((0, &[0x11, 4, 16, 0]), (4, &[0x11, 4, 20, 0]), true),
    ((4, &[0x11, 4, 20, 0]), (0, &[0x11, 4, 16, 0]), true),
    // a piece of no clusters, before its neighbour and behind it
    ((0, &[0]), (0, &[0x11, 8, 16, 0]), false),
    ((0, &[0x11, 8, 16, 0]), (0, &[0]), false),
];

fn file_of(alloc: Global, row: &Row) -> Result<FileRec, AllocError> {
    let kept = Kept::Pairs(row.1, (4096, 4000, row.2), pairs(row.3));
    if row.0 {
        record(
            alloc,
            (0, 0, 3),
            &[Part(INDEX_ALLOCATION, 0, &NAMES_INDEX, kept)],
        )
    } else {
        record(alloc, (0, 0, 1), &[Part(DATA, 0, &[], kept)])
    }
}

// A view whose index block at sector 16 is torn, and whose second call fails.
fn view(alloc: Global) -> Result<MemoryView, AllocError> {
    index_view(alloc, vec![in alloc; 0; 4096]?, true, 2)
}

fn keeps(
    alloc: Global,
    clusters: u64,
    number: u64,
    file: &FileRec,
) -> Result<Result<bool, SizesFault>, AllocError> {
    let mut view = view(alloc)?;
    let mut body = Body::empty(alloc)?;
    Ok(keeps_streams(
        alloc,
        &mut view,
        per_cluster(1),
        clusters,
        number,
        file,
        &mut body,
    ))
}

#[test]
fn streams_keep_their_rules(rt: HostRuntime) -> Result<(), Fail> {
    for (number, row) in STREAMS.iter().enumerate() {
        let file = file_of(rt.alloc(), &row.2)?;
        let kept = keeps(rt.alloc(), row.0, row.1, &file)?;
        assert_eq!(rt; kept, row.3, "row {number}");
    }
    Ok(())
}

fn piece(first: u64, pairs: &'static [u8]) -> Part<'static> {
    Part(DATA, 0, &[], Kept::Pairs(first, (4096, 4000, 4000), pairs))
}

#[test]
fn a_piece_beside_another_has_clusters(rt: HostRuntime) -> Result<(), Fail> {
    for (number, (first, next, want)) in PIECES.iter().enumerate() {
        let pieces = [piece(first.0, first.1), piece(next.0, next.1)];
        let file = record(rt.alloc(), (0, 0, 1), &pieces)?;
        let kept = keeps(rt.alloc(), 24, 24, &file)?;
        assert_eq!(rt; kept, Ok(*want), "row {number}");
    }
    Ok(())
}

// The first number at fault in a volume of so many clusters, with no file or with the file 0.
fn broken_in(
    alloc: Global,
    clusters: u64,
    has_file: bool,
) -> Result<Result<Option<u64>, SizesFault>, AllocError> {
    let mut files = Vec::new(alloc);
    if has_file {
        put_file(&mut files, 0, file_of(alloc, &Row(true, 0, 4000, false))?)?;
    }
    let mut view = view(alloc)?;
    let mut body = Body::empty(alloc)?;
    Ok(first_broken(
        alloc,
        &mut view,
        per_cluster(1),
        clusters,
        &files,
        &mut body,
    ))
}

#[test]
fn the_first_number_is_found(rt: HostRuntime) -> Result<(), Fail> {
    // no bit for a cluster, and none for a record
    let rows = [(0, false, None), (24, false, Some(6)), (24, true, Some(0))];
    for (number, (clusters, has_file, want)) in rows.iter().enumerate() {
        let found = broken_in(rt.alloc(), *clusters, *has_file)?;
        assert_eq!(rt; found, Ok(*want), "row {number}");
    }
    Ok(())
}
