//! Indexes of directories: where they lie, and what they hold.
ghost use Rattle.std.specs.Prelude.{◌≡◌, length, IfOk};

use block_view::MemoryView;
use directory_index::{first_broken, index_links, index_place};
use disk_model::put_bytes;
use file_record::FileRec;
use index_tree::{find, walk};
use record_model::{FILE_NAME, INDEX_ALLOCATION, INDEX_ROOT, NAMES_INDEX};
use record_rules::{counts_in, links_in};
use state_model::ClusterSize;
use std::alloc::{AllocError, Global};
use std::test::Fail;
use upcase_order::Upcase;
use utf16_name::Name;
use volume_images::{Kept, Part, index_block, index_view, per_cluster, put_file, record};

// A directory with one name, whose key stands in the index block at sector 16: the sectors of a
// cluster, the mapping pairs of its allocation, the initialised size, and whether the index is
// found to hold the name. Without mapping pairs the key stands in the root.
struct Row(u8, &'static [u8], u64, bool);

static ROWS: [Row; 7] = [
    Row(8, &[], 0, true),
    Row(8, &[0x11, 1, 2, 0], 4096, true),
    Row(1, &[0x11, 8, 16, 0], 4096, true),
    // a sparse run, a block of zeros, a block in two runs, one past the initialised size
    Row(8, &[0x01, 1, 0], 4096, false),
    Row(8, &[0x11, 1, 4, 0], 4096, false),
    Row(1, &[0x11, 4, 16, 0x11, 4, 4, 0], 4096, false),
    Row(8, &[0x11, 1, 2, 0], 0, false),
];

// The root with the name `a` of the file 24 in the directory 5: the root's fields, the node's, the
// entry's, the name from 0x30 on, and the last entry.
static NAMED_ROOT: [u8; 0x88] = [
    0x30, 0, 0, 0, 1, 0, 0, 0, 0, 0x10, 0, 0, 1, 0, 0, 0, 0x10, 0, 0, 0, 0x78, 0, 0, 0, 0x78, 0, 0,
    0, 0, 0, 0, 0, 24, 0, 0, 0, 0, 0, 1, 0, 0x58, 0, 0x44, 0, 0, 0, 0, 0, 5, 0, 0, 0, 0, 0, 5, 0,
    0, 0, 0, 0, 0, 0, 0, 0, 0, 0, 0, 0, 0, 0, 0, 0, 0, 0, 0, 0, 0, 0, 0, 0, 0, 0, 0, 0, 0, 0, 0, 0,
    0, 0, 0, 0, 0, 0, 0, 0, 0, 0, 0, 0, 0, 0, 0, 0, 0, 0, 0, 0, 0, 0, 0, 0, 1, 0, 0x61, 0, 0, 0, 0,
    0, 0, 0, 0, 0, 0, 0, 0, 0, 0x10, 0, 0, 0, 2, 0, 0, 0,
];

// The root with the block 0 below its last entry.
static BARE_ROOT: [u8; 0x38] = [
    0x30, 0, 0, 0, 1, 0, 0, 0, 0, 0x10, 0, 0, 1, 0, 0, 0, 0x10, 0, 0, 0, 0x28, 0, 0, 0, 0x28, 0, 0,
    0, 1, 0, 0, 0, 0, 0, 0, 0, 0, 0, 0, 0, 0x18, 0, 0, 0, 3, 0, 0, 0, 0, 0, 0, 0, 0, 0, 0, 0,
];

// A view of the index block with the node of the name.
fn view_of(alloc: Global) -> Result<MemoryView, AllocError> {
    let mut body = vec![in alloc; 0u8; 4096]?;
    put_bytes(&mut body, 0x00, b"INDX");
    put_bytes(&mut body, 0x18, &NAMED_ROOT[0x10..]);
    index_view(alloc, body, false, 0)
}

fn directory(alloc: Global, row: &Row) -> Result<FileRec, AllocError> {
    let root = if row.1.is_empty() {
        NAMED_ROOT.as_slice()
    } else {
        BARE_ROOT.as_slice()
    };
    let pairs = Kept::Pairs(0, (4096, 4096, row.2), row.1);
    let parts = [
        Part(INDEX_ROOT, 0, &NAMES_INDEX, Kept::Value(root)),
        Part(INDEX_ALLOCATION, 0, &NAMES_INDEX, pairs),
    ];
    record(alloc, (5, 5, 3), &parts)
}

// The directory 5 and the file 24, which stands in it.
fn files_of(alloc: Global, row: &Row) -> Result<Vec<Option<FileRec>>, AllocError> {
    let mut files = Vec::new(alloc);
    put_file(&mut files, 5, directory(alloc, row)?)?;
    let name = Part(FILE_NAME, 0, &[], Kept::Value(&NAMED_ROOT[0x30..0x74]));
    put_file(&mut files, 24, record(alloc, (24, 1, 1), &[name])?)?;
    Ok(files)
}

// The least directory at fault among these files.
fn broken_in(
    alloc: Global,
    per: ClusterSize,
    files: &[Option<FileRec>],
) -> Result<Option<u64>, Fail> {
    let links = links_in(alloc, files)?;
    let counts = counts_in(alloc, files, &links)?;
    let up = Upcase::standard(alloc)?;
    let mut view = view_of(alloc)?;
    Ok(first_broken(alloc, &mut view, per, &up, files, &links, &counts)?)
}

fn is_as_wanted(alloc: Global, row: &Row) -> Result<bool, Fail> {
    let files = files_of(alloc, row)?;
    let found = broken_in(alloc, per_cluster(row.0), &files)?;
    Ok(found == if row.3 { None } else { Some(5) })
}

#[test]
fn finds_the_directory_at_fault(rt: HostRuntime) -> Result<(), Fail> {
    for (i, row) in ROWS.iter().enumerate() {
        assert!(rt; is_as_wanted(rt.alloc(), row)?, "row {i}");
    }
    Ok(())
}

#[test]
fn places_an_index(rt: HostRuntime) -> Result<(), Fail> {
    let file = directory(rt.alloc(), &ROWS[1])?;
    let place = index_place(rt.alloc(), per_cluster(8), &file)?.ok_or("no place")?;
    assert_eq!(rt;
        (place.blocks.len(), place.blocks.get(0)),
        (1, Some(index_block()))
    );
    assert_eq!(rt; (place.step, place.used), (1, 0));
    Ok(())
}

// An allocation in two pieces: the mapping pairs of the first one, the first VCN and the pairs of
// the second one, and the real and the initialised size.
struct Pieces(&'static [u8], u64, &'static [u8], u64, u64);

// The end of every allocation that a table of runs reaches here.
const FAR: u64 = 0x0004_0000_0000_0000;

// A first sector past the end of every disk.
const VOID: u64 = 0x4000_0000_0000_0000;

// The sectors of a cluster; how many blocks an allocation has, the number of one, and its first
// sector, if there is one.
struct Asked(u8, u64, u64, Option<u64>);

// An allocation, and what is asked of it.
struct Placed(Pieces, &'static [Asked]);

static PLACED: [Placed; 3] = [
    // runs in order
    Placed(
        Pieces(
            &[0x11, 2, 2, 0x11, 2, 6, 0],
            4,
            &[0x01, 2, 0x11, 1, 9, 0],
            7 * 4096,
            7 * 4096,
        ),
        &[
            Asked(8, 7, 1, Some(24)),
            Asked(8, 7, 2, Some(64)),
            Asked(8, 7, 5, Some(VOID)),
            Asked(8, 7, 6, Some(72)),
            Asked(8, 7, 7, None),
        ],
    ),
    // the second piece begins inside the first one; four clusters hold no block of eight
    Placed(
        Pieces(&[0x11, 2, 2, 0], 1, &[0x11, 3, 8, 0], 4 * 4096, 3 * 4096),
        &[
            Asked(8, 4, 1, Some(24)),
            Asked(8, 4, 2, Some(72)),
            Asked(8, 4, 3, Some(VOID)),
            Asked(1, 0, 0, None),
        ],
    ),
    // one block, and behind it 2^32 sparse clusters that end at cluster 2^50
    Placed(
        Pieces(
            &[0x11, 1, 2, 0],
            FAR - 0x1_0000_0000,
            &[0x05, 0, 0, 0, 0, 1, 0],
            VOID,
            VOID,
        ),
        &[
            Asked(8, FAR, 0, Some(16)),
            Asked(8, FAR, FAR - 1, Some(VOID)),
            Asked(1, FAR / 8, FAR / 8, None),
        ],
    ),
];

// The directory whose index has this allocation, with its block 0 below its root.
fn directory_in(alloc: Global, pieces: &Pieces) -> Result<FileRec, AllocError> {
    let sizes = (pieces.3, pieces.3, pieces.4);
    let parts = [
        Part(INDEX_ROOT, 0, &NAMES_INDEX, Kept::Value(&BARE_ROOT)),
        Part(
            INDEX_ALLOCATION,
            0,
            &NAMES_INDEX,
            Kept::Pairs(0, sizes, pieces.0),
        ),
        Part(
            INDEX_ALLOCATION,
            0,
            &NAMES_INDEX,
            Kept::Pairs(pieces.1, sizes, pieces.2),
        ),
    ];
    record(alloc, (5, 5, 3), &parts)
}

// How many blocks an allocation has, and the first sector of one of them.
fn found_in(
    alloc: Global,
    pieces: &Pieces,
    asked: &Asked,
) -> Result<Option<(u64, Option<u64>)>, Fail> {
    let file = directory_in(alloc, pieces)?;
    let Some(found) = index_place(alloc, per_cluster(asked.0), &file)? else {
        return Ok(None);
    };
    let first = found.blocks.get(asked.2).map(|block| block.first);
    Ok(Some((found.blocks.len(), first)))
}

#[test]
fn finds_a_block_by_its_number(rt: HostRuntime) -> Result<(), Fail> {
    for (i, Placed(pieces, rows)) in PLACED.iter().enumerate() {
        for asked in *rows {
            let found = found_in(rt.alloc(), pieces, asked)?;
            assert_eq!(rt;
                found,
                Some((asked.1, asked.3)),
                "row {i}, block {}",
                asked.2
            );
        }
    }
    Ok(())
}

// How many names a walk over an index in 2^50 clusters gives, and how many a search for one name.
#[test]
fn walks_a_sparse_allocation(rt: HostRuntime) -> Result<(), Fail> {
    let file = directory_in(rt.alloc(), &PLACED[2].0)?;
    let up = Upcase::standard(rt.alloc())?;
    let name = Name::checked(rt.alloc(), &[0x41])?;
    let mut view = view_of(rt.alloc())?;
    let place = index_place(rt.alloc(), per_cluster(8), &file)?.ok_or("no place")?;
    let walked = walk(rt.alloc(), &mut view, &place, &up)?;
    let found = find(rt.alloc(), &mut view, &place, &up, &name)?;
    assert_eq!(rt; (walked.as_slice().len(), found.as_slice().len()), (1, 1));
    Ok(())
}

#[test]
fn reads_an_index(rt: HostRuntime) -> Result<(), Fail> {
    let file = directory(rt.alloc(), &ROWS[1])?;
    let up = Upcase::standard(rt.alloc())?;
    let mut view = view_of(rt.alloc())?;
    let links = index_links(rt.alloc(), &mut view, per_cluster(8), &up, &file)?.ok_or("no links")?;
    assert_eq!(rt; links.as_slice().len(), 1);
    Ok(())
}
