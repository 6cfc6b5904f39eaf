//! A loaded volume with one file, and operations on it.
ghost use Rattle.std.specs.Prelude.{◌≡◌, ◌≤◌, true, IfOk, length};
ghost use Rattle.tree_model.specs.Steps.{IsWithinBounds};
ghost use Rattle.change_plan.specs.States.{is_data_change};

use bit_set::BitSet;
use block_view::{Block, BlockKind, Body, Held, MemoryView, View, ViewFault};
use change_plan::{VolumeStreams, data_extents};
use file_record::FileRec;
use host_base::Bytes;
use record_model::{DATA, FILE_NAME, INDEX_ROOT, NAMES_INDEX, STANDARD_INFORMATION};
use record_writer::WrittenRecord;
use state_model::Extents;
use std::alloc::{AllocError, Global};
use std::test::Fail;
use tree_model::{Op, Path, Units};
use volume_images::{Kept, Part, per_cluster, put_file, record};
use volume_map::VolumeMap;

/// An operation: the parts of its path, and the words behind it.
pub enum Asked {
    Write(&'static [&'static str], u32, &'static [u8]),
    Fill(&'static [&'static str], u32, u32),
    Truncate(&'static [&'static str], u32),
}

/// A view of a content that nobody knows.
#[derive(Drop)]
pub struct BlindView {
    pub view: MemoryView,
}

impl View for BlindView {
    ghost use Rattle.std.specs.Prelude.{None};

    ghost content = { λ _. None };

    ghost faults = { λ v. ⟦<MemoryView as View>⟧.faults v.view };

    ghost Kept = { Unit {0} };

    ghost kept = { λ _. tt };

    fn body(&mut self, block: Block, out: &mut Body) -> Result<(), ViewFault> {
        self.view.body(block, out)
    }

    ghost sized = { λ _. tt };
}

// The root of an index with the name `a` of the file 24 in the directory 5, whose value stands from
// 0x30 to 0x74.
static ROOT: [u8; 0x88] = [
    0x30, 0, 0, 0, 1, 0, 0, 0, 0, 0x10, 0, 0, 1, 0, 0, 0, 0x10, 0, 0, 0, 0x78, 0, 0, 0, 0x78, 0, 0,
    0, 0, 0, 0, 0, 24, 0, 0, 0, 0, 0, 1, 0, 0x58, 0, 0x44, 0, 0, 0, 0, 0, 5, 0, 0, 0, 0, 0, 5, 0,
    0, 0, 0, 0, 0, 0, 0, 0, 0, 0, 0, 0, 0, 0, 0, 0, 0, 0, 0, 0, 0, 0, 0, 0, 0, 0, 0, 0, 0, 0, 0, 0,
    0, 0, 0, 0, 0, 0, 0, 0, 0, 0, 0, 0, 0, 0, 0, 0, 0, 0, 0, 0, 0, 0, 0, 0, 1, 0, 0x61, 0, 0, 0, 0,
    0, 0, 0, 0, 0, 0, 0, 0, 0, 0x10, 0, 0, 0, 2, 0, 0, 0,
];

// The name `.` of the root, which stands in the root itself.
static ROOT_NAME: [u8; 0x44] = [
    5, 0, 0, 0, 0, 0, 5, 0, 0, 0, 0, 0, 0, 0, 0, 0, 0, 0, 0, 0, 0, 0, 0, 0, 0, 0, 0, 0, 0, 0, 0, 0,
    0, 0, 0, 0, 0, 0, 0, 0, 0, 0, 0, 0, 0, 0, 0, 0, 0, 0, 0, 0, 0, 0, 0, 0, 0, 0, 0, 0, 0, 0, 0, 0,
    1, 3, 0x2E, 0,
];

// The file `a` with the data `abcd`.
fn file(alloc: Global) -> Result<FileRec, AllocError> {
    let parts = [
        Part(STANDARD_INFORMATION, 0, &[], Kept::Value(&[0; 72])),
        Part(FILE_NAME, 0, &[], Kept::Value(&ROOT[0x30..0x74])),
        Part(DATA, 0, &[], Kept::Value(b"abcd")),
    ];
    record(alloc, (24, 1, 1), &parts)
}

// The root directory and the file.
fn files(alloc: Global) -> Result<Vec<Option<FileRec>>, AllocError> {
    let mut files = Vec::new(alloc);
    let root = [
        Part(FILE_NAME, 0, &[], Kept::Value(&ROOT_NAME)),
        Part(INDEX_ROOT, 0, &NAMES_INDEX, Kept::Value(&ROOT)),
    ];
    put_file(&mut files, 5, record(alloc, (5, 5, 3), &root)?)?;
    put_file(&mut files, 24, file(alloc)?)?;
    Ok(files)
}

// Data of so many bytes in the clusters of these mapping pairs.
fn extents(alloc: Global, pairs: &[u8], bytes: u64) -> Result<Extents, Fail> {
    let data = Part(DATA, 0, &[], Kept::Pairs(0, (bytes, bytes, bytes), pairs));
    Ok(data_extents(alloc, &record(alloc, (0, 1, 1), &[data])?)?)
}

// 64 records from cluster 4 on.
fn table(alloc: Global) -> Result<Extents, Fail> {
    extents(alloc, &[0x11, 16, 4, 0, 0, 0, 0, 0], 65_536)
}

/// The streams of the volume: its mirror in cluster 30, and the bits of its clusters in cluster 31.
pub fn streams(alloc: Global) -> Result<VolumeStreams, Fail> {
    Ok(VolumeStreams {
        table: table(alloc)?,
        mirror: extents(alloc, &[0x11, 1, 30, 0, 0, 0, 0, 0], 4096)?,
        bitmap: extents(alloc, &[0x11, 1, 31, 0, 0, 0, 0, 0], 4096)?,
    })
}

/// A volume of 256 clusters of 8 sectors, of which so many times 8 are taken.
pub fn volume(alloc: Global, taken: u8) -> Result<VolumeMap, Fail> {
    let mut bits = vec![in alloc; 0u8; 32]?;
    for (i, byte) in bits.iter_mut().enumerate() {
        if i < taken as usize {
            *byte = 0xFF;
        }
    }
    Ok(VolumeMap {
        per_cluster: per_cluster(8),
        clusters: 256,
        mft: 4,
        table: table(alloc)?,
        files: files(alloc)?,
        heads: Vec::new(alloc),
        record_bits: BitSet::from_bytes(alloc, &[0; 8], 64)?,
        cluster_bits: BitSet::from_bytes(alloc, &bits, 256)?,
    })
}

// The body of the file's record.
fn body(alloc: Global) -> Result<Vec<u8>, AllocError>
    ensures { IfOk result (λ body. length body.items ≡ 1024) }
{
    let file = file(alloc)?;
    let mut body = vec![in alloc; 0u8; 1024]?;
    if file.has_spelling() {
        file.write(&mut body);
    }
    Ok(body)
}

/// A view of the file's record and zeros elsewhere, of which the call with this number fails.
pub fn view(alloc: Global, failing: u64) -> Result<BlindView, Fail> {
    let mut held = Vec::new(alloc);
    held.push(Held {
        block: Block {
            first: 80,
            kind: BlockKind::FileRec,
        },
        bytes: Bytes::from(body(alloc)?),
        torn: false,
    })?;
    Ok(BlindView {
        view: MemoryView::new(held, [failing].to_vec(alloc)?),
    })
}

// A part of a path, which need be no name: a unit for each letter.
fn part(alloc: Global, letters: &str) -> Result<Units, Fail> {
    let mut units = Vec::new(alloc);
    for letter in letters.as_bytes() {
        units.push(u16::from(*letter))?;
    }
    Ok(Units::from(units))
}

fn path(alloc: Global, parts: &[&str]) -> Result<Path, Fail> {
    let mut path = Path::new(alloc);
    for letters in parts {
        path.push(part(alloc, letters)?)?;
    }
    Ok(path)
}

// No more bytes than one operation may have.
fn some_bytes(bytes: &[u8]) -> &[u8]
    ensures { length result.now ≤ 65536 }
{
    bytes.split_at(bytes.len().min(65_536)).0
}

/// The operation; a fill has 7 as its byte.
pub fn op(alloc: Global, asked: &Asked) -> Result<Op, Fail>
    ensures bounds { IfOk result (λ op. IsWithinBounds op) }
    ensures changes { IfOk result (λ op. is_data_change op ≡ true) }
{
    match asked {
        Asked::Write(parts, offset, bytes) => Ok(Op::Write {
            path: path(alloc, parts)?,
            offset: u64::from(*offset),
            bytes: Bytes::copy_of(alloc, some_bytes(bytes))?,
        }),
        Asked::Fill(parts, offset, count) => Ok(Op::Fill {
            path: path(alloc, parts)?,
            offset: u64::from(*offset),
            count: u64::from(*count).min(65_536),
            byte: 7,
        }),
        Asked::Truncate(parts, size) => Ok(Op::Truncate {
            path: path(alloc, parts)?,
            size: u64::from(*size),
        }),
    }
}
