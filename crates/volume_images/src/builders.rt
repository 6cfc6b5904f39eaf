//! Records, their attributes, and views of blocks.
ghost use Rattle.std.specs.Prelude.{◌≡◌, ◌==◌, if◌then◌else◌, length};

use block_view::{Block, BlockKind, Held, MemoryView};
use disk_model::put_bytes;
use file_record::FileRec;
use host_base::{Bytes, FileRef};
use record_model::{Attr, Head, OwnForm, RecHead, Run, Sizes};
use state_model::ClusterSize;
use std::alloc::{AllocError, Global};
use utf16_name::Units;

/// What an attribute keeps.
#[derive(Clone, Copy)]
pub enum Kept<'a> {
    /// A value in the record.
    Value(&'a [u8]),
    /// Mapping pairs: their first VCN, the allocated, real and initialised sizes, and the pairs.
    Pairs(u64, (u64, u64, u64), &'a [u8]),
}

/// An attribute: its type, its flags, its name, and what it keeps.
#[derive(Drop)]
pub struct Part<'a>(pub u32, pub u16, pub &'a [u16], pub Kept<'a>);

fn form_of(alloc: Global, kept: Kept<'_>) -> Result<OwnForm, AllocError> {
    match kept {
        Kept::Value(value) => Ok(OwnForm::Resident {
            value: Bytes::copy_of(alloc, value)?,
            indexed: 0,
        }),
        Kept::Pairs(first, (allocated, real, initialised), pairs) => Ok(OwnForm::Mapped {
            sizes: Sizes {
                first,
                last: first,
                unit: 0,
                allocated,
                real,
                initialised,
                held: None,
            },
            pairs: Bytes::copy_of(alloc, pairs)?,
        }),
    }
}

fn attribute(alloc: Global, part: &Part<'_>) -> Result<Attr, AllocError> {
    Ok(Attr {
        head: Head {
            kind: part.0,
            flags: part.1,
            id: 0,
        },
        name: Units::copy_of(alloc, part.2)?,
        form: form_of(alloc, part.3)?,
    })
}

/// A base record with this number, sequence and flags, and with these attributes.
pub fn record(
    alloc: Global,
    (number, seq, flags): (u32, u16, u16),
    parts: &[Part<'_>],
) -> Result<FileRec, AllocError> {
    let head = RecHead {
        lsn: 0,
        seq,
        links: 1,
        flags,
        base: FileRef { number: 0, seq: 0 },
        next_id: 0,
        number,
    };
    let mut file = FileRec::empty(alloc, head);
    for part in parts {
        file.push(attribute(alloc, part)?)?;
    }
    Ok(file)
}

/// Puts a file behind the files, at this number where there are fewer.
pub fn put_file(
    files: &mut Vec<Option<FileRec>>,
    number: usize,
    file: FileRec,
) -> Result<(), AllocError> {
    for _ in files.len()..number {
        files.push(None).map_err(AllocError::from)?;
    }
    files.push(Some(file)).map_err(AllocError::from)?;
    Ok(())
}

// A sector with these bytes from a place on, and zeros elsewhere.
fn sector(alloc: Global, first: u64, at: usize, bytes: &[u8]) -> Result<Held, AllocError> {
    let mut room = vec![in alloc; 0u8; 512]?;
    if at <= 512 && bytes.len() <= 512 - at {
        put_bytes(&mut room, at, bytes);
    }
    Ok(Held {
        block: Block {
            first,
            kind: BlockKind::Plain,
        },
        bytes: Bytes::from(room),
        torn: false,
    })
}

/// A view of sectors by their first sector, place and bytes, whose call with this number fails.
pub fn sectors_view(
    alloc: Global,
    sectors: &[(u64, usize, &[u8])],
    failing: u64,
) -> Result<MemoryView, AllocError> {
    let mut held = Vec::new(alloc);
    for (first, at, bytes) in sectors {
        held.push(sector(alloc, *first, *at, bytes)?)?;
    }
    Ok(MemoryView::new(held, [failing].to_vec(alloc)?))
}

/// The index block at sector 16.
pub fn index_block() -> Block
    ensures { result.kind ≡ BlockKind.Index }
{
    Block {
        first: 16,
        kind: BlockKind::Index,
    }
}

/// A view of this index block, whose call with this number fails.
pub fn index_view(
    alloc: Global,
    body: Vec<u8>,
    torn: bool,
    failing: u64,
) -> Result<MemoryView, AllocError>
    requires { length body.items ≡ 4096 }
{
    let mut held = Vec::new(alloc);
    held.push(Held {
        block: index_block(),
        bytes: Bytes::from(body),
        torn,
    })?;
    Ok(MemoryView::new(held, [failing].to_vec(alloc)?))
}

/// The sectors of a cluster: 1, or 8 for any other number.
pub fn per_cluster(sectors: u8) -> ClusterSize
    ensures { result ≡ (if sectors == 1 then 1 else 8) }
{
    if sectors == 1 {
        ClusterSize::new(1).unwrap()
    } else {
        ClusterSize::new(8).unwrap()
    }
}

/// A run of clusters.
pub fn run(vcn: u64, lcn: Option<u64>, len: u64) -> Run
    ensures { result ≡ record { vcn = vcn; lcn = lcn; len = len } }
{
    Run { vcn, lcn, len }
}
