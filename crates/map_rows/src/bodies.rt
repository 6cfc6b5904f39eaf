//! Bodies of file records, as they are written.
ghost use Rattle.std.specs.Prelude.{◌≡◌, length, IfOk};

use crate::layouts::{INDEX_PIECE, LIST_PIECE, Layout};
use file_record::FileRec;
use host_base::{Bytes, FileRef};
use record_model::{Attr, Head, OwnForm, RecHead, Sizes};
use record_writer::WrittenRecord;
use std::alloc::{AllocError, Global};
use utf16_name::Units;

/// A stream in clusters: its type and name, its runs, each with its clusters and the first of them
/// (none of a hole), and its real and initialised sizes in bytes.
#[derive(Drop)]
pub struct Placed<'a> {
    pub kind: u32,
    pub name: &'a [u16],
    pub runs: &'a [(u16, Option<u16>)],
    pub sizes: (u64, u64),
}

// Mapping pairs with two bytes of length and of offset, filled up with zeros.
fn pairs_of(alloc: Global, runs: &[(u16, Option<u16>)]) -> Result<Vec<u8>, AllocError> {
    let mut pairs = Vec::new(alloc);
    let mut last = 0u16;
    for (len, lcn) in runs {
        pairs.push(if lcn.is_some() { 0x22 } else { 0x02 })?;
        pairs.extend_from_slice(len.to_le_bytes().as_slice())?;
        if let Some(lcn) = lcn {
            pairs.extend_from_slice(lcn.wrapping_sub(last).to_le_bytes().as_slice())?;
            last = *lcn;
        }
    }
    pairs.push(0)?;
    for _ in 0..7 {
        if pairs.len() % 8 != 0 {
            pairs.push(0)?;
        }
    }
    Ok(pairs)
}

fn total(runs: &[(u16, Option<u16>)]) -> u64 {
    let mut clusters = 0u64;
    for (len, _) in runs {
        clusters = clusters.saturating_add(u64::from(*len));
    }
    clusters
}

/// An attribute in clusters.
pub fn in_clusters(alloc: Global, layout: Layout, stream: &Placed<'_>) -> Result<Attr, AllocError> {
    let clusters = total(stream.runs);
    Ok(Attr {
        head: Head {
            kind: stream.kind,
            flags: 0,
            id: 0,
        },
        name: Units::copy_of(alloc, stream.name)?,
        form: OwnForm::Mapped {
            sizes: Sizes {
                first: 0,
                last: clusters.saturating_sub(1),
                unit: 0,
                allocated: clusters
                    .saturating_mul(512)
                    .saturating_mul(u64::from(layout.per)),
                real: stream.sizes.0,
                initialised: stream.sizes.1,
                held: None,
            },
            pairs: Bytes::from(pairs_of(alloc, stream.runs)?),
        },
    })
}

/// An attribute with a value in the record.
pub fn resident(alloc: Global, kind: u32, value: &[u8]) -> Result<Attr, AllocError> {
    Ok(Attr {
        head: Head {
            kind,
            flags: 0,
            id: 0,
        },
        name: Units::new(alloc),
        form: OwnForm::Resident {
            value: Bytes::copy_of(alloc, value)?,
            indexed: 0,
        },
    })
}

/// What the header of a record says: its number, its flags, and the number of its base, 0 in a base
/// record. A record's sequence is one more than its number.
#[derive(Clone, Copy)]
pub struct Named {
    pub number: u16,
    pub flags: u16,
    pub base: u16,
}

/// A record's sequence.
pub fn sequence(number: u16) -> u16 {
    number.saturating_add(1)
}

/// A record without attributes.
pub fn bare(alloc: Global, named: Named) -> FileRec {
    FileRec::empty(
        alloc,
        RecHead {
            lsn: 0,
            seq: sequence(named.number),
            links: 0,
            flags: named.flags,
            base: FileRef {
                number: u64::from(named.base),
                seq: if named.base == 0 {
                    0
                } else {
                    sequence(named.base)
                },
            },
            next_id: 1,
            number: u32::from(named.number),
        },
    )
}

/// The body of a record; zeros where it has no spelling.
pub fn spelled(alloc: Global, file: &FileRec) -> Result<Vec<u8>, AllocError>
    ensures { IfOk result (λ body. length body.items ≡ 1024) }
{
    let mut body = vec![in alloc; 0u8; 1024]?;
    if file.has_spelling() {
        file.write(&mut body);
    }
    Ok(body)
}

/// The entry of an attribute list that names the data in this record.
pub fn entry(holder: u16) -> [u8; 0x20] {
    let mut entry = [0; 0x20];
    let number = holder.to_le_bytes();
    let seq = sequence(holder).to_le_bytes();
    entry[0x00] = 0x80;
    entry[0x04] = 0x20;
    entry[0x07] = 0x1a;
    entry[0x10] = number[0];
    entry[0x11] = number[1];
    entry[0x16] = seq[0];
    entry[0x17] = seq[1];
    entry
}

/// A file with data in its record.
pub fn with_data(alloc: Global, named: Named, value: &[u8]) -> Result<FileRec, AllocError> {
    let mut file = bare(alloc, named);
    file.push(resident(alloc, 0x80, value)?)?;
    Ok(file)
}

/// A file whose attribute list, in its record, names the data in another one.
pub fn with_list(alloc: Global, named: Named, holder: u16) -> Result<FileRec, AllocError> {
    let mut file = bare(alloc, named);
    file.push(resident(alloc, 0x20, &entry(holder))?)?;
    Ok(file)
}

/// A file whose attribute list lies in clusters.
pub fn with_far_list(alloc: Global, layout: Layout, named: Named) -> Result<FileRec, AllocError> {
    let mut file = bare(alloc, named);
    file.push(in_clusters(
        alloc,
        layout,
        &Placed {
            kind: 0x20,
            name: &[],
            runs: &[(1, Some(layout.clusters(LIST_PIECE)))],
            sizes: (0x20, 0x20),
        },
    )?)?;
    Ok(file)
}

/// A directory with one index block, which lies in two runs where that can be and is asked for.
pub fn directory(
    alloc: Global,
    layout: Layout,
    named: Named,
    cut: bool,
) -> Result<FileRec, AllocError> {
    let first = layout.clusters(INDEX_PIECE);
    let half = layout.clusters(1) / 2;
    let whole = [(layout.clusters(1), Some(first))];
    let two = [
        (half, Some(first)),
        (half, Some(first.saturating_add(half).saturating_add(1))),
    ];
    let is_cut = cut && half != 0;
    let mut file = bare(alloc, named);
    file.push(in_clusters(
        alloc,
        layout,
        &Placed {
            kind: 0xa0,
            name: &[0x24, 0x49, 0x33, 0x30],
            runs: if is_cut { &two } else { &whole },
            sizes: (4096, 4096),
        },
    )?)?;
    Ok(file)
}
