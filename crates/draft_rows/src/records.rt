//! Records that a draft puts and reads.
ghost use Rattle.std.specs.Prelude.{◌<◌, ◌^◌, IfOk};

use crate::changes::{Told, told};
use block_view::MemoryView;
use disk_model::Body;
use draft_records::{DraftFault, data_extents, file, put_file, spelled_fits_by_room};
use host_base::{Bytes, FileRef, Memory};
use plan_draft::Draft;
use record_model::{Attr, Head, OwnForm, RecHead, Sizes};
use record_writer::{FileRec, WrittenRecord};
use state_model::{ClusterSize, Extents};
use std::alloc::{AllocError, Global};
use std::test::Fail;
use utf16_name::Units;

// The header of a record in use with LSN 5, which says that it has nine links.
fn head(number: u32) -> RecHead {
    RecHead {
        lsn: 5,
        seq: 1,
        links: 9,
        flags: 1,
        base: FileRef { number: 0, seq: 0 },
        next_id: 1,
        number,
    }
}

// A record of data with these pairs, of so many records.
fn data(alloc: Global, pairs: &[u8], records: u16) -> Result<FileRec, AllocError> {
    let mut file = FileRec::empty(alloc, head(0));
    let bytes = 1024 * u64::from(records);
    file.push(Attr {
        head: Head {
            kind: 0x80,
            flags: 0,
            id: 0,
        },
        name: Units::new(alloc),
        form: OwnForm::Mapped {
            sizes: Sizes {
                first: 0,
                last: 0,
                unit: 0,
                allocated: bytes,
                real: bytes,
                initialised: bytes,
                held: None,
            },
            pairs: Bytes::copy_of(alloc, pairs)?,
        },
    })?;
    Ok(file)
}

// The clusters of such data.
fn extents(alloc: Global, pairs: &[u8], records: u16) -> Result<Extents, AllocError> {
    let file = data(alloc, pairs, records)?;
    match data_extents(alloc, &file) {
        Ok(extents) => Ok(extents),
        Err(Memory) => Err(AllocError),
    }
}

// The LSN and the links of a record that was put and is read again.
fn put_and_read(
    alloc: Global,
    draft: &mut Draft<'_, MemoryView>,
    table: &Extents,
    mirror: &Extents,
    number: u32,
) -> Result<Option<(u64, u16)>, DraftFault> {
    let Some(per) = ClusterSize::new(1) else {
        return Ok(None);
    };
    let new = FileRec::empty(alloc, head(number));
    spelled_fits_by_room();
    if !new.has_spelling() {
        return Ok(None);
    }
    put_file(draft, alloc, per, table, mirror, u64::from(number), &new)?;
    let read = file(draft, alloc, per, table, u64::from(number))?;
    match read {
        Some(read) => Ok(Some((read.head().lsn, read.head().links))),
        None => Ok(None),
    }
}

// What is read of a record, and the changes to which the draft comes.
type Put = (Option<(u64, u16)>, Vec<Told>);

// The table has sixteen records from sector 8 on, and room for 32; the mirror from 100 on.
fn put(alloc: Global, mirrored: u16, number: u32) -> Result<Put, DraftFault> {
    let table = extents(alloc, &[0x11, 64, 8, 0, 0, 0, 0, 0], 16)?;
    let mirror = extents(alloc, &[0x11, 8, 100, 0, 0, 0, 0, 0], mirrored)?;
    let mut view = MemoryView::new(Vec::new(alloc), Vec::new(alloc));
    let mut draft = Draft::new(alloc, Body::empty(alloc)?, &mut view);
    let read = put_and_read(alloc, &mut draft, &table, &mirror, number)?;
    let changes = draft.finish(alloc)?;
    Ok((read, told(alloc, &changes)?))
}

const KEPT: Option<(u64, u16)> = Some((5, 0));

static CASES: [(u16, u32, Option<(u64, u16)>, &[Told]); 4] = [
    (
        4,
        2,
        KEPT,
        &[(12, 0, 60, Some(0x46)), (104, 0, 60, Some(0x46))],
    ),
    (3, 3, KEPT, &[(14, 0, 60, Some(0x46))]),
    (4, 4, KEPT, &[(16, 0, 60, Some(0x46))]),
    (4, 20, None, &[(48, 0, 1024, Some(0x46))]),
];

#[test]
fn records_are_put_and_mirrored(rt: HostRuntime) -> Result<(), Fail> {
    for (mirrored, number, want, changes) in &CASES {
        let (read, made) = put(rt.alloc(), *mirrored, *number)?;
        assert_eq!(rt; read, *want, "{number}");
        assert_eq!(rt; made.as_slice(), *changes, "{number}");
    }
    Ok(())
}
