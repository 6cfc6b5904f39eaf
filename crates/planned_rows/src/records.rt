//! Bitmaps and file tables as they are read of records.
ghost use Rattle.std.specs.Prelude.{IfOk, IfSome};
ghost use Rattle.record_streams.specs.Fitting.{FitsButRoom};

use host_base::{Bytes, FileRef};
use planned_streams::{Bitmap, FileRec, Stream, bitmap_of, spelled_fits_but_room, table_of};
use record_model::{Attr, BITMAP_TYPE, DATA, Head, OwnForm, RecHead, Sizes};
use record_writer::WrittenRecord;
use std::alloc::Global;
use std::test::Fail;
use utf16_name::Units;

// Four clusters from cluster 5 on, and four from cluster 9 on, with the bytes that fill them up.
static FRONT: [u8; 8] = [0x11, 4, 5, 0, 0, 0, 0, 0];

static BEHIND: [u8; 8] = [0x11, 4, 9, 0, 0, 0, 0, 0];

// What stands in a record as its data or as its bitmap: nothing, a value of so many bytes, or pairs
// with their first VCN and their real and initialised size.
#[derive(Clone, Copy)]
enum Standing {
    Nothing,
    Value(u16),
    Pairs(u8, u64, u64),
}

// What a bitmap of a record is read as: the bytes of its value, or its real size.
#[derive(Clone, Copy, Debug, PartialEq)]
enum Read {
    Held(u64),
    Placed(u64),
}

// A bitmap in clusters is one where its runs begin with VCN 0 and its initialised size is below
// 2^61.
static BITMAPS: [(Standing, Option<Read>); 7] = [
    (Standing::Nothing, None),
    (Standing::Value(0), Some(Read::Held(0))),
    (Standing::Value(700), Some(Read::Held(700))),
    (Standing::Pairs(0, 9, 8), Some(Read::Placed(9))),
    (Standing::Pairs(1, 9, 8), None),
    (
        Standing::Pairs(0, 9, 0x1FFF_FFFF_FFFF_FFFF),
        Some(Read::Placed(9)),
    ),
    (Standing::Pairs(0, 9, 0x2000_0000_0000_0000), None),
];

// A volume's clusters, the data and the bitmap of a record, and the real size of a table's records,
// where it is one that may grow.
struct Row(u64, Standing, Standing, Option<u64>);

// The data end in cluster 8 and the bitmap in 12. A bitmap that is a value may come to have 65,536
// bytes, for 524,288 records, 256 of them new.
static TABLES: [Row; 13] = [
    Row(13, PLAIN, PLAIN, Some(16_384)),
    Row(12, PLAIN, PLAIN, None),
    Row(9, PLAIN, Standing::Value(2), Some(16_384)),
    Row(8, PLAIN, Standing::Value(2), None),
    Row(0x1_0000_0000, PLAIN, PLAIN, Some(16_384)),
    Row(0x1_0000_0001, PLAIN, PLAIN, None),
    Row(13, Standing::Nothing, PLAIN, None),
    Row(13, Standing::Value(700), Standing::Value(2), None),
    Row(13, PLAIN, Standing::Nothing, None),
    Row(13, Standing::Pairs(1, 16_384, 16_384), PLAIN, None),
    Row(13, PLAIN, Standing::Pairs(0, 0x8000_0000, 0), None),
    Row(
        13,
        Standing::Pairs(0, 1024 * 524_032, 0),
        Standing::Value(2),
        Some(1024 * 524_032),
    ),
    Row(
        13,
        Standing::Pairs(0, 1024 * 524_033, 0),
        Standing::Value(2),
        None,
    ),
];

const PLAIN: Standing = Standing::Pairs(0, 16_384, 16_384);

// The header of record 0 in use.
fn head() -> RecHead {
    RecHead {
        lsn: 0,
        seq: 1,
        links: 0,
        flags: 1,
        base: FileRef { number: 0, seq: 0 },
        next_id: 2,
        number: 0,
    }
}

// So many zeros.
fn held(alloc: Global, count: u16) -> Result<OwnForm, Fail> {
    let mut value = Vec::new(alloc);
    value.resize(usize::from(count), 0)?;
    Ok(OwnForm::Resident {
        value: Bytes::from(value),
        indexed: 0,
    })
}

fn mapped(
    alloc: Global,
    first: u8,
    real: u64,
    initialised: u64,
    pairs: &[u8],
) -> Result<OwnForm, Fail> {
    let first = u64::from(first);
    Ok(OwnForm::Mapped {
        sizes: Sizes {
            first,
            last: first + 3,
            unit: 0,
            allocated: 16_384,
            real,
            initialised,
            held: None,
        },
        pairs: Bytes::copy_of(alloc, pairs)?,
    })
}

fn form_of(alloc: Global, standing: Standing, pairs: &[u8]) -> Result<Option<OwnForm>, Fail> {
    match standing {
        Standing::Nothing => Ok(None),
        Standing::Value(count) => Ok(Some(held(alloc, count)?)),
        Standing::Pairs(first, real, initialised) => {
            Ok(Some(mapped(alloc, first, real, initialised, pairs)?))
        }
    }
}

// Puts an attribute of this type behind the others, if one stands there.
fn push(
    alloc: Global,
    file: &mut FileRec,
    kind: u32,
    standing: Standing,
    pairs: &[u8],
) -> Result<(), Fail> {
    if let Some(form) = form_of(alloc, standing, pairs)? {
        file.push(Attr {
            head: Head {
                kind,
                flags: 0,
                id: 0,
            },
            name: Units::new(alloc),
            form,
        })?;
    }
    Ok(())
}

// The record where it has a spelling.
fn spelled(file: FileRec) -> Option<FileRec>
    ensures { IfSome result FitsButRoom }
{
    spelled_fits_but_room();
    if file.has_spelling() {
        Some(file)
    } else {
        None
    }
}

// A record with this data and this bitmap, if it has a spelling.
fn file_with(alloc: Global, data: Standing, bitmap: Standing) -> Result<Option<FileRec>, Fail>
    ensures { IfOk result (λ file. IfSome file FitsButRoom) }
{
    let mut file = FileRec::empty(alloc, head());
    push(alloc, &mut file, DATA, data, &FRONT)?;
    push(alloc, &mut file, BITMAP_TYPE, bitmap, &BEHIND)?;
    Ok(spelled(file))
}

fn read_as(stream: &Stream) -> Read {
    match stream {
        Stream::Held(value) => Read::Held(value.len() as u64),
        Stream::Placed(extents) => Read::Placed(extents.real),
    }
}

// The bitmap of record 0, if it has one that may be changed.
fn bitmap_in(alloc: Global, standing: Standing) -> Result<Option<Bitmap>, Fail> {
    match file_with(alloc, Standing::Nothing, standing)? {
        Some(file) => Ok(bitmap_of(alloc, 0, BITMAP_TYPE, file)?),
        None => Err("no spelling".into()),
    }
}

fn is_read_so(found: &Option<Bitmap>, wanted: Option<Read>) -> bool {
    match (found, wanted) {
        (Some(bitmap), Some(read)) => {
            let named = bitmap.number == 0 && bitmap.kind == BITMAP_TYPE;
            named && read_as(&bitmap.stream) == read
        }
        (None, None) => true,
        _ => false,
    }
}

// The real size of the table that may grow in a volume of so many clusters, if it may.
fn size_of(alloc: Global, row: &Row) -> Result<Option<u64>, Fail> {
    let Some(file) = file_with(alloc, row.1, row.2)? else {
        return Err("no spelling".into());
    };
    match table_of(alloc, row.0, file)? {
        Some(table) => Ok(Some(table.extents.real)),
        None => Ok(None),
    }
}

#[test]
fn a_bitmap_may_be_changed(rt: HostRuntime) -> Result<(), Fail> {
    for (i, (standing, wanted)) in BITMAPS.iter().enumerate() {
        let found = bitmap_in(rt.alloc(), *standing)?;
        assert!(rt; is_read_so(&found, *wanted), "row {i}");
    }
    Ok(())
}

#[test]
fn a_file_table_may_grow(rt: HostRuntime) -> Result<(), Fail> {
    for (i, row) in TABLES.iter().enumerate() {
        assert!(rt; size_of(rt.alloc(), row)? == row.3, "row {i}");
    }
    Ok(())
}
