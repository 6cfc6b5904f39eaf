//! Entries of attribute lists.
ghost use Rattle.std.specs.Prelude.{◌≡◌, IfOk};
ghost use Rattle.state_model.specs.Streams.{real_size};

use block_view::{Body, MemoryView};
use disk_model::put_bytes;
use host_base::{Bytes, FileRef};
use record_model::Runs;
use state_model::{ClusterSize, Extents, Stream};
use std::alloc::{AllocError, Global};
use std::test::Fail;
use stream_map::{FRONT_BYTES, ListEntry, Step, first_entry, next_entry, real_size};
use utf16_name::Units;
use volume_images::{per_cluster, run, sectors_view};

// An entry of 0x20 bytes for the data stream `ab`.
static ENTRY: [u8; 0x20] = [
    0x80, 0, 0, 0, 0x20, 0, 2, 0x1a, 7, 0, 0, 0, 0, 0, 0, 0, 5, 0, 0, 0, 0, 0, 3, 0, 9, 0, 0x61, 0,
    0x62, 0, 0, 0,
];

// The length of an entry, the units of its name and the name's place, how many bytes are left, and
// whether there is an entry.
static ROOMS: [(u8, u8, u8, u64, bool); 4] = [
    (0x20, 2, 0x1a, 0x1f, false),
    (0x1d, 2, 0x1a, 0x20, false),
    (0x1d, 0, 0xff, 0x20, true),
    (0x19, 0, 0xff, 0x20, false),
];

// What a step finds: the entry above, the end, a fault of the list or one of the view.
#[derive(Clone, Copy)]
enum Found {
    Entry,
    End,
    Fault,
    View,
}

// A step: from which byte, what it finds, and at which byte it ends.
#[derive(Drop)]
struct Row(u64, Found, u64);

fn its_fields(alloc: Global) -> Result<ListEntry, AllocError> {
    Ok(ListEntry {
        kind: 0x80,
        name: Units::copy_of(alloc, &[0x61, 0x62])?,
        id: 9,
        first: 7,
        holder: FileRef { number: 5, seq: 3 },
    })
}

#[test]
fn an_entry_is_its_fields(rt: HostRuntime) -> Result<(), Fail> {
    let mut front = [0; FRONT_BYTES];
    put_bytes(&mut front, 0, &ENTRY);
    let first = first_entry(rt.alloc(), &front, 0x20)?.ok_or("no entry")?;
    assert_eq!(rt; first.length, 0x20);
    assert_eq!(rt; first.entry, its_fields(rt.alloc())?);
    Ok(())
}

#[test]
fn an_entry_has_room_for_its_fields_and_its_name(rt: HostRuntime) -> Result<(), Fail> {
    let mut front = [0; FRONT_BYTES];
    put_bytes(&mut front, 0, &ENTRY);
    for (number, (length, units, place, left, want)) in ROOMS.iter().enumerate() {
        front[0x04] = *length;
        front[0x06] = *units;
        front[0x07] = *place;
        let found = first_entry(rt.alloc(), &front, *left)?;
        assert_eq!(rt; found.is_some(), *want, "row {number}");
    }
    Ok(())
}

fn step_of(alloc: Global, found: Found) -> Result<Option<Step>, AllocError> {
    match found {
        Found::Entry => Ok(Some(Step::Entry(its_fields(alloc)?))),
        Found::End => Ok(Some(Step::End)),
        Found::Fault => Ok(Some(Step::Fault)),
        Found::View => Ok(None),
    }
}

fn is_as_wanted(
    alloc: Global,
    view: &mut MemoryView,
    per: ClusterSize,
    stream: &Stream,
    row: &Row,
) -> Result<bool, AllocError> {
    let mut body = Body::empty(alloc)?;
    let mut at = row.0.min(real_size(stream));
    let step = next_entry(alloc, view, per, stream, &mut at, &mut body).ok();
    Ok(step == step_of(alloc, row.1)? && at == row.2)
}

// The number of the first step that isn't as wanted.
fn first_bad(
    alloc: Global,
    view: &mut MemoryView,
    per: ClusterSize,
    stream: &Stream,
    rows: &[Row],
) -> Result<Option<usize>, AllocError> {
    for (number, row) in rows.iter().enumerate() {
        if !is_as_wanted(alloc, view, per, stream, row)? {
            return Ok(Some(number));
        }
    }
    Ok(None)
}

#[test]
fn zeros_behind_the_entries_are_a_fault(rt: HostRuntime) -> Result<(), Fail> {
    let mut bytes = vec![in rt.alloc(); 0u8; 0x24]?;
    put_bytes(&mut bytes, 0, &ENTRY);
    let stream = Stream::Held(Bytes::from(bytes));
    let mut view = sectors_view(rt.alloc(), &[], 0)?;
    let rows = [Row(0, Found::Entry, 0x20), Row(0x20, Found::Fault, 0x20)];
    let bad = first_bad(rt.alloc(), &mut view, per_cluster(8), &stream, &rows)?;
    assert_eq!(rt; bad, None);
    Ok(())
}

/// A list of 0x20C bytes in clusters 4 and 2.
fn in_two_runs(alloc: Global) -> Result<Stream, AllocError>
    ensures size { IfOk result (λ stream. real_size stream ≡ 0x20C) }
{
    let mut runs = Runs::new(alloc);
    runs.push(run(0, Some(4), 1))?;
    runs.push(run(1, Some(2), 1))?;
    Ok(Stream::Placed(Extents {
        runs,
        allocated: 1024,
        real: 0x20c,
        initialised: 0x20c,
    }))
}

#[test]
fn an_entry_lies_in_two_clusters(rt: HostRuntime) -> Result<(), Fail> {
    let stream = in_two_runs(rt.alloc())?;
    let (front, back) = ENTRY.split_at(0x14);
    let mut view = sectors_view(rt.alloc(), &[(4, 0x1ec, front), (2, 0, back)], 2)?;
    let rows = [
        Row(0x1ec, Found::View, 0x1ec),
        Row(0x1ec, Found::Entry, 0x20c),
        Row(0x20c, Found::End, 0x20c),
    ];
    let bad = first_bad(rt.alloc(), &mut view, per_cluster(1), &stream, &rows)?;
    assert_eq!(rt; bad, None);
    Ok(())
}
