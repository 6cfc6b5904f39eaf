//! Entries of the log as bytes: what is written, what is read, and what is refused.
ghost use Rattle.std.specs.Prelude.{◌≡◌, ◌≤◌, IfOk, length};
ghost use Rattle.log_model.specs.Entries.{most_bytes, FitsEntry};

use host_base::Bytes;
use log_record::{Act, Entry, EntryFault, read, write};
use std::alloc::{AllocError, Global};
use std::test::Fail;

// The first entry of lap 1 in a log of 513 pages, and the one after it: a commit, and an update of
// three bytes of a file record in sector 42.
static ENTRIES: [u8; 0xc0] = [
    8, 8, 8, 0, 0, 0, 0, 0, 0, 0, 0, 0, 0, 0, 0, 0, 0, 0, 0, 0, 0, 0, 0, 0, 0x28, 0, 0, 0, 0, 0, 0,
    0, 1, 0, 0, 0, 7, 0, 0, 0, 0, 0, 0, 0, 0, 0, 0, 0, 0x1a, 0, 0, 0, 0, 0, 0, 0, 0, 0, 0, 0, 0, 0,
    0, 0, 0, 0, 0, 0, 0, 0, 0, 0, 0, 0, 0, 0, 0, 0, 0, 0, 0, 0, 0, 0, 0, 0, 0, 0, 0x13, 8, 8, 0, 0,
    0, 0, 0, 8, 8, 8, 0, 0, 0, 0, 0, 8, 8, 8, 0, 0, 0, 0, 0, 0x38, 0, 0, 0, 0, 0, 0, 0, 1, 0, 0, 0,
    7, 0, 0, 0, 0, 0, 0, 0, 0, 0, 0, 0, 8, 0, 8, 0, 0x28, 0, 3, 0, 0x30, 0, 3, 0, 0, 0, 1, 0, 0x38,
    0, 1, 0, 2, 0, 0, 0, 0, 0, 0, 0, 0, 0, 0, 0, 5, 0, 0, 0, 0, 0, 0, 0, 1, 2, 3, 0, 0, 0, 0, 0, 4,
    5, 6, 0, 0, 0, 0, 0,
];

fn commit() -> Entry
    ensures { FitsEntry result }
{
    Entry {
        lsn: 526_344,
        previous: 0,
        tx: 7,
        act: Act::Commit,
    }
}

// The update after that commit.
fn update(redo: Bytes, undo: Bytes) -> Entry
    requires some { 1 ≤ length redo }
    requires few { length redo ≤ most_bytes }
    requires same { length undo ≡ length redo }
    ensures { FitsEntry result }
{
    Entry {
        lsn: 526_355,
        previous: 526_344,
        tx: 7,
        act: Act::Update {
            first: 42,
            kind: 1,
            at: 0x38,
            redo,
            undo,
        },
    }
}

// That update of three bytes.
fn worked_update(alloc: Global) -> Result<Entry, AllocError>
    ensures { IfOk result FitsEntry }
{
    let redo = Bytes::copy_of(alloc, &[1, 2, 3])?;
    let undo = Bytes::copy_of(alloc, &[4, 5, 6])?;
    Ok(update(redo, undo))
}

#[test]
fn worked_entries_are_written(rt: HostRuntime) -> Result<(), Fail> {
    let alloc = rt.alloc();
    let mut out = Vec::new(alloc);
    write(&commit(), &mut out)?;
    write(&worked_update(alloc)?, &mut out)?;
    assert_eq!(rt; out.as_slice(), ENTRIES.as_slice());
    Ok(())
}

#[test]
fn worked_entries_are_read(rt: HostRuntime) -> Result<(), Fail> {
    let alloc = rt.alloc();
    assert_eq!(rt; read(alloc, &ENTRIES)?, commit());
    let update = worked_update(alloc)?;
    assert_eq!(rt; read(alloc, ENTRIES.split_at(88).1)?, update);
    Ok(())
}

// A commit, and an update of a sector.
#[test]
fn sizes_of_entries(rt: HostRuntime) -> Result<(), Fail> {
    let alloc = rt.alloc();
    let redo = Bytes::from(vec![in alloc; 0x22u8; 512]?);
    let undo = Bytes::from(vec![in alloc; 0x11u8; 512]?);
    let sizes = (commit().size(), update(redo, undo).size());
    assert_eq!(rt; sizes, (88, 1112));
    Ok(())
}

// Of the update's 104 bytes so many, one of them changed or the same; and where that is refused.
#[test]
fn refused_entries(rt: HostRuntime) -> Result<(), Fail> {
    let alloc = rt.alloc();
    for (size, change, byte, at) in [
        (0x60, 0, 0x13, 0x18),
        (0x68, 0x5b, 1, 0x5b),
        (0x68, 0x44, 3, 0x44),
    ] {
        let mut bytes = Vec::from_slice(alloc, ENTRIES.split_at(88).1)?;
        bytes.truncate(size);
        if let Some(cell) = bytes.get_mut(change) {
            *cell = byte;
        }
        let refused = read(alloc, &bytes).err();
        assert_eq!(rt; refused, Some(EntryFault::Shape { at }));
    }
    Ok(())
}
