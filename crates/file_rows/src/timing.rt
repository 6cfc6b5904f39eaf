//! The record of a file that changed at a time.
use crate::parts::fits;
use file_record::FileRec;
use host_base::{Bytes, FileRef};
use record_model::{Attr, Head, OwnForm, RecHead};
use record_times::timed_record;
use record_writer::WrittenRecord;
use std::alloc::Global;
use std::test::Fail;
use utf16_name::Units;

const STAMP: u64 = 0x01DB_4321_8765_ABCD;

static STAMP_BYTES: [u8; 8] = [0xCD, 0xAB, 0x65, 0x87, 0x21, 0x43, 0xDB, 0x01];

// A record without information: its next id, the type and the id of each attribute, and then the id
// of the information that comes, how many attributes stand before it, and the next id.
struct Coming(u16, &'static [(u32, u16)], u16, usize, u16);

// It stands by its type, before and behind others. Where the ids have come to their end, it has the
// least that is free.
static COMING: [Coming; 7] = [
    Coming(7, &[(0x80, 3)], 7, 0, 8),
    Coming(7, &[(0x08, 0), (0x80, 3)], 7, 1, 8),
    Coming(0xFFFE, &[(0x80, 3)], 0xFFFE, 0, 0xFFFF),
    Coming(0xFFFF, &[(0x80, 1), (0x80, 0), (0x100, 3)], 2, 0, 0xFFFF),
    Coming(0xFFFF, &[(0x08, 0), (0x80, 1)], 2, 1, 0xFFFF),
    Coming(0xFFFF, &[(0x80, 0xFFFF)], 0, 0, 0xFFFF),
    Coming(0xFFFF, &[], 0, 0, 0xFFFF),
];

fn head(next_id: u16) -> RecHead {
    RecHead {
        lsn: 9,
        seq: 4,
        links: 2,
        flags: 3,
        base: FileRef { number: 0, seq: 0 },
        next_id,
        number: 66,
    }
}

fn attr(alloc: Global, kind: u32, id: u16, value: &[u8]) -> Result<Attr, Fail> {
    Ok(Attr {
        head: Head { kind, flags: 0, id },
        name: Units::new(alloc),
        form: OwnForm::Resident {
            value: Bytes::copy_of(alloc, value)?,
            indexed: 0,
        },
    })
}

fn value(attr: &Attr) -> &[u8] {
    match &attr.form {
        OwnForm::Resident { value, .. } => value.as_slice(),
        OwnForm::Mapped { .. } => &[],
    }
}

// The record with the time, if it has a spelling.
fn timed(alloc: Global, file: &FileRec) -> Result<Option<FileRec>, Fail> {
    if !fits(file) {
        return Ok(None);
    }
    Ok(Some(timed_record(alloc, STAMP, file)?))
}

// So many bytes, each one more than its place.
fn counted(alloc: Global, count: usize) -> Result<Vec<u8>, Fail> {
    let mut bytes = Vec::new(alloc);
    for i in 0..count {
        bytes.push((i % 255) as u8 + 1)?;
    }
    Ok(bytes)
}

// Two attributes of standard information of so many bytes, and data.
fn informed(alloc: Global, count: usize) -> Result<FileRec, Fail> {
    let bytes = counted(alloc, count)?;
    let mut file = FileRec::empty(alloc, head(0xFFFF));
    file.push(attr(alloc, 0x10, 0, &bytes)?)?;
    file.push(attr(alloc, 0x10, 1, &bytes)?)?;
    file.push(attr(alloc, 0x80, 2, b"data")?)?;
    Ok(file)
}

// The time stands at 0x08 and at 0x10, and the other bytes are as they were.
fn has_times(old: &[u8], new: &[u8]) -> bool {
    if old.len() < 0x18 || new.len() != old.len() {
        return false;
    }
    let (front, times) = new.split_at(8);
    let (modified, later) = times.split_at(8);
    let (changed, back) = later.split_at(8);
    let is_put = modified == STAMP_BYTES.as_slice() && changed == STAMP_BYTES.as_slice();
    is_put && front == old.split_at(8).0 && back == old.split_at(0x18).1
}

// The first information has the time, and all else of the record is as it was.
fn is_put_first(old: &FileRec, new: &FileRec) -> bool {
    let (old_attrs, new_attrs) = (old.attrs().as_slice(), new.attrs().as_slice());
    if old_attrs.len() < 1 || new_attrs.len() < 1 {
        return false;
    }
    let (was, is) = (&old_attrs[0], &new_attrs[0]);
    let first = is.head == was.head && has_times(value(was), value(is));
    first && new.head() == old.head() && new_attrs.split_at(1).1 == old_attrs.split_at(1).1
}

fn keeps_all_else(alloc: Global, count: usize) -> Result<bool, Fail> {
    let file = informed(alloc, count)?;
    match timed(alloc, &file)? {
        Some(new) => Ok(is_put_first(&file, &new)),
        None => Ok(false),
    }
}

fn bare(alloc: Global, row: &Coming) -> Result<FileRec, Fail> {
    let mut file = FileRec::empty(alloc, head(row.0));
    for (kind, id) in row.1 {
        file.push(attr(alloc, *kind, *id, b"kept")?)?;
    }
    Ok(file)
}

// New information has this id, no name, and 72 bytes, of which all are zeros but for the times.
fn is_new(attr: &Attr, id: u16) -> bool {
    let head = Head {
        kind: 0x10,
        flags: 0,
        id,
    };
    let plain = attr.head == head && attr.name.is_empty();
    plain && value(attr).len() == 0x48 && has_times(&[0; 0x48], value(attr))
}

// Information stands at the row's place, between the attributes of before.
fn has_come(old: &FileRec, new: &FileRec, row: &Coming) -> bool {
    let (old_attrs, new_attrs) = (old.attrs().as_slice(), new.attrs().as_slice());
    if row.3 > old_attrs.len() || new_attrs.len() != old_attrs.len() + 1 {
        return false;
    }
    let (before, later) = new_attrs.split_at(row.3);
    let (front, back) = old_attrs.split_at(row.3);
    let is_there = before == front && later.split_at(1).1 == back;
    is_there && is_new(&later[0], row.2) && new.head() == head(row.4)
}

fn comes(alloc: Global, row: &Coming) -> Result<bool, Fail> {
    let file = bare(alloc, row)?;
    match timed(alloc, &file)? {
        Some(new) => Ok(has_come(&file, &new, row)),
        None => Ok(false),
    }
}

#[test]
fn the_first_information_has_the_time(rt: HostRuntime) -> Result<(), Fail> {
    for count in [0x30, 0x48, 0x51] {
        assert!(rt; keeps_all_else(rt.alloc(), count)?, "{count} bytes");
    }
    Ok(())
}

#[test]
fn information_comes_with_an_id(rt: HostRuntime) -> Result<(), Fail> {
    for (i, row) in COMING.iter().enumerate() {
        assert!(rt; comes(rt.alloc(), row)?, "row {i}");
    }
    Ok(())
}

// A record of 56 bytes of its header, 24 and so many of data, and 8 of the end mark: 96 more are
// too many where the data has more than 840.
#[test]
fn a_record_may_be_too_full(rt: HostRuntime) -> Result<(), Fail> {
    for (count, has_room) in [(840, true), (841, false), (936, false)] {
        let mut file = FileRec::empty(rt.alloc(), head(1));
        let bytes = counted(rt.alloc(), count)?;
        file.push(attr(rt.alloc(), 0x80, 0, &bytes)?)?;
        let new = timed(rt.alloc(), &file)?.ok_or("no spelling")?;
        assert!(rt; new.has_spelling() == has_room, "{count} bytes");
    }
    Ok(())
}
