//! File records that are written, and attributes that come and go in them.
use crate::parts::{Edit, ROOT, data_of, put, root_head, root_name, sparse_stream, written};
use fixup_record::{has_shape, protect, to_body};
use record_model::Attr;
use record_writer::{
    FileRec, RoomFault, WrittenRecord, attr_has_spelling, write_attr, written_is_read,
};
use std::alloc::{AllocError, Global};
use std::test::Fail;

// A sparse stream `ab` of ten clusters.
static SPARSE: [Edit; 7] = [
    Edit(
        0x00,
        &[0x80, 0, 0, 0, 0x60, 0, 0, 0, 1, 2, 0x48, 0, 0, 0x80, 7, 0],
    ),
    Edit(0x18, &[9, 0, 0, 0, 0, 0, 0, 0]),
    Edit(
        0x20,
        &[0x50, 0, 4, 0, 0, 0, 0, 0, 0, 0x50, 0, 0, 0, 0, 0, 0],
    ),
    Edit(
        0x30,
        &[0x21, 0x43, 0, 0, 0, 0, 0, 0, 0, 0x40, 0, 0, 0, 0, 0, 0],
    ),
    Edit(0x40, &[0, 0x20, 0, 0, 0, 0, 0, 0]),
    Edit(0x48, b"a\0b\0\0\0\0\0"),
    Edit(
        0x50,
        &[0x11, 10, 0x10, 0, 0, 0, 0, 0, 0, 0, 0, 0, 0, 0, 0, 0],
    ),
];

// A record with this one attribute.
fn record_of(alloc: Global, attr: Attr) -> Result<FileRec, AllocError> {
    let mut record = FileRec::empty(alloc, root_head());
    record.push(attr)?;
    Ok(record)
}

// How many attributes and bytes a record has, none where it has no spelling.
fn size_of(record: &FileRec) -> Option<[usize; 2]> {
    if !record.has_spelling() {
        return None;
    }
    Some([record.attrs().len(), record.used() as usize])
}

#[test]
fn a_record_is_written_as_it_is_spelled(rt: HostRuntime) -> Result<(), Fail> {
    let record = record_of(rt.alloc(), root_name(rt.alloc())?)?;
    let mut expected = [0; 1024];
    put(&mut expected, &ROOT);
    assert_eq!(rt; size_of(&record), Some([1, 0xa0]));
    assert_eq!(rt; written(&record), Some(expected));
    Ok(())
}

// The record as which this one's bytes are read.
fn read_again(alloc: Global, record: &FileRec) -> Result<FileRec, Fail> {
    match written(record) {
        Some(out) => Ok(FileRec::read(alloc, &out)?),
        None => Err("no spelling".into()),
    }
}

#[test]
fn a_written_record_is_read(rt: HostRuntime) -> Result<(), Fail> {
    let record = record_of(rt.alloc(), root_name(rt.alloc())?)?;
    let read = read_again(rt.alloc(), &record)?;
    assert!(rt; read.head() == root_head() && read.attrs().len() == 1);
    Ok(())
}

// Whether these bytes are the same after they are protected by the check word 1 and undone.
fn is_undone(bytes: &[u8; 1024]) -> bool {
    let mut out = *bytes;
    if !has_shape(&out) {
        return false;
    }
    protect(&mut out, 1);
    let is_protected = out[0x30] == 1 && out[0x3fe] == 1;
    is_protected && to_body(&mut out) == Ok(1) && out == *bytes
}

#[test]
fn a_written_record_is_protected_and_undone(rt: HostRuntime) -> Result<(), Fail> {
    let record = record_of(rt.alloc(), sparse_stream(rt.alloc())?)?;
    let out = written(&record).ok_or("no spelling")?;
    written_is_read();
    assert!(rt; is_undone(&out));
    Ok(())
}

// The spelling of an attribute.
fn spelled(alloc: Global, attr: &Attr) -> Result<Vec<u8>, Fail> {
    if !attr_has_spelling(attr) {
        return Err("no spelling".into());
    }
    let mut out = Vec::new(alloc);
    write_attr(attr, &mut out)?;
    Ok(out)
}

#[test]
fn an_attribute_is_appended(rt: HostRuntime) -> Result<(), Fail> {
    let mut expected = [0; 0x60];
    put(&mut expected, &SPARSE);
    let attr = sparse_stream(rt.alloc())?;
    let found = spelled(rt.alloc(), &attr)?;
    assert_eq!(rt; found.as_slice(), expected.as_slice());
    Ok(())
}

// The record with this attribute first, if both have a spelling.
fn with_first(alloc: Global, record: &FileRec, attr: &Attr) -> Result<FileRec, Fail> {
    if !record.has_spelling() || !attr_has_spelling(attr) {
        return Err("no spelling".into());
    }
    Ok(record.with_attr(alloc, 0, attr)?)
}

// The record without its second attribute.
fn without_second(alloc: Global, record: &FileRec) -> Result<FileRec, Fail> {
    if record.attrs().len() < 2 {
        return Err("no second attribute".into());
    }
    Ok(record.without_attr(alloc, 1)?)
}

// How many bytes a record uses whose data has so many bytes, or would use if it had room.
fn used_by(alloc: Global, len: usize) -> Result<Result<u32, u32>, Fail> {
    let record = FileRec::empty(alloc, root_head());
    let attr = data_of(alloc, len)?;
    if !record.has_spelling() || !attr_has_spelling(&attr) {
        return Err("no spelling".into());
    }
    match record.with_attr(alloc, 0, &attr) {
        Ok(whole) if whole.has_spelling() => Ok(Ok(whole.used())),
        Ok(_) => Err("no spelling".into()),
        Err(RoomFault::Full { used }) => Ok(Err(used)),
        Err(fault) => Err(fault.into()),
    }
}

// 1,024 bytes less those of the header and the end mark are 960: room for a value of 936 bytes.
#[test]
fn a_record_has_room_for_a_value_of_936_bytes(rt: HostRuntime) -> Result<(), Fail> {
    for (len, used) in [(936, Ok(1024)), (937, Err(1032))] {
        assert_eq!(rt; used_by(rt.alloc(), len)?, used, "{len} bytes");
    }
    Ok(())
}

// A name, and a stream behind it.
fn both_attributes(alloc: Global) -> Result<FileRec, Fail> {
    let record = record_of(alloc, sparse_stream(alloc)?)?;
    with_first(alloc, &record, &root_name(alloc)?)
}

#[test]
fn attributes_come_and_go_at_their_places(rt: HostRuntime) -> Result<(), Fail> {
    let both = both_attributes(rt.alloc())?;
    assert_eq!(rt; size_of(&both), Some([2, 0x100]));
    let first = without_second(rt.alloc(), &both)?;
    assert_eq!(rt; size_of(&first), Some([1, 0xa0]));
    Ok(())
}

// A stream with a name behind it, whose type is a lesser one.
fn falling(alloc: Global) -> Result<FileRec, AllocError> {
    let mut record = record_of(alloc, sparse_stream(alloc)?)?;
    record.push(root_name(alloc)?)?;
    Ok(record)
}

#[test]
fn a_record_without_a_spelling_is_told(rt: HostRuntime) -> Result<(), Fail> {
    let full = record_of(rt.alloc(), data_of(rt.alloc(), 937)?)?;
    assert!(rt; !full.has_spelling());
    assert!(rt; !falling(rt.alloc())?.has_spelling());
    Ok(())
}

#[test]
fn an_attribute_without_a_spelling_is_told(rt: HostRuntime) -> Result<(), Fail> {
    let mut other = sparse_stream(rt.alloc())?;
    other.head.flags = 0;
    assert!(rt; !attr_has_spelling(&other));
    Ok(())
}
