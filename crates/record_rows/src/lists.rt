//! Records that are made of a list of attributes, and one whose mapping pairs begin at no multiple
//! of 8: it is read, made normal, written and read again.
use crate::parts::{Edit, ROOT, data_of, put, root_head, written};
use record_model::AttrList;
use record_writer::{FileRec, RoomFault, WrittenRecord, attr_has_spelling, normal_attr};
use std::alloc::Global;
use std::test::Fail;

// Data of ten clusters in place of the root's name, whose pairs are the twelve bytes from 0x44 on.
static PAIRS_AT_44: [Edit; 7] = [
    Edit(0x18, &[0x90]),
    Edit(
        0x38,
        &[0x80, 0, 0, 0, 0x50, 0, 0, 0, 1, 0, 0, 0, 0, 0, 7, 0],
    ),
    Edit(0x48, &[0, 0, 0, 0, 0, 0, 0, 0, 9, 0, 0, 0, 0, 0, 0, 0]),
    Edit(
        0x58,
        &[0x44, 0, 0, 0, 0, 0, 0, 0, 0, 0xa0, 0, 0, 0, 0, 0, 0],
    ),
    Edit(
        0x68,
        &[0x21, 0x43, 0, 0, 0, 0, 0, 0, 0, 0x40, 0, 0, 0, 0, 0, 0],
    ),
    Edit(0x7c, &[0x11, 10, 0x10, 0]),
    Edit(0x88, &[0xff, 0xff, 0xff, 0xff]),
];

// What differs where it is written: the place of a name, and the pairs from 0x40 on.
static PAIRS_AT_40: [Edit; 3] = [
    Edit(0x42, &[0x40]),
    Edit(0x58, &[0x40]),
    Edit(0x78, &[0x11, 10, 0x10, 0, 0, 0, 0, 0]),
];

// The root's header with these edits behind it.
fn body_of(edits: &[Edit]) -> [u8; 1024] {
    let mut body = [0; 1024];
    put(&mut body, &ROOT[..4]);
    put(&mut body, &PAIRS_AT_44);
    put(&mut body, edits);
    body
}

// The record with each of its attributes normal, made of their list.
fn normal_of(alloc: Global, record: &FileRec) -> Result<FileRec, Fail> {
    let mut normal = FileRec::empty(alloc, record.head());
    for attr in record.attrs().as_slice() {
        normal.push(normal_attr(alloc, attr)?)?;
    }
    if !normal.has_spelling() {
        return Err("no spelling".into());
    }
    let attrs = normal.attrs().as_slice();
    Ok(FileRec::with_attrs(alloc, record.head(), attrs)?)
}

#[test]
fn pairs_at_no_multiple_of_8_are_made_normal(rt: HostRuntime) -> Result<(), Fail> {
    let record = FileRec::read(rt.alloc(), &body_of(&[]))?;
    assert!(rt; written(&record).is_none());
    let normal = normal_of(rt.alloc(), &record)?;
    let expected = body_of(&PAIRS_AT_40);
    assert_eq!(rt; written(&normal), Some(expected));
    let again = FileRec::read(rt.alloc(), &expected)?;
    assert_eq!(rt; again.head(), root_head());
    assert_eq!(rt; again.attrs().as_slice(), normal.attrs().as_slice());
    Ok(())
}

// How many bytes a record of one attribute uses, data of so many bytes, or would use if it had
// room.
#[tactic(auto, using(record_writer::proofs::Measures::one_below))]
fn used_alone(alloc: Global, len: usize) -> Result<Result<u32, u32>, Fail> {
    let attr = data_of(alloc, len)?;
    if !attr_has_spelling(&attr) {
        return Err("no spelling".into());
    }
    let mut attrs = AttrList::new(alloc);
    attrs.push(attr)?;
    match FileRec::with_attrs(alloc, root_head(), attrs.as_slice()) {
        Ok(whole) if whole.has_spelling() => Ok(Ok(whole.used())),
        Ok(_) => Err("no spelling".into()),
        Err(RoomFault::Full { used }) => Ok(Err(used)),
        Err(fault) => Err(fault.into()),
    }
}

#[test]
fn a_list_of_1024_bytes_makes_a_record(rt: HostRuntime) -> Result<(), Fail> {
    for (len, used) in [(936, Ok(1024)), (937, Err(1032)), (0, Ok(0x58))] {
        assert_eq!(rt; used_alone(rt.alloc(), len)?, used, "{len} bytes");
    }
    Ok(())
}
