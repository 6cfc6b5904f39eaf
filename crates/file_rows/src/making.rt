//! The record of a new file, and its key in the index of its directory.
ghost use Rattle.std.specs.Prelude.{◌≡◌};

use crate::parts::{Edit, put, written};
use file_record::FileRec;
use host_base::FileRef;
use new_files::{Key, new_key, new_record};
use record_model::OwnForm;
use record_writer::WrittenRecord;
use std::alloc::Global;
use std::test::Fail;
use utf16_name::Name;

// The LSN of the block's body from before, and the time of the new file.
const LSN: u64 = 0x1122_3344_5566_7788;

const STAMP: u64 = 0x01DB_4321_8765_ABCD;

// File 0x40 with the sequence 3 and the name `f` in the root, with the array of its update sequence
// as zeros: the header, the end mark, and that all but these bytes are zeros.
static HEAD: [Edit; 9] = [
    Edit(0x00, b"FILE\x30\0\x03\0"),
    Edit(0x08, &[0x88, 0x77, 0x66, 0x55, 0x44, 0x33, 0x22, 0x11]),
    Edit(0x10, &[3, 0]),
    Edit(0x12, &[1, 0]),
    Edit(0x14, &[0x38, 0, 1, 0]),
    Edit(0x18, &[0x18, 1, 0, 0, 0, 4, 0, 0]),
    Edit(0x28, &[3, 0]),
    Edit(0x2C, &[0x40, 0, 0, 0]),
    Edit(0x110, &[0xFF, 0xFF, 0xFF, 0xFF]),
];

// Standard information of 0x48 bytes, whose four times are the stamp, with the flag of an archive.
static INFO: [Edit; 7] = [
    Edit(0x38, &[0x10, 0, 0, 0, 0x60, 0, 0, 0]),
    Edit(0x40, &[0, 0, 0x18, 0, 0, 0, 0, 0]),
    Edit(0x48, &[0x48, 0, 0, 0, 0x18, 0, 0, 0]),
    Edit(0x50, &[0xCD, 0xAB, 0x65, 0x87, 0x21, 0x43, 0xDB, 0x01]),
    Edit(0x58, &[0xCD, 0xAB, 0x65, 0x87, 0x21, 0x43, 0xDB, 0x01]),
    Edit(0x60, &[0xCD, 0xAB, 0x65, 0x87, 0x21, 0x43, 0xDB, 0x01]),
    Edit(0x68, &[0xCD, 0xAB, 0x65, 0x87, 0x21, 0x43, 0xDB, 0x01]),
];

// The name of 0x44 bytes, which an index lists: its directory, the times, no sizes, the flag, one
// unit, the namespace POSIX; and data without bytes.
static NAME: [Edit; 13] = [
    Edit(0x70, &[0x20, 0, 0, 0]),
    Edit(0x98, &[0x30, 0, 0, 0, 0x60, 0, 0, 0]),
    Edit(0xA0, &[0, 0, 0x18, 0, 0, 0, 1, 0]),
    Edit(0xA8, &[0x44, 0, 0, 0, 0x18, 0, 1, 0]),
    Edit(0xB0, &[5, 0, 0, 0, 0, 0, 5, 0]),
    Edit(0xB8, &[0xCD, 0xAB, 0x65, 0x87, 0x21, 0x43, 0xDB, 0x01]),
    Edit(0xC0, &[0xCD, 0xAB, 0x65, 0x87, 0x21, 0x43, 0xDB, 0x01]),
    Edit(0xC8, &[0xCD, 0xAB, 0x65, 0x87, 0x21, 0x43, 0xDB, 0x01]),
    Edit(0xD0, &[0xCD, 0xAB, 0x65, 0x87, 0x21, 0x43, 0xDB, 0x01]),
    Edit(0xE8, &[0x20, 0, 0, 0]),
    Edit(0xF0, &[1, 0, 0x66, 0]),
    Edit(
        0xF8,
        &[0x80, 0, 0, 0, 0x18, 0, 0, 0, 0, 0, 0x18, 0, 0, 0, 2],
    ),
    Edit(0x10C, &[0x18]),
];

// Names by how many units they have, and the bytes that the record uses with one: 56 of the header,
// 96 of standard information, 24 and 66 of the name's attribute with 2 for each unit, up to the
// next multiple of 8, 24 of data and 8 of the end mark.
static USED: [(u16, u32); 6] = [(1, 280), (3, 280), (4, 288), (7, 288), (8, 296), (255, 784)];

fn root() -> FileRef
    ensures { result.number ≡ 5 }
{
    FileRef { number: 5, seq: 5 }
}

fn file() -> FileRef
    ensures { result.number ≡ 0x40 }
{
    FileRef {
        number: 0x40,
        seq: 3,
    }
}

// A name of so many letters `f`.
fn letters(alloc: Global, count: u16) -> Result<Name, Fail> {
    let mut units = Vec::new(alloc);
    units.resize(usize::from(count), 0x66)?;
    Ok(Name::checked(alloc, &units)?)
}

fn made(alloc: Global, name: &Name) -> Result<FileRec, Fail> {
    Ok(new_record(alloc, LSN, file(), root(), name, STAMP)?)
}

// The bytes that a record uses, none where it has no spelling.
fn used(record: &FileRec) -> Option<u32> {
    if !record.has_spelling() {
        return None;
    }
    Some(record.used())
}

// The value of a name in the record.
fn name_value(record: &FileRec) -> &[u8] {
    for attr in record.attrs().as_slice() {
        if let OwnForm::Resident { value, .. } = &attr.form {
            if attr.head.kind == 0x30 {
                return value.as_slice();
            }
        }
    }
    &[]
}

// The record of a name with so many letters uses these bytes, and its key those of the name's
// value.
fn has_size(alloc: Global, count: u16, bytes: u32) -> Result<bool, Fail> {
    let name = letters(alloc, count)?;
    let record = made(alloc, &name)?;
    let Key { child, value } = new_key(alloc, file(), root(), &name, STAMP)?;
    let is_key = child == file() && value.as_slice() == name_value(&record);
    Ok(is_key && value.len() == 0x42 + 2 * usize::from(count) && used(&record) == Some(bytes))
}

// The record that is read of the bytes of this one.
fn read_again(alloc: Global, record: &FileRec) -> Result<FileRec, Fail> {
    match written(record) {
        Some(out) => Ok(FileRec::read(alloc, &out)?),
        None => Err("no spelling".into()),
    }
}

fn wanted() -> [u8; 1024] {
    let mut bytes = [0; 1024];
    put(&mut bytes, &HEAD);
    put(&mut bytes, &INFO);
    put(&mut bytes, &NAME);
    bytes
}

#[test]
fn a_new_record_has_its_fields(rt: HostRuntime) -> Result<(), Fail> {
    let record = made(rt.alloc(), &letters(rt.alloc(), 1)?)?;
    assert!(rt; written(&record) == Some(wanted()));
    let read = read_again(rt.alloc(), &record)?;
    assert!(rt; read.head() == record.head());
    assert!(rt; read.attrs().as_slice() == record.attrs().as_slice());
    Ok(())
}

#[test]
fn a_new_record_has_room_for_its_name(rt: HostRuntime) -> Result<(), Fail> {
    for (count, bytes) in &USED {
        assert!(rt; has_size(rt.alloc(), *count, *bytes)?, "{count} letters");
    }
    Ok(())
}

#[test]
fn a_new_record_has_its_number(rt: HostRuntime) -> Result<(), Fail> {
    let name = letters(rt.alloc(), 2)?;
    let file = FileRef {
        number: 0xFFFF_FFFF,
        seq: 0xFFFF,
    };
    let directory = FileRef {
        number: 0xFFFF_FFFF_FFFF,
        seq: 0xFFFE,
    };
    let record = new_record(rt.alloc(), 0, file, directory, &name, u64::MAX)?;
    let out = written(&record).ok_or("no spelling")?;
    assert!(rt; record.head().number == 0xFFFF_FFFF && record.head().seq == 0xFFFF);
    assert!(rt; out[0xB5] == 0xFF && out[0xB6] == 0xFE && out[0xB7] == 0xFF);
    assert!(rt; out[0x50] == 0xFF && out[0x6F] == 0xFF && out[0xD7] == 0xFF);
    Ok(())
}
