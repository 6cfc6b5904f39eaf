//! What records are made of in more than one file of rows.
use host_base::{Bytes, FileRef};
use record_model::{Attr, Head, OwnForm, RecHead, Sizes};
use record_writer::{FileRec, WrittenRecord};
use std::alloc::{AllocError, Global};
use utf16_name::Units;

/// Bytes that stand from this place on.
pub struct Edit(pub usize, pub &'static [u8]);

/// Writes the bytes of these edits. Those past the end are left out.
pub fn put(bytes: &mut [u8], edits: &[Edit]) {
    for Edit(at, new) in edits {
        for (i, byte) in new.iter().enumerate() {
            if let Some(place) = bytes.get_mut(at.saturating_add(i)) {
                *place = *byte;
            }
        }
    }
}

/// A directory's record: number 5, sequence 5, and the one name `.` in itself, as its body.
pub static ROOT: [Edit; 11] = [
    Edit(0x00, b"FILE\x30\0\x03\0"),
    Edit(0x10, &[5, 0, 1, 0, 0x38, 0, 3, 0]),
    Edit(0x18, &[0xa0, 0, 0, 0, 0, 4, 0, 0]),
    Edit(0x28, &[1, 0, 0, 0, 5, 0, 0, 0]),
    Edit(0x38, &[0x30, 0, 0, 0, 0x60, 0, 0, 0, 0, 0, 0x18]),
    Edit(0x48, &[0x44, 0, 0, 0, 0x18, 0, 1]),
    Edit(0x50, &[5, 0, 0, 0, 0, 0, 5, 0]),
    Edit(0x88, &[0, 0, 0, 0x10]),
    Edit(0x90, &[1, 3]),
    Edit(0x92, b".\0"),
    Edit(0x98, &[0xff, 0xff, 0xff, 0xff]),
];

/// The head of the root's record.
pub fn root_head() -> RecHead {
    RecHead {
        lsn: 0,
        seq: 5,
        links: 1,
        flags: 3,
        base: FileRef { number: 0, seq: 0 },
        next_id: 1,
        number: 5,
    }
}

static ROOT_NAME: [Edit; 4] = [
    Edit(0x00, &[5, 0, 0, 0, 0, 0, 5, 0]),
    Edit(0x38, &[0, 0, 0, 0x10]),
    Edit(0x40, &[1, 3]),
    Edit(0x42, b".\0"),
];

/// The name `.` of the root in itself.
pub fn root_name(alloc: Global) -> Result<Attr, AllocError> {
    let mut value = [0; 0x44];
    put(&mut value, &ROOT_NAME);
    Ok(Attr {
        head: Head {
            kind: 0x30,
            flags: 0,
            id: 0,
        },
        name: Units::new(alloc),
        form: OwnForm::Resident {
            value: Bytes::copy_of(alloc, &value)?,
            indexed: 1,
        },
    })
}

static PAIRS: [u8; 16] = [0x11, 10, 0x10, 0, 0, 0, 0, 0, 0, 0, 0, 0, 0, 0, 0, 0];

/// A sparse stream `ab` of ten clusters.
pub fn sparse_stream(alloc: Global) -> Result<Attr, AllocError> {
    Ok(Attr {
        head: Head {
            kind: 0x80,
            flags: 0x8000,
            id: 7,
        },
        name: Units::copy_of(alloc, &[0x61, 0x62])?,
        form: OwnForm::Mapped {
            sizes: Sizes {
                first: 0,
                last: 9,
                unit: 4,
                allocated: 0x5000,
                real: 0x4321,
                initialised: 0x4000,
                held: Some(0x2000),
            },
            pairs: Bytes::copy_of(alloc, &PAIRS)?,
        },
    })
}

/// Data of so many bytes.
pub fn data_of(alloc: Global, len: usize) -> Result<Attr, AllocError> {
    let mut value = Vec::new(alloc);
    value.resize(len, 7)?;
    Ok(Attr {
        head: Head {
            kind: 0x80,
            flags: 0,
            id: 1,
        },
        name: Units::new(alloc),
        form: OwnForm::Resident {
            value: Bytes::from(value),
            indexed: 0,
        },
    })
}

/// The bytes of a record, none where it has no spelling.
pub fn written(record: &FileRec) -> Option<[u8; 1024]> {
    if !record.has_spelling() {
        return None;
    }
    let mut out = [0xff; 1024];
    record.write(&mut out);
    Some(out)
}
