//! What records are made of in more than one file of rows: attributes, values and a header.
use file_record::FileRec;
use std::alloc::{AllocError, Global};
use std::test::Fail;

/// Standard information: created at 1, modified at 2, changed at 3, read at 4; the flag 20.
pub static INFO: [u8; 48] = [
    1, 0, 0, 0, 0, 0, 0, 0, 2, 0, 0, 0, 0, 0, 0, 0, 3, 0, 0, 0, 0, 0, 0, 0, 4, 0, 0, 0, 0, 0, 0, 0,
    0x20, 0, 0, 0, 0, 0, 0, 0, 0, 0, 0, 0, 0, 0, 0, 0,
];

/// The two low bytes of a number, the low one first.
pub fn two_bytes(number: usize) -> [u8; 2] {
    [(number % 256) as u8, (number / 256 % 256) as u8]
}

/// Appends these bytes, with others at some places among them.
pub fn push_with(
    bytes: &mut Vec<u8>,
    plain: &[u8],
    others: &[(usize, u8)],
) -> Result<(), AllocError> {
    let begin = bytes.len();
    bytes.extend_from_slice(plain)?;
    for (at, byte) in others {
        if let Some(place) = bytes.get_mut(begin.saturating_add(*at)) {
            *place = *byte;
        }
    }
    Ok(())
}

static ATTRIBUTE: [u8; 0x18] = [
    0, 0, 0, 0, 0, 0, 0, 0, 0, 0, 0x18, 0, 0, 0, 0, 0, 0, 0, 0, 0, 0, 0, 0, 0,
];

/// Appends a resident attribute with at most eight bytes of a name.
pub fn push_attribute(
    bytes: &mut Vec<u8>,
    kind: u8,
    name: &[u8],
    value: &[u8],
) -> Result<(), AllocError> {
    let begin = name.len().min(8) + 0x18;
    let length = (begin + value.len().min(1024)).div_ceil(8) * 8;
    let end = bytes.len().min(1024) + length;
    let [whole, more] = two_bytes(length);
    let [low, high] = two_bytes(value.len());
    let fields = [
        (0x00, kind),
        (0x04, whole),
        (0x05, more),
        (0x09, (name.len().min(8) / 2) as u8),
        (0x10, low),
        (0x11, high),
        (0x14, begin as u8),
    ];
    push_with(bytes, &ATTRIBUTE, &fields)?;
    bytes.extend_from_slice(name)?;
    bytes.extend_from_slice(value)?;
    bytes.resize(end, 0)
}

/// The value of a file name, whose times, sizes and flags are 0: the number and sequence of its
/// directory, its namespace, and its units, which are ASCII.
pub fn name_value(
    alloc: Global,
    parent: [u8; 2],
    space: u8,
    units: &[u8],
) -> Result<Vec<u8>, AllocError> {
    let count = units.len().min(255) as u8;
    let fields = [(0, parent[0]), (6, parent[1]), (0x40, count), (0x41, space)];
    let mut value = Vec::new(alloc);
    push_with(&mut value, &[0; 0x42], &fields)?;
    for unit in units {
        value.extend_from_slice(&[*unit, 0])?;
    }
    Ok(value)
}

static HEADER: [u8; 0x38] = [
    0x46, 0x49, 0x4c, 0x45, 0x30, 0, 3, 0, 0, 0, 0, 0, 0, 0, 0, 0, 0, 0, 1, 0, 0x38, 0, 0, 0, 0, 0,
    0, 0, 0, 4, 0, 0, 0, 0, 0, 0, 0, 0, 0, 0, 9, 0, 0, 0, 0, 0, 0, 0, 0, 0, 0, 0, 0, 0, 0, 0,
];

/// The record with this number, sequence, flags and base (0 for none), which uses so many bytes,
/// and with these attributes, the end mark among them.
pub fn record_of(
    alloc: Global,
    [number, seq, flags, base]: [u8; 4],
    used: usize,
    attributes: &[u8],
) -> Result<FileRec, Fail> {
    let [low, high] = two_bytes(used);
    let fields = [
        (0x10, seq),
        (0x16, flags),
        (0x18, low),
        (0x19, high),
        (0x20, base),
        (0x26, base),
        (0x2c, number),
    ];
    let mut body = Vec::new(alloc);
    push_with(&mut body, &HEADER, &fields)?;
    body.extend_from_slice(attributes)?;
    body.resize(1024, 0)?;
    if body.len() != 1024 {
        return Err("a record has 1,024 bytes".into());
    }
    Ok(FileRec::read(alloc, &body)?)
}
