//! File records that are read, and the least rule that one breaks.
use crate::parts::{Edit, ROOT, put, root_head, root_name, sparse_stream};
use file_record::{FileRec, RecFault};
use std::alloc::Global;
use std::test::Fail;

// What is changed in the root's record, and the rule that is broken then.
struct Row(&'static [Edit], u32);

// A sparse stream `ab` of ten clusters in place of the name.
static SPARSE: [Edit; 7] = [
    Edit(
        0x38,
        &[0x80, 0, 0, 0, 0x60, 0, 0, 0, 1, 2, 0x48, 0, 0, 0x80, 7, 0],
    ),
    Edit(0x48, &[0, 0, 0, 0, 0, 0, 0, 0, 9, 0, 0, 0, 0, 0, 0, 0]),
    Edit(
        0x58,
        &[0x50, 0, 4, 0, 0, 0, 0, 0, 0, 0x50, 0, 0, 0, 0, 0, 0],
    ),
    Edit(
        0x68,
        &[0x21, 0x43, 0, 0, 0, 0, 0, 0, 0, 0x40, 0, 0, 0, 0, 0, 0],
    ),
    Edit(0x78, &[0, 0x20, 0, 0, 0, 0, 0, 0]),
    Edit(0x80, b"a\0b\0\0\0\0\0"),
    Edit(
        0x88,
        &[0x11, 10, 0x10, 0, 0, 0, 0, 0, 0, 0, 0, 0, 0, 0, 0, 0],
    ),
];

static RULES: [Row; 28] = [
    Row(&[], 0),
    // the first attribute at no multiple of 8, at the end of the used bytes, behind them
    Row(&[Edit(0x14, &[0x3c])], 1),
    Row(&[Edit(0x14, &[0xa0])], 1),
    Row(&[Edit(0x14, &[0, 4])], 1),
    // more bytes used than allocated, and not 1,024 allocated
    Row(&[Edit(0x18, &[8, 4])], 2),
    Row(&[Edit(0x1c, &[0, 8])], 2),
    // a length of 0, below the header, no multiple of 8, past the used bytes
    Row(&[Edit(0x3c, &[0])], 3),
    Row(&[Edit(0x3c, &[0x10])], 3),
    Row(&[Edit(0x3c, &[0x5c])], 3),
    Row(&[Edit(0x3c, &[0x70])], 3),
    // a mapped attribute that ends before its header does
    Row(&[Edit(0x3c, &[0x38]), Edit(0x40, &[1])], 3),
    // types fall
    Row(
        &[
            Edit(0x18, &[0xb8]),
            Edit(0x98, &[0x20, 0, 0, 0, 0x18]),
            Edit(0xac, &[0x18]),
            Edit(0xb0, &[0xff, 0xff, 0xff, 0xff]),
        ],
        4,
    ),
    // no end mark, and three bytes of one
    Row(&[Edit(0x18, &[0x98])], 5),
    Row(&[Edit(0x18, &[0x9b])], 5),
    // a name past its attribute by one byte, and one that ends with it
    Row(&[Edit(0x41, &[1, 0x5f])], 6),
    Row(&[Edit(0x41, &[1, 0x5e])], 0),
    Row(&[Edit(0x38, &[0x40]), Edit(0x48, &[0x49])], 6),
    Row(&[Edit(0x38, &[0x40]), Edit(0x48, &[0x48])], 0),
    // namespace 4, a slash, and standard information that is too short
    Row(&[Edit(0x91, &[4])], 8),
    Row(&[Edit(0x92, b"/")], 8),
    Row(&[Edit(0x38, &[0x10]), Edit(0x48, &[0x2f])], 8),
    Row(&[Edit(0x38, &[0x10]), Edit(0x48, &[0x30])], 0),
    // two at once
    Row(&[Edit(0x14, &[0x3c]), Edit(0x18, &[8, 4])], 1),
    Row(&[Edit(0x18, &[8, 4]), Edit(0x3c, &[0])], 2),
    Row(&[Edit(0x3c, &[0]), Edit(0x91, &[4])], 3),
    Row(&[Edit(0x18, &[0x98]), Edit(0x41, &[1, 0x5f])], 5),
    Row(&[Edit(0x41, &[1, 0x5f]), Edit(0x91, &[4])], 6),
    Row(
        &[
            Edit(0x91, &[4]),
            Edit(0x18, &[0xb0]),
            Edit(0x98, &[0x20, 0, 0, 0, 0x18]),
        ],
        4,
    ),
];

// What is read of the root's body with these edits, and the check word 1.
fn read_with(alloc: Global, edits: &[Edit]) -> Result<FileRec, RecFault> {
    let mut body = [0; 1024];
    put(&mut body, &ROOT);
    put(&mut body, &[Edit(0x30, &[1, 0])]);
    put(&mut body, edits);
    FileRec::read(alloc, &body)
}

#[test]
fn reads_the_root(rt: HostRuntime) -> Result<(), Fail> {
    let record = read_with(rt.alloc(), &[])?;
    let name = root_name(rt.alloc())?;
    assert_eq!(rt; record.head(), root_head());
    assert_eq!(rt; record.attrs().as_slice(), [name].as_slice());
    Ok(())
}

#[test]
fn reads_a_mapped_attribute(rt: HostRuntime) -> Result<(), Fail> {
    let record = read_with(rt.alloc(), &SPARSE)?;
    let stream = sparse_stream(rt.alloc())?;
    assert_eq!(rt; record.attrs().as_slice(), [stream].as_slice());
    Ok(())
}

// The rule that is answered, or 0 for a record.
fn rule_with(alloc: Global, edits: &[Edit]) -> Result<u32, RecFault> {
    match read_with(alloc, edits) {
        Ok(_) => Ok(0),
        Err(RecFault::Rule { rule }) => Ok(rule),
        Err(fault) => Err(fault),
    }
}

#[test]
fn answers_the_least_rule(rt: HostRuntime) -> Result<(), Fail> {
    for (row, Row(edits, rule)) in RULES.iter().enumerate() {
        assert_eq!(rt; rule_with(rt.alloc(), edits)?, *rule, "row {row}");
    }
    Ok(())
}
