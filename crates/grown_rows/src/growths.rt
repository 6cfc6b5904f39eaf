//! Growths of the file table of a new volume, one behind the other.
use crate::finding::Found;
use crate::volume::{Laid, Patch, new_volume};
use std::alloc::Global;
use std::test::Fail;

// What is other of a new volume; and what is found of it as it is, and behind each growth.
struct Row(&'static [Patch], &'static [Found]);

// The sizes of file 1 stand at 0x138 and 0x140 of its record, whose copy is record 1 of the mirror:
// the data of two records, and one byte less than that of one.
const TWO: &[Patch] = &[
    (34, 0x139, 8),
    (34, 0x141, 8),
    (18, 0x139, 8),
    (18, 0x141, 8),
];

const LESS: &[Patch] = &[
    (34, 0x138, 0xff),
    (34, 0x139, 3),
    (34, 0x140, 0xff),
    (34, 0x141, 3),
    (18, 0x138, 0xff),
    (18, 0x139, 3),
    (18, 0x140, 0xff),
    (18, 0x141, 3),
];

// A new volume: 64 records in the clusters 4 to 19, of which those from 24 on are spare, and clear
// clusters from 567 on.
const NEW: Found = Found {
    nodes: 12,
    links: 12,
    spare: 40,
    count: 64,
    has_journal: false,
    room: 1480,
    last: (0, 4, 16),
    is_mirrored: true,
};

const ONCE: Found = Found {
    spare: 296,
    count: 320,
    room: 1416,
    last: (16, 567, 64),
    ..NEW
};

const TWICE: Found = Found {
    spare: 552,
    count: 576,
    room: 1352,
    last: (16, 567, 128),
    ..NEW
};

const THRICE: Found = Found {
    spare: 808,
    count: 832,
    room: 1288,
    last: (16, 567, 192),
    ..NEW
};

const ALONE: Found = Found {
    is_mirrored: false,
    ..ONCE
};

static ROWS: [Row; 3] = [
    Row(&[], &[NEW, ONCE, TWICE, THRICE]),
    Row(TWO, &[NEW, ONCE]),
    Row(LESS, &[NEW, ALONE]),
];

// Behind how many growths of a row something else is found than is wanted, if it is.
fn first_other(alloc: Global, row: &Row) -> Result<Option<usize>, Fail> {
    let mut device = new_volume(alloc, row.0)?;
    let mut laid = Laid::empty(alloc);
    for (growths, wanted) in row.1.iter().enumerate() {
        if growths > 0 {
            laid.grow(alloc, &mut device)?;
        }
        if laid.found(alloc, &mut device)? != *wanted {
            return Ok(Some(growths));
        }
    }
    Ok(None)
}

#[test]
fn a_file_table_grows(rt: HostRuntime) -> Result<(), Fail> {
    for (number, row) in ROWS.iter().enumerate() {
        assert_eq!(rt; first_other(rt.alloc(), row)?, None, "row {number}");
    }
    Ok(())
}
