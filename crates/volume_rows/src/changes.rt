//! Records of the change journal, and pages of them.
ghost use Rattle.std.specs.Prelude.{◌<◌, ◌^◌, IfOk};

use host_base::FileRef;
use std::alloc::{AllocError, Global};
use std::test::Fail;
use usn_record::{Usn, UsnFault, check_page, read, read_page, write};
use utf16_name::{Name, NameFault};

// File 26/1 in 25/1 with the name `f` was created and closed.
static RECORD: [u8; 0x40] = [
    0x40, 0, 0, 0, 2, 0, 0, 0, 0x1A, 0, 0, 0, 0, 0, 1, 0, 0x19, 0, 0, 0, 0, 0, 1, 0, 0x40, 0, 0, 0,
    0, 0, 0, 0, 0xea, 3, 0, 0, 0, 0, 0, 0, 0, 1, 0, 0x80, 0, 0, 0, 0, 0, 0, 0, 0, 0x20, 0, 0, 0, 2,
    0, 0x3c, 0, 0x66, 0, 0, 0,
];

// A record of version 3 of eight bytes.
static OTHER: [u8; 8] = [8, 0, 0, 0, 3, 0, 0, 0];

// The records of another version in a page, how many of its bytes are given, the offset from which
// it is checked, and the fault.
struct Row(u16, usize, u16, UsnFault);

static REFUSED: [Row; 4] = [
    // a record that runs past byte 4,096 of its page, where more bytes are given
    Row(511, 5000, 4088, UsnFault::Cut { at: 4088 }),
    Row(7, 5000, 0, UsnFault::Shape { at: 56 }),
    Row(0, 0x40, 4096, UsnFault::Shape { at: 4096 }),
    Row(0, 0x38, 0, UsnFault::Cut { at: 0 }),
];

fn worked(alloc: Global) -> Result<Usn, NameFault>
    ensures child { IfOk result (λ entry. entry.child.number < 2 ^ 48) }
    ensures parent { IfOk result (λ entry. entry.parent.number < 2 ^ 48) }
{
    Ok(Usn {
        usn: 64,
        child: FileRef { number: 26, seq: 1 },
        parent: FileRef { number: 25, seq: 1 },
        reason: 0x8000_0100,
        flags: 0x20,
        time: 1002,
        source: 0,
        security: 0,
        name: Name::checked(alloc, &[0x66])?,
    })
}

// A page: records of another version, as many as asked for, then the worked record, and then zeros.
fn page(alloc: Global, others: u16) -> Result<Vec<u8>, AllocError> {
    let mut page = Vec::new(alloc);
    for _ in 0..others {
        page.extend_from_slice(&OTHER)?;
    }
    page.extend_from_slice(&RECORD)?;
    page.extend_from_slice(&[0; 16])?;
    Ok(page)
}

#[test]
fn a_record_is_written(rt: HostRuntime) -> Result<(), Fail> {
    let entry = worked(rt.alloc())?;
    let mut out = Vec::new(rt.alloc());
    write(&entry, &mut out)?;
    assert_eq!(rt; out.as_slice(), RECORD.as_slice());
    Ok(())
}

#[test]
fn records_are_read(rt: HostRuntime) -> Result<(), Fail> {
    let page = page(rt.alloc(), 8)?;
    let entry = worked(rt.alloc())?;
    assert_eq!(rt; read(rt.alloc(), &page, 64)?, (Some(entry), 0x40));
    assert_eq!(rt; read(rt.alloc(), &page, 0)?, (None, 8));
    Ok(())
}

#[test]
fn whole_page(rt: HostRuntime) -> Result<(), Fail> {
    let page = page(rt.alloc(), 8)?;
    let entries = read_page(rt.alloc(), &page, 0)?;
    let entry = worked(rt.alloc())?;
    assert_eq!(rt; entries.as_slice(), [entry].as_slice());
    assert_eq!(rt; check_page(&page, 0), Ok(()));
    Ok(())
}

fn fault_of(alloc: Global, row: &Row) -> Result<Option<UsnFault>, AllocError> {
    let mut page = page(alloc, row.0)?;
    page.truncate(row.1);
    Ok(check_page(&page, u64::from(row.2)).err())
}

#[test]
fn refused_records(rt: HostRuntime) -> Result<(), Fail> {
    for (number, row) in REFUSED.iter().enumerate() {
        assert_eq!(rt; fault_of(rt.alloc(), row)?, Some(row.3), "row {number}");
    }
    Ok(())
}
