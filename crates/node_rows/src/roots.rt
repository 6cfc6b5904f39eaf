//! The roots of an index, as they are written, and entries that have no spelling.
ghost use Rattle.std.specs.Prelude.{◌≡◌, true, IfOk};
ghost use Rattle.index_node.specs.Roots.{HaveSpelling};

use host_base::{Bytes, FileRef};
use index_node::{Entry, EntryList, have_spelling, read_root, write_root};
use std::alloc::{AllocError, Global};
use std::test::Fail;

// A root of no keys, with a child of VCN 3, over blocks of 8 clusters.
static ROOT: [u8; 0x38] = [
    0x30, 0, 0, 0, 1, 0, 0, 0, 0, 0x10, 0, 0, 8, 0, 0, 0, 0x10, 0, 0, 0, 0x28, 0, 0, 0, 0x28, 0, 0,
    0, 1, 0, 0, 0, 0, 0, 0, 0, 0, 0, 0, 0, 0x18, 0, 0, 0, 3, 0, 0, 0, 3, 0, 0, 0, 0, 0, 0, 0,
];

// A node of a last entry with this child, and an entry of this file behind it.
fn node(alloc: Global, number: u64, down: Option<u64>) -> Result<EntryList, AllocError> {
    let mut entries = EntryList::new(alloc);
    entries.push(Entry {
        child: FileRef { number, seq: 0 },
        key: Bytes::new(alloc),
        down,
    })?;
    Ok(entries)
}

#[test]
fn writes_a_root(rt: HostRuntime) -> Result<(), Fail> {
    let alloc = rt.alloc();
    let entries = node(alloc, 0, Some(3))?;
    let fits = have_spelling(&entries);
    assert!(rt; fits);
    let value = write_root(alloc, 8, entries)?;
    assert_eq!(rt; value.as_slice(), ROOT.as_slice());
    let again = read_root(alloc, value.as_slice())?;
    assert_eq!(rt; again.len(), 1);
    Ok(())
}

#[test]
fn tells_what_has_no_spelling(rt: HostRuntime) -> Result<(), Fail> {
    let alloc = rt.alloc();
    let entries = node(alloc, 26, None)?;
    assert!(rt; !have_spelling(&entries));
    assert!(rt; !have_spelling(&EntryList::new(alloc)));
    Ok(())
}
