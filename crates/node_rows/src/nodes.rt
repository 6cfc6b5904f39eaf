//! The nodes of an index: how they are read, edited and written.
ghost use Rattle.std.specs.Prelude.{◌≡◌, true, length, IfOk};
ghost use Rattle.record_model.specs.Values.{is_file_name};

use host_base::{Bytes, FileRef};
use index_node::{Entry, Node, NodeFault, read_root};
use record_model::FileNameValue;
use std::alloc::{AllocError, Global};
use std::test::Fail;
use std_values::NamedValue;

// Bytes that stand from this place on.
struct Edit(usize, &'static [u8]);

// What is changed in the bytes, and the rule that is broken then.
struct Row(&'static [Edit], u32);

// An entry that is read: its file's number and sequence, where its key begins and ends, and its
// child.
struct Wanted(u64, u16, usize, usize, Option<u64>);

// The value of the index root of a directory 5/5, a leaf with `$LogFile`, `$MFT` and `.`.
static ROOT: [Edit; 16] = [
    Edit(0x00, &[0x30, 0, 0, 0, 1, 0, 0, 0, 0, 0x10, 0, 0, 8]),
    Edit(0x10, &[0x10, 0, 0, 0, 0x40, 1, 0, 0, 0x40, 1]),
    Edit(0x20, &[2, 0, 0, 0, 0, 0, 2, 0, 0x68, 0, 0x52]),
    Edit(0x30, &[5, 0, 0, 0, 0, 0, 5]),
    Edit(0x70, &[8, 3]),
    Edit(0x72, b"$\0L\0o\0g\0F\0i\0l\0e"),
    Edit(0x88, &[0, 0, 0, 0, 0, 0, 1, 0, 0x60, 0, 0x4a]),
    Edit(0x98, &[5, 0, 0, 0, 0, 0, 5]),
    Edit(0xd8, &[4, 3]),
    Edit(0xda, b"$\0M\0F\0T"),
    Edit(0xe8, &[5, 0, 0, 0, 0, 0, 5, 0, 0x58, 0, 0x44]),
    Edit(0xf8, &[5, 0, 0, 0, 0, 0, 5]),
    Edit(0x138, &[1, 3]),
    Edit(0x13a, b"."),
    // the last entry, with a file and a key length that don't count
    Edit(0x140, &[9, 0, 0, 0, 0, 0, 9, 0, 0x10, 0, 0x52]),
    Edit(0x14c, &[2]),
];

// An index block with `a`, `b` and the last entry, each with a child, as it is written.
static BLOCK: [Edit; 12] = [
    Edit(0x00, b"INDX\x28\0\x09\0\x07"),
    Edit(0x10, &[1]),
    Edit(0x18, &[0x28, 0, 0, 0, 0, 1, 0, 0, 0xe8, 0x0f, 0, 0, 1]),
    Edit(0x40, &[24, 0, 0, 0, 0, 0, 1, 0, 0x60, 0, 0x44, 0, 1]),
    Edit(0x50, &[5, 0, 0, 0, 0, 0, 5]),
    Edit(0x90, &[1, 0, 0x61]),
    Edit(0x98, &[3]),
    Edit(0xa0, &[25, 0, 0, 0, 0, 0, 1, 0, 0x60, 0, 0x44, 0, 1]),
    Edit(0xb0, &[5, 0, 0, 0, 0, 0, 5]),
    Edit(0xf0, &[1, 0, 0x62]),
    Edit(0xf8, &[4]),
    Edit(0x108, &[0x18, 0, 0, 0, 3, 0, 0, 0, 5]),
];

// The entries of `ROOT`.
static ROOT_ENTRIES: [Wanted; 4] = [
    Wanted(2, 2, 0x30, 0x82, None),
    Wanted(0, 1, 0x98, 0xe2, None),
    Wanted(5, 5, 0xf8, 0x13c, None),
    Wanted(0, 0, 0, 0, None),
];

// The entries of `BLOCK`, and those that are cut off before its second one.
static BLOCK_ENTRIES: [Wanted; 3] = [
    Wanted(24, 1, 0x50, 0x94, Some(3)),
    Wanted(25, 1, 0xb0, 0xf4, Some(4)),
    Wanted(0, 0, 0, 0, Some(5)),
];

static CUT_ENTRIES: [Wanted; 2] = [
    Wanted(24, 1, 0x50, 0x94, Some(3)),
    Wanted(0, 0, 0, 0, Some(4)),
];

// A leaf without keys.
static LEAF: [Edit; 3] = [
    Edit(0x00, b"INDX"),
    Edit(0x18, &[0x28, 0, 0, 0, 0x38, 0, 0, 0, 0xe8, 0x0f]),
    Edit(0x48, &[0x10, 0, 0, 0, 2]),
];

// The name `c` of a file in a directory 5/5.
static NAME: [Edit; 2] = [
    Edit(0x00, &[5, 0, 0, 0, 0, 0, 5]),
    Edit(0x40, &[1, 3, 0x63]),
];

static ROOT_RULES: [Row; 20] = [
    Row(&[], 0),
    // another type, collation or block
    Row(&[Edit(0x00, &[0x80])], 3),
    Row(&[Edit(0x04, &[0])], 3),
    Row(&[Edit(0x09, &[0x08])], 3),
    // clusters of a block aren't looked at
    Row(&[Edit(0x0c, &[1])], 0),
    // the first entry in the header, at no multiple of 8, behind the used bytes
    Row(&[Edit(0x10, &[8])], 3),
    Row(&[Edit(0x10, &[0x14])], 3),
    Row(&[Edit(0x10, &[0x48, 1])], 3),
    // more used than allocated, more allocated than there is
    Row(&[Edit(0x14, &[0x48])], 3),
    Row(&[Edit(0x18, &[0x48])], 3),
    // a length of 0, of no multiple of 8, past the used bytes
    Row(&[Edit(0x28, &[0])], 4),
    Row(&[Edit(0x28, &[0x6c])], 4),
    Row(&[Edit(0x148, &[0x18])], 4),
    // a key past its entry, and one of a namespace that there isn't
    Row(&[Edit(0x92, &[0x52])], 4),
    Row(&[Edit(0x139, &[4])], 4),
    // a key at fault behind a child flag against the node's flag
    Row(&[Edit(0x94, &[1]), Edit(0x139, &[4])], 4),
    // no last entry: its flag is missing and its key counts, it lies past the used bytes, or there
    // are too few bytes
    Row(&[Edit(0x14c, &[0])], 4),
    Row(&[Edit(0x14, &[0x30])], 5),
    Row(&[Edit(0x14, &[0x38])], 5),
    // children without the node's flag
    Row(&[Edit(0x1c, &[1])], 6),
];

static BLOCK_RULES: [Row; 7] = [
    Row(&[], 0),
    Row(&[Edit(0x03, b"Y")], 1),
    // the signature comes before the header
    Row(&[Edit(0x00, b"FILE"), Edit(0x18, &[0])], 1),
    Row(&[Edit(0x20, &[0xf0])], 3),
    // too short for its child
    Row(&[Edit(0x108, &[0x10])], 4),
    Row(&[Edit(0x1c, &[0xe8, 0])], 5),
    Row(&[Edit(0x10c, &[2])], 6),
];

fn put(bytes: &mut [u8], edits: &[Edit]) {
    for edit in edits {
        for (i, byte) in edit.1.iter().enumerate() {
            if i < bytes.len() && edit.0 < bytes.len() - i {
                bytes[edit.0 + i] = *byte;
            }
        }
    }
}

// So many bytes with these, and then the changed ones.
fn changed(alloc: Global, size: usize, base: &[Edit], edits: &[Edit]) -> Result<Vec<u8>, AllocError>
    ensures { IfOk result (λ bytes. length bytes.items ≡ size) }
{
    let mut bytes = vec![in alloc; 0u8; size]?;
    put(&mut bytes, base);
    put(&mut bytes, edits);
    Ok(bytes)
}

// The rule that is answered, or 0.
fn rule_of(fault: Option<NodeFault>) -> u32 {
    match fault {
        None => 0,
        Some(NodeFault::Rule { rule }) => rule,
        Some(NodeFault::Full { .. }) => 100,
        Some(NodeFault::Memory) => 200,
    }
}

// Whether an entry of these bytes is as wanted.
fn is_as_wanted(entry: &Entry, bytes: &[u8], wanted: &Wanted) -> bool {
    let Wanted(number, seq, from, to, down) = *wanted;
    from <= to
        && to <= bytes.len()
        && entry.child == FileRef { number, seq }
        && entry.key.as_slice() == &bytes[from..to]
        && entry.down == down
}

// The place of the first entry that isn't as wanted, or where there is one too few or too many.
fn first_other(entries: &[Entry], bytes: &[u8], wanted: &[Wanted]) -> Option<usize> {
    for (i, entry) in entries.iter().enumerate() {
        let Some(want) = wanted.get(i) else {
            return Some(i);
        };
        if !is_as_wanted(entry, bytes, want) {
            return Some(i);
        }
    }
    if entries.len() == wanted.len() {
        return None;
    }
    Some(entries.len())
}

#[test]
fn reads_a_root(rt: HostRuntime) -> Result<(), Fail> {
    let value = changed(rt.alloc(), 0x150, &ROOT, &[])?;
    let list = read_root(rt.alloc(), &value)?;
    assert_eq!(rt; first_other(list.as_slice(), &value, &ROOT_ENTRIES), None);
    Ok(())
}

// The block that is written of the node that is read, where it has room.
fn rewritten(alloc: Global, body: &[u8]) -> Result<Vec<u8>, NodeFault>
    requires { length body.now ≡ 4096 }
{
    let node = Node::read(alloc, body)?;
    let mut out = vec![in alloc; 0xaau8; 4096]?;
    if node.used() <= 4072 {
        node.write(&mut out);
    }
    Ok(out)
}

#[test]
fn reads_a_block(rt: HostRuntime) -> Result<(), Fail> {
    let body = changed(rt.alloc(), 4096, &BLOCK, &[])?;
    let node = Node::read(rt.alloc(), &body)?;
    assert_eq!(rt; (node.vcn(), node.lsn(), node.used()), (1, 7, 0x100));
    assert_eq!(rt;
        first_other(node.entries().as_slice(), &body, &BLOCK_ENTRIES),
        None
    );
    Ok(())
}

#[test]
fn writes_a_block(rt: HostRuntime) -> Result<(), Fail> {
    let body = changed(rt.alloc(), 4096, &BLOCK, &[])?;
    let again = rewritten(rt.alloc(), &body)?;
    assert_eq!(rt; again.as_slice(), body.as_slice());
    Ok(())
}

#[test]
fn answers_the_least_rule_of_a_root(rt: HostRuntime) -> Result<(), Fail> {
    for (row, Row(edits, rule)) in ROOT_RULES.iter().enumerate() {
        let value = changed(rt.alloc(), 0x150, &ROOT, edits)?;
        let broken = rule_of(read_root(rt.alloc(), &value).err());
        assert_eq!(rt; broken, *rule, "row {row}");
    }
    Ok(())
}

#[test]
fn answers_the_least_rule_of_a_block(rt: HostRuntime) -> Result<(), Fail> {
    for (row, Row(edits, rule)) in BLOCK_RULES.iter().enumerate() {
        let body = changed(rt.alloc(), 4096, &BLOCK, edits)?;
        let broken = rule_of(Node::read(rt.alloc(), &body).err());
        assert_eq!(rt; broken, *rule, "row {row}");
    }
    Ok(())
}

// An entry of file 26/1 with this key, where it is a file-name value.
#[tactic(auto, using(index_node::proofs::Keys::lawful))]
fn named(alloc: Global, key: &[u8], down: Option<u64>) -> Result<Entry, Fail>
    ensures { IfOk result (λ entry. is_file_name entry.key ≡ true) }
{
    let _ = FileNameValue::read(alloc, key)?;
    Ok(Entry {
        child: FileRef { number: 26, seq: 1 },
        key: Bytes::copy_of(alloc, key)?,
        down,
    })
}

// An entry of file 26/1 with the name of `NAME`.
fn entry_with(alloc: Global, down: Option<u64>) -> Result<Entry, Fail>
    ensures { IfOk result (λ entry. is_file_name entry.key ≡ true) }
{
    let key = changed(alloc, 0x44, &NAME, &[])?;
    named(alloc, &key, down)
}

// The node of a block.
fn node_of(alloc: Global, base: &[Edit]) -> Result<Node, Fail> {
    let body = changed(alloc, 4096, base, &[])?;
    Ok(Node::read(alloc, &body)?)
}

#[test]
fn puts_in_and_takes_out(rt: HostRuntime) -> Result<(), Fail> {
    let entry = entry_with(rt.alloc(), Some(6))?;
    let mut node = node_of(rt.alloc(), &BLOCK)?;
    assert_eq!(rt; node.entries().len(), 3);
    node.insert(2, &entry)?;
    assert_eq!(rt; (node.entries().len(), node.used()), (4, 0x160));
    node.remove(2);
    node.set_vcn(8);
    assert_eq!(rt; used_under_8(&node), 0x100);
    Ok(())
}

// The used bytes of a node under VCN 8.
fn used_under_8(node: &Node) -> u32 {
    if node.vcn() == 8 { node.used() } else { 0 }
}

#[test]
fn cuts_a_node(rt: HostRuntime) -> Result<(), Fail> {
    let body = changed(rt.alloc(), 4096, &BLOCK, &[])?;
    let mut node = Node::read(rt.alloc(), &body)?;
    assert_eq!(rt; node.entries().len(), 3);
    let left = node.split(1)?;
    let sizes = (0x28 + 0x60 + 0x18, 0x28 + 0x18);
    assert_eq!(rt; (left.used(), node.used()), sizes);
    assert_eq!(rt;
        first_other(left.entries().as_slice(), &body, &CUT_ENTRIES),
        None
    );
    Ok(())
}

// A leaf with 45 times this key.
fn filled(alloc: Global, entry: &Entry) -> Result<Node, Fail>
    requires { is_file_name entry.now.key ≡ true }
{
    let mut node = node_of(alloc, &LEAF)?;
    for _ in 0..45 {
        if node.entries().len() > 0 {
            node.insert(0, entry)?;
        }
    }
    Ok(node)
}

#[test]
fn fills_a_node(rt: HostRuntime) -> Result<(), Fail> {
    let entry = entry_with(rt.alloc(), None)?;
    let mut node = filled(rt.alloc(), &entry)?;
    assert_eq!(rt; (node.entries().len(), node.used()), (46, 4016));
    let full = NodeFault::Full { used: 4104 };
    assert_eq!(rt; node.insert(0, &entry), Err(full));
    assert_eq!(rt; node.entries().len(), 46);
    Ok(())
}
