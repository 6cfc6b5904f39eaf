//! The tree of the rows, and operations on it.
ghost use Rattle.std.specs.Prelude.{◌≡◌, ◌≤◌, None, true, IfOk, length};
ghost use Rattle.tree_model.specs.Steps.{IsWithinBounds};
ghost use Rattle.change_lookup.specs.Comes.{is_file_change};

use std::alloc::Global;
use std::test::Fail;
use tree_model::{
    Bytes, FileRef, FileRefList, Kind, Link, LinkList, Name, Node, NodeList, Op, Path, Tree, Units,
    Why,
};

// An operation: the parts of its path, and the words behind it.
pub enum Asked {
    Create(&'static [&'static str]),
    Write(&'static [&'static str], u32, &'static [u8]),
    Fill(&'static [&'static str], u32, u32),
    Truncate(&'static [&'static str], u32),
}

fn node(number: u64, kind: Kind, why: Option<Why>, bytes: Bytes) -> Node {
    let size = bytes.len() as u64;
    Node {
        number,
        seq: 1,
        kind,
        why,
        held: false,
        size,
        valid: size / 2,
        clusters: 0,
        bytes,
        flags: 0x20,
        created: 0,
        modified: 0,
        changed: 0,
        read_at: 0,
    }
}

// The root, two files of the volume itself, five directories, of which three are fixed, six files
// that are fixed, and one of two bytes, of which one is initialised.
fn nodes(alloc: Global) -> Result<NodeList, Fail> {
    let mut nodes = NodeList::new(alloc);
    for (number, kind, why) in [
        (5, Kind::Directory, None),
        (0, Kind::System, None),
        (11, Kind::Directory, None),
        (65, Kind::Directory, None),
        (66, Kind::Directory, None),
        (67, Kind::Opaque, Some(Why::Encrypted)),
        (68, Kind::Opaque, Some(Why::Compressed)),
        (69, Kind::Fixed, Some(Why::Sparse)),
        (70, Kind::Fixed, Some(Why::List)),
        (71, Kind::Opaque, Some(Why::Reparse)),
        (73, Kind::Directory, Some(Why::List)),
        (74, Kind::Directory, Some(Why::Reparse)),
        (75, Kind::Fixed, Some(Why::Object)),
        (76, Kind::Directory, Some(Why::Object)),
    ] {
        nodes.push(node(number, kind, why, Bytes::new(alloc)))?;
    }
    let bytes = Bytes::copy_of(alloc, &[1, 2])?;
    nodes.push(node(72, Kind::File, None, bytes))?;
    Ok(nodes)
}

fn links(alloc: Global) -> Result<LinkList, Fail> {
    let mut links = LinkList::new(alloc);
    for (parent, name, child) in [
        (5, "$MFT", 0),
        (5, "$Extend", 11),
        (11, "old", 72),
        (5, "d", 65),
        (65, "e", 66),
        (5, "hid", 67),
        (5, "press", 68),
        (5, "thin", 69),
        (5, "long", 70),
        (5, "point", 71),
        (5, "old", 72),
        (5, "many", 73),
        (5, "there", 74),
        (5, "kept", 75),
        (5, "named", 76),
    ] {
        let parent = FileRef {
            number: parent,
            seq: 1,
        };
        links.push(Link {
            parent,
            name: Name::from_text(alloc, name)?,
            space: 0,
            child: FileRef {
                number: child,
                seq: 1,
            },
        })?;
    }
    Ok(links)
}

// So many spare numbers, the least of them 25, which comes last.
fn spare(alloc: Global, many: u32) -> Result<FileRefList, Fail> {
    let mut spare = FileRefList::new(alloc);
    for i in 0..many {
        spare.push(FileRef {
            number: 24 + u64::from(many - i),
            seq: 7,
        })?;
    }
    Ok(spare)
}

// The tree with so many spare numbers, records and free clusters, and no journal.
pub fn tree(alloc: Global, many: u32, count: u64, room: u64) -> Result<Tree, Fail>
    ensures { IfOk result (λ t. t.journal ≡ None) }
{
    Ok(Tree {
        nodes: nodes(alloc)?,
        links: links(alloc)?,
        spare: spare(alloc, many)?,
        count,
        journal: None,
        room,
    })
}

// A part of a path, which need be no name: a unit for each letter.
fn part(alloc: Global, letters: &str) -> Result<Units, Fail> {
    let mut units = Vec::new(alloc);
    for letter in letters.as_bytes() {
        units.push(u16::from(*letter))?;
    }
    Ok(Units::from(units))
}

fn path(alloc: Global, parts: &[&str]) -> Result<Path, Fail> {
    let mut path = Path::new(alloc);
    for letters in parts {
        path.push(part(alloc, letters)?)?;
    }
    Ok(path)
}

// No more bytes than one operation may have.
fn some_bytes(bytes: &[u8]) -> &[u8]
    ensures { length result.now ≤ 65536 }
{
    bytes.split_at(bytes.len().min(65_536)).0
}

// The operation; a fill has 7 as its byte.
pub fn op(alloc: Global, asked: &Asked) -> Result<Op, Fail>
    ensures bounds { IfOk result (λ op. IsWithinBounds op) }
    ensures changes { IfOk result (λ op. is_file_change op ≡ true) }
{
    match asked {
        Asked::Create(parts) => Ok(Op::Create {
            path: path(alloc, parts)?,
        }),
        Asked::Write(parts, offset, bytes) => Ok(Op::Write {
            path: path(alloc, parts)?,
            offset: u64::from(*offset),
            bytes: Bytes::copy_of(alloc, some_bytes(bytes))?,
        }),
        Asked::Fill(parts, offset, count) => Ok(Op::Fill {
            path: path(alloc, parts)?,
            offset: u64::from(*offset),
            count: u64::from(*count).min(65_536),
            byte: 7,
        }),
        Asked::Truncate(parts, size) => Ok(Op::Truncate {
            path: path(alloc, parts)?,
            size: u64::from(*size),
        }),
    }
}
