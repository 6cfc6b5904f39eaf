//! What the plain step answers where it makes, writes, fills and cuts files, and what it leaves.
ghost use Rattle.std.specs.Prelude.{◌≡◌, ◌≤◌, None, IfOk, length};
ghost use Rattle.file_tree.specs.declared.tree.Tree.{Tree as the_tree};
ghost use Rattle.tree_model.specs.Steps.{IsWithinBounds, HasStep};

use run_model::Turn;
use std::alloc::Global;
use std::test::Fail;
use transcript::text;
use tree_model::{
    Bytes, FileRef, FileRefList, Kind, Link, LinkList, Name, Node, NodeList, Op, Path, Reply, Tree,
    Units, Why, step,
};
use upcase_order::Upcase;

// An operation: the parts of its path, and the words behind it.
enum Asked {
    Create(&'static [&'static str]),
    Write(&'static [&'static str], u32, &'static [u8]),
    Fill(&'static [&'static str], u32, u32, u8),
    Truncate(&'static [&'static str], u32),
    Stat(&'static [&'static str]),
}

// An operation, and its reply as printed.
struct Row(Asked, &'static str);

// The tree's spare numbers, its records and its room; an operation, and its reply as printed.
struct Room(u32, u64, u64, Asked, &'static str);

// The time of a step, an operation, and its reply as printed; the size of file 25 afterwards, how
// many of its bytes are initialised, and the bytes that it ends in.
struct Turned(u32, Asked, &'static str, u64, u64, &'static [u8]);

// On a tree with ample room.
static NAMES: [Row; 11] = [
    Row(Asked::Create(&["f"]), "created 25 1"),
    Row(Asked::Create(&["d", "f"]), "created 25 1"),
    Row(Asked::Create(&[]), "bad-name"),
    Row(Asked::Create(&["."]), "bad-name"),
    Row(Asked::Create(&[".."]), "bad-name"),
    Row(Asked::Create(&["no", ".."]), "bad-name"),
    Row(Asked::Create(&["no", "f"]), "not-found 1"),
    Row(Asked::Create(&["old", "f"]), "not-directory 1"),
    Row(Asked::Create(&["$Extend", "old"]), "system"),
    Row(Asked::Create(&["oLd"]), "exists"),
    Row(Asked::Stat(&["d", "e", "f", "g"]), "not-found 3"),
];

static ROOMS: [Room; 10] = [
    Room(0, 1_048_576, 0, Asked::Create(&["OLD"]), "exists"),
    Room(0, 1_048_576, 0, Asked::Create(&["f"]), "mft-full 1048576"),
    Room(0, 1_048_321, 0, Asked::Create(&["f"]), "mft-full 1048321"),
    Room(
        0,
        1_048_320,
        147,
        Asked::Create(&["f"]),
        "created 1048320 1",
    ),
    Room(0, 256, 146, Asked::Create(&["f"]), "no-space 146 147"),
    Room(0, 256, 147, Asked::Create(&["f"]), "created 256 1"),
    Room(40, 256, 81, Asked::Create(&["f"]), "no-space 81 82"),
    Room(40, 256, 82, Asked::Create(&["f"]), "created 25 1"),
    Room(
        40,
        256,
        80,
        Asked::Truncate(&["old"], 65_537),
        "no-space 80 81",
    ),
    Room(40, 256, 81, Asked::Truncate(&["old"], 65_537), "size 65537"),
];

// On a tree without room.
static CHANGES: [Row; 16] = [
    Row(Asked::Write(&["old", "x"], 0, &[0]), "not-directory 1"),
    Row(Asked::Write(&[], 0, &[0]), "is-directory"),
    Row(Asked::Write(&["d"], 0, &[0]), "is-directory"),
    Row(Asked::Write(&["$Extend"], 0, &[0]), "is-directory"),
    Row(Asked::Write(&["$MFT"], 100_000, &[0]), "system"),
    Row(Asked::Write(&["hid"], 0, &[0]), "fixed encrypted"),
    Row(Asked::Fill(&["press"], 0, 1, 0), "fixed compressed"),
    Row(Asked::Fill(&["thin"], 0, 0, 0), "fixed sparse"),
    Row(Asked::Truncate(&["long"], 0), "fixed list"),
    Row(Asked::Write(&["point"], 100_000, &[0]), "fixed reparse"),
    Row(Asked::Write(&["old"], 65_537, &[0]), "too-long 65538"),
    Row(Asked::Fill(&["old"], 1, 65_536, 7), "no-space 0 81"),
    Row(Asked::Truncate(&["old"], 65_538), "too-long 65538"),
    Row(Asked::Truncate(&["old"], 3), "no-space 0 65"),
    Row(Asked::Truncate(&["old"], 1), "size 1"),
    Row(Asked::Write(&["old"], 100_000, &[]), "wrote 0"),
];

// A new file without bytes, its first bytes, and the first of them outside its record.
static FIRST: [Turned; 9] = [
    Turned(1, Asked::Create(&["f"]), "created 25 1", 0, 0, &[]),
    Turned(2, Asked::Write(&["f"], 0, &[]), "wrote 0", 0, 0, &[]),
    Turned(
        2,
        Asked::Write(&["F"], 100_000, &[0]),
        "too-long 100001",
        0,
        0,
        &[],
    ),
    Turned(
        2,
        Asked::Truncate(&["f"], 65_537),
        "too-long 65537",
        0,
        0,
        &[],
    ),
    Turned(
        2,
        Asked::Stat(&["f"]),
        "stat 25 1 file 1 0 0 1 1 1 1",
        0,
        0,
        &[],
    ),
    Turned(
        3,
        Asked::Fill(&["f"], 0, 744, 0x61),
        "wrote 744",
        744,
        744,
        &[0x61],
    ),
    Turned(
        4,
        Asked::Stat(&["f"]),
        "stat 25 1 file 1 744 1 1 3 3 1",
        744,
        744,
        &[],
    ),
    Turned(
        5,
        Asked::Write(&["f"], 744, &[0x61]),
        "wrote 1",
        745,
        745,
        &[0x61, 0x61],
    ),
    Turned(
        6,
        Asked::Stat(&["f"]),
        "stat 25 1 file 1 745 1 1 5 5 1",
        745,
        745,
        &[],
    ),
];

// Gaps, and a file that is cut and grows again.
static GAPS: [Turned; 8] = [
    Turned(1, Asked::Create(&["d", "f"]), "created 25 1", 0, 0, &[]),
    Turned(
        2,
        Asked::Write(&["d", "f"], 2, &[7, 8, 9]),
        "wrote 3",
        5,
        5,
        &[0, 0, 7, 8, 9],
    ),
    Turned(
        3,
        Asked::Write(&["d", "f"], 3, &[1]),
        "wrote 1",
        5,
        5,
        &[0, 0, 7, 1, 9],
    ),
    Turned(
        4,
        Asked::Truncate(&["d", "f"], 3),
        "size 3",
        3,
        3,
        &[0, 0, 7],
    ),
    Turned(
        5,
        Asked::Truncate(&["d", "f"], 5),
        "size 5",
        5,
        5,
        &[0, 0, 7, 0, 0],
    ),
    Turned(
        6,
        Asked::Truncate(&["d", "f"], 5),
        "size 5",
        5,
        5,
        &[0, 0, 7, 0, 0],
    ),
    Turned(
        7,
        Asked::Fill(&["d", "f"], 6, 2, 4),
        "wrote 2",
        8,
        8,
        &[7, 0, 0, 0, 4, 4],
    ),
    Turned(8, Asked::Truncate(&["d", "f"], 0), "size 0", 0, 0, &[]),
];

// A file that grows until the room is at an end.
static FULL: [Turned; 5] = [
    Turned(1, Asked::Create(&["f"]), "created 25 1", 0, 0, &[]),
    Turned(
        2,
        Asked::Fill(&["f"], 0, 65_536, 0xAA),
        "wrote 65536",
        65_536,
        65_536,
        &[0xAA],
    ),
    Turned(
        3,
        Asked::Fill(&["f"], 65_536, 65_536, 0xAA),
        "wrote 65536",
        131_072,
        131_072,
        &[0xAA],
    ),
    Turned(
        4,
        Asked::Fill(&["f"], 131_072, 65_536, 0xAA),
        "no-space 66 80",
        131_072,
        131_072,
        &[],
    ),
    Turned(
        5,
        Asked::Truncate(&["f"], 4_096),
        "size 4096",
        4_096,
        4_096,
        &[0xAA],
    ),
];

fn node(number: u64, kind: Kind, why: Option<Why>, bytes: Bytes) -> Node {
    let size = bytes.len() as u64;
    Node {
        number,
        seq: 1,
        kind,
        why,
        held: false,
        size,
        valid: size / 2,
        clusters: 0,
        bytes,
        flags: 0x20,
        created: 0,
        modified: 0,
        changed: 0,
        read_at: 0,
    }
}

// The root, two files of the volume itself, two directories, five files that are fixed, and one of
// two bytes, of which one is initialised.
fn nodes(alloc: Global) -> Result<NodeList, Fail> {
    let mut nodes = NodeList::new(alloc);
    for (number, kind, why) in [
        (5, Kind::Directory, None),
        (0, Kind::System, None),
        (11, Kind::Directory, None),
        (65, Kind::Directory, None),
        (66, Kind::Directory, None),
        (67, Kind::Opaque, Some(Why::Encrypted)),
        (68, Kind::Opaque, Some(Why::Compressed)),
        (69, Kind::Fixed, Some(Why::Sparse)),
        (70, Kind::Fixed, Some(Why::List)),
        (71, Kind::Opaque, Some(Why::Reparse)),
    ] {
        nodes.push(node(number, kind, why, Bytes::new(alloc)))?;
    }
    let bytes = Bytes::copy_of(alloc, &[1, 2])?;
    nodes.push(node(72, Kind::File, None, bytes))?;
    Ok(nodes)
}

fn links(alloc: Global) -> Result<LinkList, Fail> {
    let mut links = LinkList::new(alloc);
    for (parent, name, child) in [
        (5, "$MFT", 0),
        (5, "$Extend", 11),
        (11, "old", 72),
        (5, "d", 65),
        (65, "e", 66),
        (5, "hid", 67),
        (5, "press", 68),
        (5, "thin", 69),
        (5, "long", 70),
        (5, "point", 71),
        (5, "old", 72),
    ] {
        let parent = FileRef {
            number: parent,
            seq: 1,
        };
        links.push(Link {
            parent,
            name: Name::from_text(alloc, name)?,
            space: 0,
            child: FileRef {
                number: child,
                seq: 1,
            },
        })?;
    }
    Ok(links)
}

// So many spare numbers, the least of them 25, which comes last.
fn spare(alloc: Global, many: u32) -> Result<FileRefList, Fail> {
    let mut spare = FileRefList::new(alloc);
    for i in 0..many {
        spare.push(FileRef {
            number: 24 + u64::from(many - i),
            seq: 1,
        })?;
    }
    Ok(spare)
}

fn tree(alloc: Global, many: u32, count: u64, room: u64) -> Result<Tree, Fail>
    ensures { IfOk result (λ t. t.journal ≡ None) }
{
    Ok(Tree {
        nodes: nodes(alloc)?,
        links: links(alloc)?,
        spare: spare(alloc, many)?,
        count,
        journal: None,
        room,
    })
}

fn path(alloc: Global, parts: &[&str]) -> Result<Path, Fail> {
    let mut path = Path::new(alloc);
    for part in parts {
        path.push(Units::copy_of(alloc, Name::from_text(alloc, part)?.units())?)?;
    }
    Ok(path)
}

// No more bytes than one operation may have.
fn some_bytes(bytes: &[u8]) -> &[u8]
    ensures { length result.now ≤ 65536 }
{
    bytes.split_at(bytes.len().min(65_536)).0
}

fn op(alloc: Global, asked: &Asked) -> Result<Op, Fail>
    ensures bounds { IfOk result (λ op. IsWithinBounds op) }
    ensures steps { IfOk result (λ op. (t : the_tree) → t.journal ≡ None → HasStep op t) }
{
    match asked {
        Asked::Create(parts) => Ok(Op::Create {
            path: path(alloc, parts)?,
        }),
        Asked::Write(parts, offset, bytes) => Ok(Op::Write {
            path: path(alloc, parts)?,
            offset: u64::from(*offset),
            bytes: Bytes::copy_of(alloc, some_bytes(bytes))?,
        }),
        Asked::Fill(parts, offset, count, byte) => Ok(Op::Fill {
            path: path(alloc, parts)?,
            offset: u64::from(*offset),
            count: u64::from(*count).min(65_536),
            byte: *byte,
        }),
        Asked::Truncate(parts, size) => Ok(Op::Truncate {
            path: path(alloc, parts)?,
            size: u64::from(*size),
        }),
        Asked::Stat(parts) => Ok(Op::Stat {
            path: path(alloc, parts)?,
        }),
    }
}

// The reply is printed so, behind the numbers of its turn.
fn is_printed_so(alloc: Global, op: Op, reply: Reply, wanted: &str) -> Result<bool, Fail> {
    let turn = Turn {
        client: 1,
        number: 1,
        serial: 1,
        usn: 0,
        moment: 0,
        faults_before: 0,
        faults_after: 0,
        op,
        reply,
    };
    let mut out = String::new(alloc);
    text(&[turn], &[], &mut out)?;
    let mut line = String::from_str(alloc, "1 1 1 0 ")?;
    line.push_str(wanted)?;
    line.push_str("\n")?;
    Ok(out.as_str() == line.as_str())
}

// The same tree, which has no journal.
fn bare(tree: Tree) -> Tree
    ensures { result.journal ≡ None }
{
    Tree {
        nodes: tree.nodes,
        links: tree.links,
        spare: tree.spare,
        count: tree.count,
        journal: None,
        room: tree.room,
    }
}

// What a step at this time leaves, where it is answered so.
fn after(
    alloc: Global,
    tree: &Tree,
    upper: &Upcase,
    asked: &Asked,
    time: u32,
    wanted: &str,
) -> Result<Option<Tree>, Fail>
    requires { tree.now.journal ≡ None }
{
    let op = op(alloc, asked)?;
    let (after, reply) = step(alloc, tree, upper.as_slice(), &op, u64::from(time))?;
    if is_printed_so(alloc, op, reply, wanted)? && after.journal.is_none() {
        Ok(Some(after))
    } else {
        Ok(None)
    }
}

// On a tree with 40 spare numbers and so much room.
fn is_answered_so(alloc: Global, upper: &Upcase, room: u64, row: &Row) -> Result<bool, Fail> {
    let tree = tree(alloc, 40, 256, room)?;
    let after = after(alloc, &tree, upper, &row.0, 9, row.1)?;
    Ok(after.is_some())
}

fn has_so_much_room(alloc: Global, upper: &Upcase, row: &Room) -> Result<bool, Fail> {
    let tree = tree(alloc, row.0, row.1, row.2)?;
    let after = after(alloc, &tree, upper, &row.3, 9, row.4)?;
    Ok(after.is_some())
}

fn ends_in(bytes: &[u8], tail: &[u8]) -> bool {
    bytes.len() >= tail.len() && bytes.split_at(bytes.len() - tail.len()).1 == tail
}

// File 25 has this size, so many initialised bytes, and these at its end.
fn has_file(tree: &Tree, row: &Turned) -> bool {
    let nodes = tree.nodes.as_slice();
    match nodes.iter().find(|node| node.number == 25) {
        Some(node) => {
            let bytes = node.bytes.as_slice();
            let size = node.size == row.3 && bytes.len() as u64 == row.3;
            size && node.valid == row.4 && ends_in(bytes, row.5)
        }
        None => false,
    }
}

// The rows, one after the other on one tree with so much room: the first that doesn't hold.
fn first_other(alloc: Global, rows: &[Turned], room: u64) -> Result<Option<u64>, Fail> {
    let upper = Upcase::standard(alloc)?;
    let mut tree = tree(alloc, 40, 256, room)?;
    for (i, row) in rows.iter().enumerate() {
        let before = bare(tree);
        match after(alloc, &before, &upper, &row.1, row.0, row.2)? {
            Some(new) if has_file(&new, row) => tree = new,
            _ => return Ok(Some(i as u64)),
        }
    }
    Ok(None)
}

#[test]
fn a_file_is_made_where_its_name_may_be(rt: HostRuntime) -> Result<(), Fail> {
    let alloc = rt.alloc();
    let upper = Upcase::standard(alloc)?;
    for (i, row) in NAMES.iter().enumerate() {
        assert!(rt; is_answered_so(alloc, &upper, 1480, row)?, "row {i}");
    }
    Ok(())
}

#[test]
fn new_records_and_clusters_have_room(rt: HostRuntime) -> Result<(), Fail> {
    let alloc = rt.alloc();
    let upper = Upcase::standard(alloc)?;
    for (i, row) in ROOMS.iter().enumerate() {
        assert!(rt; has_so_much_room(alloc, &upper, row)?, "row {i}");
    }
    Ok(())
}

#[test]
fn a_change_is_refused_by_the_first_row(rt: HostRuntime) -> Result<(), Fail> {
    let alloc = rt.alloc();
    let upper = Upcase::standard(alloc)?;
    for (i, row) in CHANGES.iter().enumerate() {
        assert!(rt; is_answered_so(alloc, &upper, 0, row)?, "row {i}");
    }
    Ok(())
}

#[test]
fn files_grow_and_are_cut(rt: HostRuntime) -> Result<(), Fail> {
    let alloc = rt.alloc();
    assert_eq!(rt; first_other(alloc, &FIRST, 1480)?, None);
    assert_eq!(rt; first_other(alloc, &GAPS, 1480)?, None);
    assert_eq!(rt; first_other(alloc, &FULL, 116)?, None);
    Ok(())
}
