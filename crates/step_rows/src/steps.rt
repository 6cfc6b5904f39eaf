//! What the plain step answers on a small tree, which stays as it was.
ghost use Rattle.std.specs.Prelude.{◌≡◌, true, IfOk};
ghost use Rattle.file_tree.specs.declared.tree.Tree.{Tree as the_tree};
ghost use Rattle.tree_model.specs.Steps.{is_look, IsWithinBounds, HasStep};

use std::alloc::Global;
use std::test::Fail;
use tree_model::{
    Bytes, FileRef, FileRefList, Kind, Link, LinkList, Name, NameList, Node, NodeList, Op, Path,
    Reply, Tree, Units, step,
};
use upcase_order::Upcase;

// The parts of a path, the time of the step, and what answers it.
struct Row(&'static [&'static str], u32, Answer);

// A file's number, its names and its size; the names of a directory, one after the other; or the
// part of the path that is no directory.
enum Answer {
    File(u64, u64, u64),
    Names(&'static str),
    NotDirectory(u64),
}

// A file is asked for where a file answers, and a directory's names elsewhere.
static ROWS: [Row; 5] = [
    Row(&["B~1"], 1, Answer::File(24, 1, 7)),
    Row(&[], 2, Answer::Names("Ab")),
    Row(&["a", "x"], 3, Answer::NotDirectory(1)),
    Row(&["a"], 4, Answer::File(25, 1, 7)),
    Row(&["b~1"], 5, Answer::File(24, 1, 7)),
];

fn node(alloc: Global, number: u64, kind: Kind, size: u64) -> Node {
    Node {
        number,
        seq: 1,
        kind,
        why: None,
        held: false,
        size,
        valid: size,
        clusters: 0,
        bytes: Bytes::new(alloc),
        flags: 0,
        created: 1,
        modified: 2,
        changed: 3,
        read_at: 4,
    }
}

// A name in the root.
fn link(alloc: Global, number: u64, name: &str, space: u8) -> Result<Link, Fail> {
    Ok(Link {
        parent: FileRef { number: 5, seq: 1 },
        name: Name::from_text(alloc, name)?,
        space,
        child: FileRef { number, seq: 1 },
    })
}

// A root with two files, one of them with a short name too; behind them stands a number again, by
// which none is found.
fn tree(alloc: Global) -> Result<Tree, Fail> {
    let mut nodes = NodeList::new(alloc);
    for (number, kind, size) in [
        (5, Kind::Directory, 7),
        (24, Kind::File, 7),
        (25, Kind::Fixed, 7),
        (24, Kind::Fixed, 9),
    ] {
        nodes.push(node(alloc, number, kind, size))?;
    }
    let mut links = LinkList::new(alloc);
    for (number, name, space) in [(24, "b", 1), (24, "B~1", 2), (25, "A", 0)] {
        links.push(link(alloc, number, name, space)?)?;
    }
    Ok(Tree {
        nodes,
        links,
        spare: FileRefList::new(alloc),
        count: 64,
        journal: None,
        room: 100,
    })
}

fn path(alloc: Global, parts: &[&str]) -> Result<Path, Fail> {
    let mut path = Path::new(alloc);
    for part in parts {
        path.push(Units::copy_of(alloc, Name::from_text(alloc, part)?.units())?)?;
    }
    Ok(path)
}

fn op(alloc: Global, row: &Row) -> Result<Op, Fail>
    ensures looks { IfOk result (λ op. is_look op ≡ true) }
    ensures bounds { IfOk result (λ op. IsWithinBounds op) }
    ensures steps { IfOk result (λ op. (t : the_tree) → HasStep op t) }
{
    let path = path(alloc, row.0)?;
    match row.2 {
        Answer::File(..) => Ok(Op::Stat { path }),
        _ => Ok(Op::List { path }),
    }
}

// The names one after the other are this text.
fn are_names(alloc: Global, names: &NameList, wanted: &str) -> Result<bool, Fail> {
    let mut text = String::new(alloc);
    for name in names.as_slice() {
        name.append_text(&mut text)?;
    }
    Ok(text.as_str() == wanted)
}

fn is_reply(alloc: Global, reply: &Reply, answer: &Answer) -> Result<bool, Fail> {
    match (reply, answer) {
        (
            Reply::Stat {
                number,
                links,
                size,
                ..
            },
            Answer::File(file, names, bytes),
        ) => Ok(number == file && links == names && size == bytes),
        (Reply::Names { names }, Answer::Names(text)) => are_names(alloc, names, text),
        (Reply::NotDirectory { part }, Answer::NotDirectory(place)) => Ok(part == place),
        _ => Ok(false),
    }
}

fn is_as_wanted(alloc: Global, upper: &Upcase, row: &Row) -> Result<bool, Fail> {
    let tree = tree(alloc)?;
    let stamp = u64::from(row.1);
    let op = op(alloc, row)?;
    let (after, reply) = step(alloc, &tree, upper.as_slice(), &op, stamp)?;
    Ok(after.count == 64 && is_reply(alloc, &reply, &row.2)?)
}

#[test]
fn the_plain_step_answers(rt: HostRuntime) -> Result<(), Fail> {
    let alloc = rt.alloc();
    let upper = Upcase::standard(alloc)?;
    for (i, row) in ROWS.iter().enumerate() {
        assert!(rt; is_as_wanted(alloc, &upper, row)?, "row {i}");
    }
    Ok(())
}
