//! What is printed of an image: its long names, its tree, what a check says of it, and its
//! journal.
use file_tree::{
    Bytes, FileRef, FileRefList, Journal, Kind, Link, LinkList, Name, Node, NodeList, Tree, Usn,
    UsnList,
};
use image_dump::{check_text, dump_text, journal_text, scan_text};
use std::alloc::Global;
use std::test::Fail;

// A name of a file in the root: the file's number and sequence, the name's space, and the name.
struct Named(u64, u16, u8, &'static str);

// The names of files in the root, one of which is short.
static ROOT: [Named; 4] = [
    Named(5, 5, 3, "."),
    Named(2, 2, 3, "$LogFile"),
    Named(2, 2, 2, "$LOGFI~1"),
    Named(0, 1, 3, "$MFT"),
];

// The names of two files, one of which has a short one too, by falling numbers.
static TWO: [Named; 3] = [
    Named(30, 1, 2, "LONGNA~1.TXT"),
    Named(30, 1, 1, "LongNameFile.txt"),
    Named(0, 1, 3, "$MFT"),
];

// The links of files in the root.
fn links_of(alloc: Global, rows: &[Named]) -> Result<LinkList, Fail> {
    let mut links = LinkList::new(alloc);
    for Named(number, seq, space, name) in rows {
        links.push(Link {
            parent: FileRef { number: 5, seq: 5 },
            name: Name::from_text(alloc, name)?,
            space: *space,
            child: FileRef {
                number: *number,
                seq: *seq,
            },
        })?;
    }
    Ok(links)
}

// A file with this number and kind, and nothing else to say.
fn node(alloc: Global, number: u64, kind: Kind) -> Node {
    Node {
        number,
        seq: 1,
        kind,
        why: None,
        held: false,
        size: 0,
        valid: 0,
        clusters: 0,
        bytes: Bytes::new(alloc),
        flags: 0,
        created: 0,
        modified: 0,
        changed: 0,
        read_at: 0,
    }
}

// The files of `TWO`.
fn nodes(alloc: Global) -> Result<NodeList, Fail> {
    let mut nodes = NodeList::new(alloc);
    let mut long = node(alloc, 30, Kind::File);
    (long.size, long.valid, long.clusters) = (745, 744, 1);
    (long.created, long.modified) = (1002, 1003);
    (long.changed, long.read_at) = (1004, 1001);
    nodes.push(long)?;
    nodes.push(node(alloc, 0, Kind::System))?;
    Ok(nodes)
}

// The tree of the files and names of `TWO`.
fn tree(alloc: Global, journal: Option<Journal>) -> Result<Tree, Fail> {
    Ok(Tree {
        nodes: nodes(alloc)?,
        links: links_of(alloc, &TWO)?,
        spare: FileRefList::new(alloc),
        count: 31,
        journal,
        room: 1480,
    })
}

// A journal from byte 0 to byte 64 with a cluster.
fn journal(alloc: Global) -> Journal {
    Journal {
        max: 8192,
        delta: 4096,
        first: 0,
        next: 64,
        reach: 4096,
        owned: true,
        entries: UsnList::new(alloc),
    }
}

// A record of a file that was made and closed at this time.
fn entry(alloc: Global, usn: u64, time: i64) -> Result<Usn, Fail> {
    Ok(Usn {
        usn,
        child: FileRef { number: 26, seq: 1 },
        parent: FileRef { number: 25, seq: 1 },
        reason: 0x8000_0100,
        flags: 0x20,
        time,
        source: 0,
        security: 0,
        name: Name::from_text(alloc, "f")?,
    })
}

#[test]
fn scans_the_long_names(rt: HostRuntime) -> Result<(), Fail> {
    let links = links_of(rt.alloc(), &ROOT)?;
    let mut out = String::from_str(rt.alloc(), "before\n")?;
    scan_text(links.as_slice(), &mut out)?;
    let want = "before\n0 1 5 5 $MFT\n2 2 5 5 $LogFile\n5 5 5 5 .\nlinks 3\n";
    assert_eq!(rt; out.as_str(), want);
    Ok(())
}

#[test]
fn dumps_a_tree(rt: HostRuntime) -> Result<(), Fail> {
    let mut out = String::new(rt.alloc());
    dump_text(&tree(rt.alloc(), None)?, &mut out)?;
    let want = "node 0 1 system 0 0 0 0 0 0 0
node 30 1 file 745 744 1 1002 1003 1004 1001
link 0 5 long $MFT
link 30 5 long LongNameFile.txt
link 30 5 short LONGNA~1.TXT
journal -
room 1480
";
    assert_eq!(rt; out.as_str(), want);
    Ok(())
}

#[test]
fn checks_trees_with_and_without_a_journal(rt: HostRuntime) -> Result<(), Fail> {
    let mut out = String::new(rt.alloc());
    for with in [None, Some(journal(rt.alloc()))] {
        check_text(&tree(rt.alloc(), with)?, &mut out)?;
    }
    let want = "ok nodes 2 links 3 room 1480 journal -
ok nodes 2 links 3 room 1480 journal 0 64
";
    assert_eq!(rt; out.as_str(), want);
    Ok(())
}

#[test]
fn dumps_a_tree_with_a_journal(rt: HostRuntime) -> Result<(), Fail> {
    let mut out = String::from_str(rt.alloc(), "before\n")?;
    dump_text(&tree(rt.alloc(), Some(journal(rt.alloc())))?, &mut out)?;
    assert!(rt; out.as_str().ends_with("\njournal 0 64 4096\nroom 1480\n"));
    Ok(())
}

#[test]
fn prints_the_records_of_a_journal(rt: HostRuntime) -> Result<(), Fail> {
    let mut entries = Vec::new(rt.alloc());
    for (usn, time) in [(0, 1002), (64, -1)] {
        entries.push(entry(rt.alloc(), usn, time)?)?;
    }
    let mut out = String::new(rt.alloc());
    journal_text(&entries, 0, 128, &mut out)?;
    let want = "0 26 1 25 1 80000100 00000020 1002 f
64 26 1 25 1 80000100 00000020 -1 f
journal 0 128
";
    assert_eq!(rt; out.as_str(), want);
    Ok(())
}
