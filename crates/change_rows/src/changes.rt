//! The refusal, the file or the place that `change_found` answers on a tree in memory.
ghost use Rattle.std.specs.Prelude.{◌≡◌, None};

use crate::trees::{Asked, op, tree};
use change_lookup::{Census, Found, Plain, change_found};
use std::alloc::Global;
use std::test::Fail;
use tree_model::{Name, Reply, Tree, Why};
use upcase_order::Upcase;

// What comes of an operation: its refusal, as the word and the numbers that are printed; the number
// of a file, and whether it changes; or the number of a directory, a new name there, and the number
// and the sequence of the new file.
enum Wanted {
    Refused(&'static str, u64, u64),
    File(u64, bool),
    Place(u64, &'static str, u64, u16),
}

// An operation on a tree with 40 spare numbers of the sequence 7, the least of them 25, with 256
// records and this room; and what comes of it.
struct Row(Asked, u64, Wanted);

// The tree's spare numbers, its records and its room; an operation, and what comes of it.
struct Room(u32, u64, u64, Asked, Wanted);

// The path and what it leads to, on a tree with ample room: the name is tried first, then the way,
// then the directory.
static NAMES: [Row; 16] = [
    Row(Asked::Create(&[]), 0, Wanted::Refused("bad-name", 0, 0)),
    Row(Asked::Create(&["."]), 0, Wanted::Refused("bad-name", 0, 0)),
    Row(
        Asked::Create(&["no", ".."]),
        0,
        Wanted::Refused("bad-name", 0, 0),
    ),
    Row(
        Asked::Create(&["no", "a/b"]),
        0,
        Wanted::Refused("bad-name", 0, 0),
    ),
    Row(
        Asked::Create(&["", "f"]),
        0,
        Wanted::Refused("bad-name", 0, 0),
    ),
    Row(
        Asked::Create(&["no", "f"]),
        0,
        Wanted::Refused("not-found", 1, 0),
    ),
    Row(
        Asked::Create(&["d", "no", "f"]),
        0,
        Wanted::Refused("not-found", 2, 0),
    ),
    Row(
        Asked::Create(&["old", "f"]),
        0,
        Wanted::Refused("not-directory", 1, 0),
    ),
    Row(
        Asked::Create(&["$Extend", "old"]),
        0,
        Wanted::Refused("system", 0, 0),
    ),
    Row(
        Asked::Create(&["many", "f"]),
        0,
        Wanted::Refused("fixed list", 0, 0),
    ),
    Row(
        Asked::Create(&["there", "f"]),
        0,
        Wanted::Refused("fixed reparse", 0, 0),
    ),
    Row(
        Asked::Create(&["named", "f"]),
        82,
        Wanted::Place(76, "f", 25, 7),
    ),
    Row(Asked::Create(&["oLd"]), 0, Wanted::Refused("exists", 0, 0)),
    Row(Asked::Create(&["f"]), 82, Wanted::Place(5, "f", 25, 7)),
    Row(
        Asked::Create(&["d", "old"]),
        82,
        Wanted::Place(65, "old", 25, 7),
    ),
    Row(
        Asked::Create(&["D", "e", "..."]),
        1480,
        Wanted::Place(66, "...", 25, 7),
    ),
];

// Numbers and clusters for a new file: 18 clusters and 64 that have to stay, and 65 more where no
// number is spare. The file table has 1,048,576 records at most, and grows by 256.
static ROOMS: [Room; 8] = [
    Room(
        0,
        1_048_576,
        0,
        Asked::Create(&["OLD"]),
        Wanted::Refused("exists", 0, 0),
    ),
    Room(
        0,
        1_048_576,
        0,
        Asked::Create(&["f"]),
        Wanted::Refused("mft-full", 1_048_576, 0),
    ),
    Room(
        0,
        1_048_321,
        147,
        Asked::Create(&["f"]),
        Wanted::Refused("mft-full", 1_048_321, 0),
    ),
    Room(
        0,
        1_048_320,
        147,
        Asked::Create(&["f"]),
        Wanted::Place(5, "f", 1_048_320, 1),
    ),
    Room(
        0,
        256,
        146,
        Asked::Create(&["f"]),
        Wanted::Refused("no-space", 146, 147),
    ),
    Room(
        0,
        16,
        147,
        Asked::Create(&["f"]),
        Wanted::Place(5, "f", 24, 1),
    ),
    Room(
        1,
        1_048_576,
        81,
        Asked::Create(&["f"]),
        Wanted::Refused("no-space", 81, 82),
    ),
    Room(
        1,
        1_048_576,
        82,
        Asked::Create(&["f"]),
        Wanted::Place(5, "f", 25, 7),
    ),
];

// The way to the file, and what it is, before bounds and room.
static FILES: [Row; 15] = [
    Row(
        Asked::Write(&["no", "a/b"], 0, &[0]),
        0,
        Wanted::Refused("bad-name", 0, 0),
    ),
    Row(
        Asked::Fill(&["no"], 0, 1),
        0,
        Wanted::Refused("not-found", 1, 0),
    ),
    Row(
        Asked::Truncate(&["old", "x"], 0),
        0,
        Wanted::Refused("not-directory", 1, 0),
    ),
    Row(
        Asked::Write(&[], 100_000, &[0]),
        0,
        Wanted::Refused("is-directory", 0, 0),
    ),
    Row(
        Asked::Fill(&["d"], 0, 0),
        0,
        Wanted::Refused("is-directory", 0, 0),
    ),
    Row(
        Asked::Truncate(&["$Extend"], 0),
        0,
        Wanted::Refused("is-directory", 0, 0),
    ),
    Row(
        Asked::Write(&["$MFT"], 100_000, &[0]),
        0,
        Wanted::Refused("system", 0, 0),
    ),
    Row(
        Asked::Fill(&["$MFT"], 0, 0),
        0,
        Wanted::Refused("system", 0, 0),
    ),
    Row(
        Asked::Write(&["hid"], 100_000, &[0]),
        0,
        Wanted::Refused("fixed encrypted", 0, 0),
    ),
    Row(
        Asked::Fill(&["press"], 0, 1),
        0,
        Wanted::Refused("fixed compressed", 0, 0),
    ),
    Row(
        Asked::Fill(&["thin"], 0, 0),
        0,
        Wanted::Refused("fixed sparse", 0, 0),
    ),
    Row(
        Asked::Fill(&["kept"], 0, 1),
        0,
        Wanted::Refused("fixed object", 0, 0),
    ),
    Row(
        Asked::Truncate(&["long"], 0),
        0,
        Wanted::Refused("fixed list", 0, 0),
    ),
    Row(
        Asked::Write(&["point"], 0, &[]),
        0,
        Wanted::Refused("fixed reparse", 0, 0),
    ),
    Row(
        Asked::Write(&["$Extend", "OLD"], 0, &[]),
        0,
        Wanted::File(72, false),
    ),
];

// A file of two bytes, of which one is initialised, and no clusters: 65,536 bytes may be written
// from there or from the offset on, and 64 clusters have to stay beside those that it takes.
static CHANGES: [Row; 14] = [
    Row(
        Asked::Write(&["old"], 65_537, &[0]),
        80,
        Wanted::Refused("too-long", 65_538, 0),
    ),
    Row(
        Asked::Write(&["old"], 65_536, &[0]),
        80,
        Wanted::Refused("no-space", 80, 81),
    ),
    Row(
        Asked::Write(&["old"], 65_536, &[0]),
        81,
        Wanted::File(72, true),
    ),
    Row(
        Asked::Write(&["old"], 100_000, &[]),
        0,
        Wanted::File(72, false),
    ),
    Row(
        Asked::Fill(&["old"], 2, 65_536),
        0,
        Wanted::Refused("too-long", 65_538, 0),
    ),
    Row(
        Asked::Fill(&["old"], 0, 65_536),
        79,
        Wanted::Refused("no-space", 79, 80),
    ),
    Row(Asked::Fill(&["old"], 0, 65_536), 80, Wanted::File(72, true)),
    Row(Asked::Fill(&["old"], 9, 0), 0, Wanted::File(72, false)),
    Row(
        Asked::Truncate(&["old"], 65_538),
        0,
        Wanted::Refused("too-long", 65_538, 0),
    ),
    Row(
        Asked::Truncate(&["old"], 3),
        64,
        Wanted::Refused("no-space", 64, 65),
    ),
    Row(Asked::Truncate(&["old"], 3), 65, Wanted::File(72, true)),
    Row(Asked::Truncate(&["old"], 2), 0, Wanted::File(72, false)),
    Row(Asked::Truncate(&["old"], 1), 0, Wanted::File(72, true)),
    Row(Asked::Truncate(&["OLD"], 0), 0, Wanted::File(72, true)),
];

fn why_word(why: Why) -> &'static str {
    match why {
        Why::List => "fixed list",
        Why::Reparse => "fixed reparse",
        Why::Encrypted => "fixed encrypted",
        Why::Compressed => "fixed compressed",
        Why::Sparse => "fixed sparse",
        Why::Object => "fixed object",
    }
}

// A refusal by its word and its numbers, zeros where it has fewer than two.
fn said(reply: &Reply) -> (&'static str, u64, u64) {
    match reply {
        Reply::BadName => ("bad-name", 0, 0),
        Reply::NotFound { part } => ("not-found", *part, 0),
        Reply::NotDirectory { part } => ("not-directory", *part, 0),
        Reply::IsDirectory => ("is-directory", 0, 0),
        Reply::System => ("system", 0, 0),
        Reply::FixedBy { why } => (why_word(*why), 0, 0),
        Reply::Exists => ("exists", 0, 0),
        Reply::TooLong { end } => ("too-long", *end, 0),
        Reply::MftFull { records } => ("mft-full", *records, 0),
        Reply::NoSpace { room, needed } => ("no-space", *room, *needed),
        _ => ("no refusal", 0, 0),
    }
}

fn is_name(alloc: Global, name: &Name, wanted: &str) -> Result<bool, Fail> {
    let mut text = String::new(alloc);
    name.append_text(&mut text)?;
    Ok(text.as_str() == wanted)
}

// A file is told without its bytes.
fn is_as_wanted(alloc: Global, found: Found, wanted: &Wanted) -> Result<bool, Fail> {
    match (found, wanted) {
        (Found::Refused(reply), Wanted::Refused(word, first, second)) => {
            Ok(said(&reply) == (*word, *first, *second))
        }
        (Found::File { node, changes }, Wanted::File(number, is)) => {
            let bare = node.size == 2 && node.bytes.len() == 0;
            Ok(bare && node.number == *number && changes == *is)
        }
        (
            Found::Place {
                directory,
                name,
                number,
            },
            Wanted::Place(at, text, new, seq),
        ) => {
            let same = number.number == *new && number.seq == *seq;
            Ok(same && directory.number == *at && is_name(alloc, &name, text)?)
        }
        _ => Ok(false),
    }
}

// This is found on the tree.
fn finds(
    alloc: Global,
    upper: &Upcase,
    tree: &Tree,
    asked: &Asked,
    wanted: &Wanted,
) -> Result<bool, Fail>
    requires { tree.now.journal ≡ None }
{
    let op = op(alloc, asked)?;
    let mut plain = Plain {
        upper: upper.as_slice(),
        tree,
    };
    let found = change_found(alloc, &mut plain, &op)?;
    is_as_wanted(alloc, found, wanted)
}

// The number of the first row that finds something else.
fn first_other(alloc: Global, upper: &Upcase, rows: &[Row]) -> Result<Option<u64>, Fail> {
    for (i, row) in rows.iter().enumerate() {
        let tree = tree(alloc, 40, 256, row.1)?;
        if !finds(alloc, upper, &tree, &row.0, &row.2)? {
            return Ok(Some(i as u64));
        }
    }
    Ok(None)
}

// The counts of the tree are those of the row, and this is found on it.
fn has_so_much_room(alloc: Global, upper: &Upcase, row: &Room) -> Result<bool, Fail> {
    let tree = tree(alloc, row.0, row.1, row.2)?;
    let mut plain = Plain {
        upper: upper.as_slice(),
        tree: &tree,
    };
    let least = plain.least_spare(alloc)?;
    let counts = plain.count() == row.1 && plain.room() == row.2;
    let spare = least.is_some() == (row.0 > 0);
    Ok(counts && spare && finds(alloc, upper, &tree, &row.3, &row.4)?)
}

#[test]
fn a_new_file_has_a_place(rt: HostRuntime) -> Result<(), Fail> {
    let alloc = rt.alloc();
    let upper = Upcase::standard(alloc)?;
    assert_eq!(rt; first_other(alloc, &upper, &NAMES)?, None);
    for (i, row) in ROOMS.iter().enumerate() {
        assert!(rt; has_so_much_room(alloc, &upper, row)?, "row {i}");
    }
    Ok(())
}

#[test]
fn a_file_is_found_or_refused(rt: HostRuntime) -> Result<(), Fail> {
    let alloc = rt.alloc();
    let upper = Upcase::standard(alloc)?;
    assert_eq!(rt; first_other(alloc, &upper, &FILES)?, None);
    assert_eq!(rt; first_other(alloc, &upper, &CHANGES)?, None);
    Ok(())
}
