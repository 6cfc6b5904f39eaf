//! Commands of scripts: what their words ask for, and the rule that they break.
use crate::scripts::{fault_of_line, has_parts};
use script_text::{Op, Path, Script, ScriptFault, ScriptText, What};
use std::alloc::{AllocError, Global};
use std::test::Fail;

// What a command asks for, with `/a` for its path.
enum Wanted {
    Read(u64, u64),
    Write(u64, &'static [u8]),
    Fill(u64, u64, u8),
    Truncate(u64),
    Sync,
}

// A line, and what it asks for.
struct Asked(&'static [u8], Wanted);

static ASKED: [Asked; 14] = [
    Asked(b"1 read /a 0 0", Wanted::Read(0, 0)),
    Asked(b"1 read /a 7 4096", Wanted::Read(7, 4096)),
    Asked(
        b"1 read /a 4611686018427387903 1",
        Wanted::Read(4_611_686_018_427_387_903, 1),
    ),
    Asked(b"1 write /a 5 00ff", Wanted::Write(5, &[0, 0xff])),
    Asked(
        b"1 write /a 0 aBCdEf0123456789",
        Wanted::Write(0, &[0xab, 0xcd, 0xef, 1, 0x23, 0x45, 0x67, 0x89]),
    ),
    Asked(b"1 write /a 6 -", Wanted::Write(6, &[])),
    Asked(
        b"1 write /a 4611686018427387903 Fe",
        Wanted::Write(4_611_686_018_427_387_903, &[0xfe]),
    ),
    Asked(b"1 fill /a 3 2 4A", Wanted::Fill(3, 2, 0x4a)),
    Asked(b"1 fill /a 0 0 ff", Wanted::Fill(0, 0, 0xff)),
    Asked(
        b"1 fill /a 4611686018427387903 65536 0b",
        Wanted::Fill(4_611_686_018_427_387_903, 65_536, 0x0b),
    ),
    Asked(b"1 truncate /a 0", Wanted::Truncate(0)),
    Asked(b"1 truncate /a 4097", Wanted::Truncate(4097)),
    Asked(
        b"1 truncate /a 4611686018427387903",
        Wanted::Truncate(4_611_686_018_427_387_903),
    ),
    Asked(b"1 sync", Wanted::Sync),
];

// Whether a path is `/a`.
fn is_a(path: &Path) -> bool {
    has_parts(path, &[&[0x61]])
}

// Whether an operation is the one that is wanted.
fn is_as_wanted(op: &Op, wanted: &Wanted) -> bool {
    match (op, wanted) {
        (
            Op::Read {
                path,
                offset,
                count,
            },
            Wanted::Read(at, n),
        ) => is_a(path) && *offset == *at && *count == *n,
        (
            Op::Write {
                path,
                offset,
                bytes,
            },
            Wanted::Write(at, want),
        ) => is_a(path) && *offset == *at && bytes.as_slice() == *want,
        (
            Op::Fill {
                path,
                offset,
                count,
                byte,
            },
            Wanted::Fill(at, n, value),
        ) => is_a(path) && *offset == *at && *count == *n && *byte == *value,
        (Op::Truncate { path, size }, Wanted::Truncate(want)) => is_a(path) && *size == *want,
        (Op::Sync, Wanted::Sync) => true,
        _ => false,
    }
}

// Whether a script of one line and its LF asks for what is wanted, and for no more.
fn asks(alloc: Global, line: &[u8], wanted: &Wanted) -> Result<bool, Fail> {
    let mut bytes = Vec::from_slice(alloc, line)?;
    bytes.push(10)?;
    let script = Script::read(alloc, bytes.as_slice())?;
    let [command] = script.as_slice() else {
        return Ok(false);
    };
    match &command.what {
        What::Op(op) => Ok(is_as_wanted(op, wanted)),
        What::Find(_) => Ok(false),
    }
}

#[test]
fn words_ask_for_operations(rt: HostRuntime) -> Result<(), Fail> {
    for (row, Asked(line, wanted)) in ASKED.iter().enumerate() {
        assert!(rt; asks(rt.alloc(), line, wanted)?, "line {row}");
    }
    Ok(())
}

// A line, and the rule that it breaks.
struct Line(&'static [u8], u8);

static LINES: [Line; 58] = [
    Line(b"1 create /a", 5),
    Line(b"1 mkdir /a", 5),
    Line(b"1 link /a /b", 5),
    Line(b"1 rename /a /b", 5),
    Line(b"1 remove /a", 5),
    Line(b"1 index", 5),
    Line(b"1 find a", 5),
    Line(b"1 journal 0", 5),
    Line(b"1 Sync", 5),
    Line(b"1 writes a", 5),
    Line(b"1 read /a 0", 6),
    Line(b"1 read /a 0 1 1", 6),
    Line(b"1 write", 6),
    Line(b"1 write a x", 6),
    Line(b"1 write /a 0 - -", 6),
    Line(b"1 fill /a 0 1", 6),
    Line(b"1 fill a x x x x", 6),
    Line(b"1 truncate a", 6),
    Line(b"1 truncate /a 0 0", 6),
    Line(b"1 sync x", 6),
    Line(b"1 sync /a", 6),
    Line(b"1 read a x x", 7),
    Line(b"1 write a x 0", 7),
    Line(b"1 write /a/ 0 -", 7),
    Line(b"1 fill a x 65537 0", 7),
    Line(b"1 truncate a x", 7),
    Line(b"1 truncate /\\u0 0", 7),
    Line(b"1 read /a x 4097", 8),
    Line(b"1 read /a 0 x", 8),
    Line(b"1 write /a x 0", 8),
    Line(b"1 write /a 01 -", 8),
    Line(b"1 write /a - -", 8),
    Line(b"1 write /a 4611686018427387904 -", 8),
    Line(b"1 fill /a x 65537 0", 8),
    Line(b"1 fill /a 4611686018427387904 1 00", 8),
    Line(b"1 fill /a 0 x 0", 8),
    Line(b"1 fill /a 0 01 00", 8),
    Line(b"1 fill /a 0 4611686018427387904 00", 8),
    Line(b"1 truncate /a x", 8),
    Line(b"1 truncate /a -", 8),
    Line(b"1 truncate /a 4611686018427387904", 8),
    Line(b"1 read /a 0 4097", 9),
    Line(b"1 read /a 0 4611686018427387903", 9),
    Line(b"1 write /a 0 0", 9),
    Line(b"1 write /a 0 abc", 9),
    Line(b"1 write /a 0 0g", 9),
    Line(b"1 write /a 0 G0", 9),
    Line(b"1 write /a 0 0x00", 9),
    Line(b"1 write /a 0 --", 9),
    Line(b"1 write /a 0 -00", 9),
    Line(b"1 write /a 0 \xc3\xa4", 9),
    Line(b"1 fill /a 0 65537 00", 9),
    Line(b"1 fill /a 0 65537 x", 9),
    Line(b"1 fill /a 0 1 0", 9),
    Line(b"1 fill /a 0 1 000", 9),
    Line(b"1 fill /a 0 1 0000", 9),
    Line(b"1 fill /a 0 1 f:", 9),
    Line(b"1 fill /a 0 1 -", 9),
];

#[test]
fn words_at_fault_have_rules(rt: HostRuntime) -> Result<(), Fail> {
    for (row, Line(line, rule)) in LINES.iter().enumerate() {
        let want = ScriptFault::Line {
            number: 1,
            rule: *rule,
        };
        assert_eq!(rt; fault_of_line(rt.alloc(), line)?, Some(want), "line {row}");
    }
    Ok(())
}

// A line with a write of so many hexadecimal digits.
fn write_of(alloc: Global, digits: usize) -> Result<Vec<u8>, AllocError> {
    let mut line = Vec::from_slice(alloc, b"1 write /a 0 ")?;
    for _ in 0..digits {
        line.push(b'f')?;
    }
    Ok(line)
}

#[test]
fn writes_have_a_length(rt: HostRuntime) -> Result<(), Fail> {
    let long = ScriptFault::Line { number: 1, rule: 9 };
    for (digits, want) in [
        (131_071, Some(long)),
        (131_072, None),
        (131_073, Some(long)),
        (131_074, Some(long)),
    ] {
        let line = write_of(rt.alloc(), digits)?;
        assert_eq!(rt;
            fault_of_line(rt.alloc(), line.as_slice())?,
            want,
            "{digits}"
        );
    }
    Ok(())
}
