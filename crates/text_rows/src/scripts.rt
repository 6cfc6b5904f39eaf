//! Scripts: the commands that are read, and the lines that refuse them.
use script_text::{Command, Op, Path, Script, ScriptFault, ScriptText, What};
use std::alloc::{AllocError, Global};
use std::test::Fail;

// What refuses a script.
fn fault_of(alloc: Global, bytes: &[u8]) -> Option<ScriptFault> {
    match Script::read(alloc, bytes) {
        Ok(_) => None,
        Err(fault) => Some(fault),
    }
}

// What refuses a script of one line and its LF.
pub fn fault_of_line(alloc: Global, line: &[u8]) -> Result<Option<ScriptFault>, Fail> {
    let mut bytes = Vec::from_slice(alloc, line)?;
    bytes.push(10)?;
    Ok(fault_of(alloc, bytes.as_slice()))
}

// Whether a command lists, and the names of its path.
struct Wanted(bool, &'static [&'static [u16]]);

// The commands of client 1 in the script that is read.
static WANTED: [Wanted; 4] = [
    Wanted(true, &[]),
    Wanted(false, &[]),
    Wanted(false, &[&[0x24, 0x6d, 0x66, 0x74], &[0x78]]),
    Wanted(false, &[&[0x71]]),
];

// Whether a path has these parts.
pub fn has_parts(path: &Path, parts: &[&[u16]]) -> bool {
    for (i, name) in path.as_slice().iter().enumerate() {
        let Some(want) = parts.get(i) else {
            return false;
        };
        if name.as_slice() != *want {
            return false;
        }
    }
    path.as_slice().len() == parts.len()
}

// Whether a command of client 1 has this number, and asks for what is wanted.
fn is_as_wanted(command: &Command, number: u32, wanted: &Wanted) -> bool {
    let (lists, path) = match &command.what {
        What::Op(Op::List { path }) => (true, path),
        What::Op(Op::Stat { path }) => (false, path),
        _ => return false,
    };
    command.client == 1
        && command.number == number
        && lists == wanted.0
        && has_parts(path, wanted.1)
}

#[test]
fn commands_are_read(rt: HostRuntime) -> Result<(), Fail> {
    let text = b"# four\n1 list /\n\n1 stat /\n1 stat /$mft/x\n#\n1 stat /\\u0071\n";
    let script = Script::read(rt.alloc(), text)?;
    let mut number = 0u32;
    for (command, wanted) in script.as_slice().iter().zip(WANTED.iter()) {
        number = number.wrapping_add(1);
        assert!(rt; is_as_wanted(command, number, wanted), "command {number}");
    }
    assert_eq!(rt; script.as_slice().len(), 4);
    assert!(rt; Script::read(rt.alloc(), b"")?.as_slice().is_empty());
    Ok(())
}

// A line, and the rule that it breaks.
struct Line(&'static [u8], u8);

static LINES: [Line; 27] = [
    Line(b"\xff", 2),
    Line(b"#\xff", 2),
    Line(b"0  \xc3", 2),
    Line(b" ", 3),
    Line(b"x  list /", 3),
    Line(b" 1 list /", 3),
    Line(b"1 list / ", 3),
    Line(b"x", 4),
    Line(b"0 list /", 4),
    Line(b"01 list /", 4),
    Line(b"+1 list /", 4),
    Line(b"1_ list /", 4),
    Line(b"4611686018427387904 list /", 4),
    Line(b"18446744073709551617 list /", 4),
    Line(b"x wri", 4),
    Line(b"1", 5),
    Line(b"1 wri", 5),
    Line(b"1 List /", 5),
    Line(b"1 list", 6),
    Line(b"1 stat / /", 6),
    Line(b"1 stat /a x", 6),
    Line(b"1 list a", 7),
    Line(b"1 list //", 7),
    Line(b"1 list /a/", 7),
    Line(b"1 list a/b", 7),
    Line(b"1 stat /a\\u00", 7),
    Line(b"1 stat /\x7f", 7),
];

#[test]
fn lines_at_fault_have_rules(rt: HostRuntime) -> Result<(), Fail> {
    for (row, Line(line, rule)) in LINES.iter().enumerate() {
        let want = ScriptFault::Line {
            number: 1,
            rule: *rule,
        };
        assert_eq!(rt; fault_of_line(rt.alloc(), line)?, Some(want), "line {row}");
    }
    Ok(())
}

// A script, and what refuses it.
struct Refused(&'static [u8], ScriptFault);

static REFUSED: [Refused; 5] = [
    Refused(b"2 list /\n", ScriptFault::TooManyClients { client: 2 }),
    Refused(
        b"4611686018427387903 wri\n",
        ScriptFault::TooManyClients {
            client: 4_611_686_018_427_387_903,
        },
    ),
    Refused(b"1 wri", ScriptFault::Line { number: 1, rule: 1 }),
    Refused(b"1 list /\n\xff", ScriptFault::Line { number: 2, rule: 1 }),
    Refused(
        b"#\n1 wri\n\xff\n",
        ScriptFault::Line { number: 2, rule: 5 },
    ),
];

#[test]
fn scripts_at_fault_are_refused(rt: HostRuntime) -> Result<(), Fail> {
    for (row, Refused(bytes, fault)) in REFUSED.iter().enumerate() {
        assert_eq!(rt; fault_of(rt.alloc(), bytes), Some(*fault), "script {row}");
    }
    Ok(())
}

#[test]
fn scripts_have_a_size(rt: HostRuntime) -> Result<(), Fail> {
    let bytes = vec![in rt.alloc(); 10; 16_777_217]?;
    assert_eq!(rt;
        fault_of(rt.alloc(), bytes.as_slice()),
        Some(ScriptFault::TooLarge)
    );
    Ok(())
}

#[test]
fn commands_have_a_number(rt: HostRuntime) -> Result<(), Fail> {
    let mut lines = Vec::new(rt.alloc());
    for _ in 0..16_384 {
        lines.extend_from_slice(b"1 list /\n")?;
    }
    let script = Script::read(rt.alloc(), lines.as_slice())?;
    assert_eq!(rt; script.as_slice().len(), 16_384);
    lines.extend_from_slice(b"\n1 list /\n")?;
    assert_eq!(rt;
        fault_of(rt.alloc(), lines.as_slice()),
        Some(ScriptFault::TooManyCommands)
    );
    Ok(())
}

// A line with a path of so many names.
fn line_of(alloc: Global, names: usize) -> Result<Vec<u8>, AllocError> {
    let mut line = Vec::from_slice(alloc, b"1 stat ")?;
    for _ in 0..names {
        line.extend_from_slice(b"/a")?;
    }
    Ok(line)
}

#[test]
fn paths_have_a_length(rt: HostRuntime) -> Result<(), Fail> {
    let long = ScriptFault::Line { number: 1, rule: 7 };
    for (names, want) in [(255, None), (256, Some(long))] {
        let line = line_of(rt.alloc(), names)?;
        assert_eq!(rt;
            fault_of_line(rt.alloc(), line.as_slice())?,
            want,
            "{names}"
        );
    }
    Ok(())
}
