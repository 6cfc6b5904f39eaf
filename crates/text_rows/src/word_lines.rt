//! Command lines: the words that are a command, and those that aren't.
use command_line::{Command, LineFault, read_line};
use std::alloc::Global;
use std::test::Fail;

// The command of a line whose words have one space between them, where it is one.
fn read(alloc: Global, line: &str) -> Result<Option<Command>, Fail> {
    let mut words = Vec::new(alloc);
    for word in line.split(' ') {
        words.push(String::from_str(alloc, word)?)?;
    }
    match read_line(alloc, words.as_slice()) {
        Ok(command) => Ok(Some(command)),
        Err(LineFault::NoLine) => Ok(None),
        Err(LineFault::Memory) => Err(LineFault::Memory.into()),
    }
}

// A line and its command.
struct Line(&'static str, Command);

static LINES: [Line; 16] = [
    Line("host x.img scan", Command::Scan),
    Line("host x.img dump", Command::Dump),
    Line("host x.img check", Command::Check),
    Line("host x.img journal", Command::Journal),
    Line("host x.img format", Command::Format { seed: 1, time: 0 }),
    Line(
        "host x.img enable",
        Command::Enable {
            max: 262144,
            time: 0,
        },
    ),
    Line("host x.img run", Command::Run { time: 0 }),
    Line("host x.img gen", Command::Gen { seed: 1, time: 0 }),
    Line(
        "host x.img format --time 5 --seed=7",
        Command::Format { seed: 7, time: 5 },
    ),
    Line(
        "host x.img --time=5 gen --seed 7",
        Command::Gen { seed: 7, time: 5 },
    ),
    Line(
        "host x.img enable --journal 8192 --time 5",
        Command::Enable { max: 8192, time: 5 },
    ),
    Line(
        "host x.img --journal=1073741824 enable",
        Command::Enable {
            max: 1073741824,
            time: 0,
        },
    ),
    Line(
        "host x.img run --time 4611686018427387903",
        Command::Run {
            time: 4611686018427387903,
        },
    ),
    Line("host x.img -- scan", Command::Scan),
    Line("host - scan", Command::Scan),
    Line("host -- -- scan", Command::Scan),
];

#[test]
fn lines_are_read(rt: HostRuntime) -> Result<(), Fail> {
    for Line(line, command) in LINES.iter() {
        assert!(rt; read(rt.alloc(), line)? == Some(*command), "{line}");
    }
    Ok(())
}

static NO_LINES: [&str; 34] = [
    "",
    "host",
    "host x.img",
    "host x.img burn",
    "host x.img SCAN",
    "host x.img scan dump",
    "host x.img -- scan --time 5",
    "host --time 5 x.img scan",
    "host --time=5 x.img scan",
    "host -- x.img scan",
    "host x.img scan --help",
    "host x.img scan --version",
    "host x.img scan -h",
    "host x.img scan -time 5",
    "host x.img scan --tim 5",
    "host x.img scan --time",
    "host x.img scan --time --",
    "host x.img scan --time --seed 5",
    "host x.img scan --time -5",
    "host x.img scan --time -",
    "host x.img scan --time ",
    "host x.img scan --time=",
    "host x.img scan --time 5 --time=5",
    "host x.img scan --time +5",
    "host x.img scan --time=+5",
    "host x.img scan --time 007",
    "host x.img scan --time 4611686018427387904",
    "host x.img scan --seed",
    "host x.img scan --seed 1 --seed 1",
    "host x.img scan --seed 18446744073709551617",
    "host x.img scan --journal",
    "host x.img scan --journal=8192 --journal=8192",
    "host x.img scan --journal 8191",
    "host x.img scan --journal 1073741825",
];

#[test]
fn other_words_are_no_line(rt: HostRuntime) -> Result<(), Fail> {
    for line in NO_LINES.iter() {
        assert!(rt; read(rt.alloc(), line)? == None, "{line}");
    }
    assert!(rt; read_line(rt.alloc(), &[]) == Err(LineFault::NoLine));
    Ok(())
}
