//! The text of a run: its turns and what is found, client by client.
use run_model::{FindLine, Turn};
use std::alloc::Global;
use std::test::Fail;
use transcript::text;
use tree_model::{
    Bytes, FileRef, Hit, HitList, Kind, Name, NameList, Op, Path, Reply, Usn, UsnList, Why,
};

// A turn with this reply; what was asked does not show in the text.
fn turn(alloc: Global, client: u32, number: u32, serial: u64, reply: Reply) -> Turn {
    Turn {
        client,
        number,
        serial,
        usn: 0,
        moment: 0,
        faults_before: 0,
        faults_after: 0,
        op: Op::List {
            path: Path::new(alloc),
        },
        reply,
    }
}

// What is said of a file with this number and kind.
fn stat(number: u64, kind: Kind) -> Reply {
    Reply::Stat {
        number,
        seq: 5,
        kind,
        links: 1,
        size: 0,
        clusters: 0,
        created: 0,
        modified: 0,
        changed: 0,
        read_at: 0,
    }
}

// The name of this text.
fn name(alloc: Global, text: &str) -> Result<Name, Fail> {
    let mut units = Vec::new(alloc);
    for byte in text.bytes() {
        units.push(u16::from(byte))?;
    }
    Ok(Name::checked(alloc, &units)?)
}

// The reply of a list that found three names.
fn three_names(alloc: Global) -> Result<Reply, Fail> {
    let mut names = NameList::new(alloc);
    for text in ["$LogFile", "$MFT", "."] {
        names.push(name(alloc, text)?)?;
    }
    Ok(Reply::Names { names })
}

// The reply of a journal with one record.
fn one_record(alloc: Global) -> Result<Reply, Fail> {
    let mut entries = UsnList::new(alloc);
    entries.push(Usn {
        usn: 12_288,
        child: FileRef { number: 25, seq: 1 },
        parent: FileRef { number: 5, seq: 5 },
        reason: 0x8000_0001,
        flags: 0x20,
        time: 7,
        source: 0,
        security: 0,
        name: name(alloc, "f")?,
    })?;
    Ok(Reply::Journal {
        next: 12_352,
        entries,
    })
}

// The reply of a find that found one file.
fn one_hit(alloc: Global) -> Result<Reply, Fail> {
    let mut path = NameList::new(alloc);
    for text in ["a", "f"] {
        path.push(name(alloc, text)?)?;
    }
    let mut hits = HitList::new(alloc);
    hits.push(Hit { child: 26, path })?;
    Ok(Reply::Found { hits })
}

// Turns of one client with these replies.
fn turns_of(alloc: Global, replies: Vec<Reply>) -> Result<Vec<Turn>, Fail> {
    let mut turns = Vec::new(alloc);
    for (at, reply) in replies.into_iter().enumerate() {
        let number = (at % 100) as u32;
        turns.push(turn(alloc, 1, number, u64::from(number), reply))?;
    }
    Ok(turns)
}

#[test]
fn prints_a_run_that_changes(rt: HostRuntime) -> Result<(), Fail> {
    let alloc = rt.alloc();
    let bytes = Bytes::copy_of(alloc, b"Hello")?;
    let record = one_record(alloc)?;
    let hit = one_hit(alloc)?;
    let replies = [
        Reply::Created { number: 25, seq: 2 },
        Reply::Wrote { count: 5 },
        Reply::Bytes { bytes },
        Reply::Bytes {
            bytes: Bytes::new(alloc),
        },
        Reply::Synced { turns: 3 },
        record,
        hit,
    ];
    let replies = Vec::from_array(alloc, replies)?;
    let turns = turns_of(alloc, replies)?;
    let mut out = String::new(alloc);
    text(&turns, &[], &mut out)?;
    let want = "1 0 0 0 created 25 2
1 1 1 0 wrote 5
1 2 2 0 bytes 48656c6c6f
1 3 3 0 bytes -
1 4 4 0 synced 3
1 5 5 0 journal 12352 1 12288:80000001:25:f
1 6 6 0 found 1 26:/a/f
";
    assert_eq!(rt; out.as_str(), want);
    Ok(())
}

#[test]
fn prints_what_refuses(rt: HostRuntime) -> Result<(), Fail> {
    let alloc = rt.alloc();
    let replies = [
        Reply::FixedBy { why: Why::Reparse },
        Reply::TooLong { end: 100_001 },
        Reply::MftFull { records: 1_048_576 },
        Reply::NoSpace {
            room: 81,
            needed: 82,
        },
        Reply::RecordFull { used: 1_480 },
        Reply::IntoItself,
    ];
    let replies = Vec::from_array(alloc, replies)?;
    let turns = turns_of(alloc, replies)?;
    let mut out = String::new(alloc);
    text(&turns, &[], &mut out)?;
    let want = "1 0 0 0 fixed reparse
1 1 1 0 too-long 100001
1 2 2 0 mft-full 1048576
1 3 3 0 no-space 81 82
1 4 4 0 record-full 1480
1 5 5 0 into-itself
";
    assert_eq!(rt; out.as_str(), want);
    Ok(())
}

#[test]
fn prints_a_run_that_looks(rt: HostRuntime) -> Result<(), Fail> {
    let alloc = rt.alloc();
    let listed = three_names(alloc)?;
    let turns = [
        turn(alloc, 1, 3, 3, Reply::NotDirectory { part: 1 }),
        turn(alloc, 1, 2, 2, stat(5, Kind::Directory)),
        turn(alloc, 1, 1, 1, listed),
        turn(alloc, 1, 4, 4, Reply::NotFound { part: 1 }),
    ];
    let mut out = String::from_str(alloc, "before\n")?;
    text(&turns, &[], &mut out)?;
    let want = "before
1 1 1 0 names 3 $LogFile $MFT .
1 2 2 0 stat 5 5 directory 1 0 0 0 0 0 0
1 3 3 0 not-directory 1
1 4 4 0 not-found 1
";
    assert_eq!(rt; out.as_str(), want);
    Ok(())
}

#[test]
fn orders_by_client_first(rt: HostRuntime) -> Result<(), Fail> {
    let alloc = rt.alloc();
    let turns = [
        turn(alloc, 10, 1, 1, Reply::Fault),
        turn(alloc, 2, 11, 2, Reply::BadName),
        turn(alloc, 2, 9, 3, stat(24, Kind::Opaque)),
    ];
    let find = FindLine {
        client: 2,
        number: 10,
        usn: 72,
        reply: Reply::Memory,
    };
    let mut out = String::new(alloc);
    text(&turns, &[find], &mut out)?;
    let want = "2 9 3 0 stat 24 5 opaque 1 0 0 0 0 0 0
2 10 - 72 memory
2 11 2 0 bad-name
10 1 1 0 fault
";
    assert_eq!(rt; out.as_str(), want);
    Ok(())
}

#[test]
fn nothing_is_printed_of_no_command(rt: HostRuntime) -> Result<(), Fail> {
    let mut out = String::new(rt.alloc());
    text(&[], &[], &mut out)?;
    assert_eq!(rt; out.as_str(), "");
    Ok(())
}
