//! Three writes and a sync, and which of the writes a volume shows.
//!
//! A set of the writes is a number: 1 and 2 for those before the sync, and 4 for the one behind it.
//! Some sets are a number too, whose bit at the place of each of them is set.
use crate::images::images_behind;
use crate::runs::look;
use sector_device::MemoryDevice;
use std::alloc::Global;
use std::sync::Wait;
use std::test::Fail;
use std::thread::Threads;

/// Into the record of a file; into clusters of another one; and the first one into a cluster.
pub const SCRIPT: &[u8] = b"1 write /a 0 4141
1 fill /b 0 5000 42
1 sync
1 fill /a 2 900 43
";

/// A turn's line, that of one in which the device fails, and the turn's write.
pub struct Line(pub &'static str, pub &'static str, pub u8);

pub static LINES: [Line; 4] = [
    Line("1 1 1 0 wrote 2", "1 1 1 0 fault", 1),
    Line("1 2 2 0 wrote 5000", "1 2 2 0 fault", 2),
    Line("1 3 3 0 synced 2", "1 3 3 0 fault", 0),
    Line("1 4 4 0 wrote 900", "1 4 4 0 fault", 4),
];

/// What shows which writes were done.
pub const LOOKS: &[u8] = b"1 read /a 0 4
1 read /a 898 8
1 stat /a
1 read /b 0 2
1 read /b 4998 8
1 stat /b
";

// The text of the first file without writes, with the first one, with the last one, and with both.
static FIRST_TEXTS: [&str; 4] = [
    "1 1 1 0 bytes -
1 2 2 0 bytes -
1 3 3 0 stat 24 1 file 1 0 0 9 9 9 9
",
    "1 1 1 0 bytes 4141
1 2 2 0 bytes -
1 3 3 0 stat 24 1 file 1 2 0 9 1001 1001 9
",
    "1 1 1 0 bytes 00004343
1 2 2 0 bytes 43434343
1 3 3 0 stat 24 1 file 1 902 1 9 1004 1004 9
",
    "1 1 1 0 bytes 41414343
1 2 2 0 bytes 43434343
1 3 3 0 stat 24 1 file 1 902 1 9 1004 1004 9
",
];

// That of the other one without and with its write.
static OTHER_TEXTS: [&str; 2] = [
    "1 4 4 0 bytes -
1 5 5 0 bytes -
1 6 6 0 stat 25 1 file 1 0 0 9 9 9 9
",
    "1 4 4 0 bytes 4242
1 5 5 0 bytes 4242
1 6 6 0 stat 25 1 file 1 5000 2 9 1002 1002 9
",
];

// Whether a text shows these writes.
fn shows(text: &str, set: usize) -> bool {
    let first = set % 2 + set / 4 % 2 * 2;
    match text.strip_prefix(FIRST_TEXTS[first]) {
        Some(other) => other == OTHER_TEXTS[set / 2 % 2],
        None => false,
    }
}

// The set of writes that a text shows, as some sets of which it is the only one; none where it
// shows no such set.
fn sets_in(text: &str) -> u8 {
    for set in 0..8usize {
        if shows(text, set) {
            return 1 << set;
        }
    }
    0
}

/// The set of writes that an image shows, as some sets of which it is the only one; none where it
/// isn't mounted or shows no such set.
pub fn sets_on<R: Threads + Wait>(rt: &R, alloc: Global, image: &[u8]) -> Result<u8, Fail> {
    Ok(match look(rt, alloc, LOOKS, image)? {
        Ok(text) => sets_in(text.as_str()),
        Err(_) => 0,
    })
}

/// The sets that images show which a crash may leave behind so many of the kept calls, so many of
/// them where there are many; none where one of them shows no set.
pub fn sets_behind<R: Threads + Wait>(
    rt: &R,
    alloc: Global,
    device: &MemoryDevice,
    calls: usize,
    most: u64,
) -> Result<u8, Fail> {
    let mut sets = 0u8;
    for image in images_behind(alloc, device, calls, most)? {
        let shown = sets_on(rt, alloc, &image)?;
        if shown == 0 {
            return Ok(0);
        }
        sets |= shown;
    }
    Ok(sets)
}

/// Whether some sets are there, and all are among others.
pub fn are_among(sets: u8, others: u8) -> bool {
    sets != 0 && sets & others == sets
}
