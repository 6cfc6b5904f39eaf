//! Calls that no run of the program makes: with a reader and a writer of std, without words, and
//! with words that the system can't give.
use crate::images::Image;
use crate::runs::{CHECK_TEXT, NO_FAULT, SCAN_WORDS, TINY_TEXT, device, words_of};
use host_base::{MemorySink, NoGate, StdSink, StdSource};
use ntfs_host::{Quiet, ntfs_host, quiet_command, words_or_status};
use std::alloc::Global;
use std::io;
use std::process::Abort;
use std::test::Fail;

const DUMP_TEXT: &[u8] = b"node 5 5 directory 0 0 0 0 0 0 0
node 11 11 directory 0 0 0 0 0 0 0
node 24 24 directory 0 0 0 0 0 0 0
node 25 1 file 512 512 1 1 2 3 4
node 26 1 file 5 5 0 1 2 3 4
node 27 1 system 0 0 0 1 2 3 4
link 5 5 long .
link 11 5 long $Extend
link 24 5 long d
link 25 5 long f
link 26 24 long Long
link 27 11 long $UsnJrnl
link 26 24 short LONG~1
journal 0 64 512
room 38
";

#[test]
fn a_reader_and_a_writer_of_std_serve(rt: HostRuntime) -> Result<(), Fail> {
    let alloc = rt.alloc();
    let words = words_of(alloc, SCAN_WORDS)?;
    let device = device(&rt, Image::Tiny, NO_FAULT)?;
    let mut text = Vec::new(alloc);
    let mut source = StdSource::new(b"".as_slice());
    let mut sink = StdSink::new(&mut text);
    let outcome = ntfs_host(&rt, alloc, &words, &mut source, &mut sink, device, &NoGate);
    assert_eq!(rt; (outcome.status, text.as_slice()), (0, TINY_TEXT));
    Ok(())
}

// A command, an image, and what is printed.
struct Row(Quiet, Image, &'static [u8]);

static COMMANDS: [Row; 3] = [
    Row(Quiet::Scan, Image::Tiny, TINY_TEXT),
    Row(Quiet::Check, Image::Whole, CHECK_TEXT),
    Row(Quiet::Dump, Image::Whole, DUMP_TEXT),
];

fn is_printed<R: Abort + AllocGlobal>(rt: &R, row: &Row) -> Result<bool, Fail> {
    let alloc = rt.alloc();
    let mut sink = MemorySink::new(alloc, Vec::new(alloc));
    let outcome = quiet_command(alloc, &row.0, &mut sink, device(rt, row.1, NO_FAULT)?);
    Ok(outcome.status == 0 && sink.bytes() == row.2)
}

#[test]
fn quiet_commands_print_the_texts(rt: HostRuntime) -> Result<(), Fail> {
    for (i, row) in COMMANDS.iter().enumerate() {
        assert!(rt; is_printed(&rt, row)?, "row {i}");
    }
    Ok(())
}

// How many words there are, or the status.
fn count_of(alloc: Global, texts: io::Result<Vec<String>>) -> Result<usize, u8> {
    match words_or_status(alloc, texts) {
        Ok(words) => Ok(words.len()),
        Err(status) => Err(status),
    }
}

// The words themselves; none, where one is no text; and the status 6, where memory was wanting.
#[test]
fn words_that_are_no_text_or_want_memory(rt: HostRuntime) -> Result<(), Fail> {
    let alloc = rt.alloc();
    let words = words_of(alloc, &["ntfshost"])?;
    let no_text = io::Error::from(io::ErrorKind::InvalidData);
    let wanting = io::Error::from(io::ErrorKind::OutOfMemory);
    let counts = [
        count_of(alloc, Ok(words)),
        count_of(alloc, Err(no_text)),
        count_of(alloc, Err(wanting)),
    ];
    assert_eq!(rt; counts, [Ok(1), Ok(0), Err(6)]);
    Ok(())
}
