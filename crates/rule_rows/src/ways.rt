//! Ways up: directories one in the other, rings of them, and those that hang on either.
use crate::parts::{name_value, push_attribute, record_of, two_bytes};
use file_record::FileRec;
use file_tree::LinkList;
use made_names::NewName;
use record_rules::{Climber, Ways, first_unrooted, links_in, links_of, record_links};
use std::alloc::{AllocError, Global};
use std::test::Fail;
use volume_tree::Names;

// Directories from the first of these numbers to the second: the first one in the directory with
// the third number, and each other one in that before it.
struct Chain(usize, usize, usize);

// What is said of a directory: its number, whether its way up reaches the root, and whether it is
// one of the volume itself or below one.
struct Mark(u64, bool, bool);

// The directories of a volume, the least number of one whose way up doesn't reach the root, and
// what is said of some.
struct Row(&'static [Chain], Option<u64>, &'static [Mark]);

static ROWS: [Row; 7] = [
    // one in the other
    Row(
        &[Chain(5, 5, 5), Chain(24, 323, 5)],
        None,
        &[Mark(24, true, false), Mark(323, true, false)],
    ),
    // the same as a ring
    Row(
        &[Chain(5, 5, 5), Chain(24, 323, 323)],
        Some(24),
        &[Mark(24, false, false), Mark(323, false, false)],
    ),
    // below a directory of the volume itself
    Row(
        &[Chain(5, 5, 5), Chain(11, 11, 5), Chain(24, 323, 11)],
        None,
        &[
            Mark(11, true, true),
            Mark(24, true, true),
            Mark(323, true, true),
        ],
    ),
    // two rings, one that leads into a ring, and one that reaches the root
    Row(
        &[
            Chain(5, 5, 5),
            Chain(24, 30, 42),
            Chain(40, 45, 45),
            Chain(60, 60, 60),
            Chain(70, 75, 5),
        ],
        Some(24),
        &[
            Mark(30, false, false),
            Mark(45, false, false),
            Mark(60, false, false),
            Mark(75, true, false),
        ],
    ),
    // a ring behind one that reaches the root
    Row(
        &[Chain(5, 5, 5), Chain(24, 30, 5), Chain(40, 45, 45)],
        Some(40),
        &[Mark(30, true, false), Mark(40, false, false)],
    ),
    // one that leads into the middle of another
    Row(
        &[Chain(5, 5, 5), Chain(24, 30, 5), Chain(40, 45, 27)],
        None,
        &[Mark(30, true, false), Mark(45, true, false)],
    ),
    // a directory past the table
    Row(
        &[Chain(5, 5, 5), Chain(24, 26, 5000)],
        Some(24),
        &[Mark(24, false, false), Mark(26, false, false)],
    ),
];

// The number of the directory in which this one stands, if it is there.
fn parent_of(chains: &[Chain], number: usize) -> Option<usize> {
    let chain = chains
        .iter()
        .find(|chain| chain.0 <= number && number <= chain.1)?;
    if chain.0 == number {
        Some(chain.2)
    } else {
        Some(number.saturating_sub(1))
    }
}

fn value_of(alloc: Global, parent: usize) -> Result<Vec<u8>, AllocError> {
    let [low, high] = two_bytes(parent);
    let mut value = name_value(alloc, [low, 1], 0, b"d")?;
    if let Some(byte) = value.get_mut(1) {
        *byte = high;
    }
    Ok(value)
}

fn directory(alloc: Global, number: usize, parent: usize) -> Result<FileRec, Fail> {
    let mut attributes = Vec::new(alloc);
    push_attribute(&mut attributes, 0x30, &[], &value_of(alloc, parent)?)?;
    attributes.extend_from_slice(&[0xff; 4])?;
    let used = attributes.len().min(1024) + 0x38;
    let [low, _] = two_bytes(number);
    record_of(alloc, [low, 1, 3, 0], used, &attributes)
}

// The 330 records of these directories.
fn records_of(alloc: Global, chains: &[Chain]) -> Result<Vec<Option<FileRec>>, Fail> {
    let mut records = Vec::new(alloc);
    for number in 0..330usize {
        let record = match parent_of(chains, number) {
            Some(parent) => Some(directory(alloc, number, parent)?),
            None => None,
        };
        records.push(record)?;
    }
    Ok(records)
}

// Whether this is said of the directory.
fn has_mark(climber: &Climber, links: &[LinkList], mark: &Mark) -> bool {
    let Mark(number, leads, is_system) = *mark;
    climber.leads(number) == leads
        && climber.is_system(number, links_of(links, number)) == is_system
}

#[test]
fn ways_lead_up(rt: HostRuntime) -> Result<(), Fail> {
    let alloc = rt.alloc();
    for (row, Row(chains, unrooted, marks)) in ROWS.iter().enumerate() {
        let records = records_of(alloc, chains)?;
        let links = links_in(alloc, &records)?;
        let ways = Ways::new(alloc, &records, &links)?;
        let climber = Climber::new(&records, &ways);
        assert_eq!(rt; first_unrooted(&climber), *unrooted, "row {row}");
        let wrong = marks.iter().find(|mark| !has_mark(&climber, &links, mark));
        assert_eq!(rt; wrong.map(|mark| mark.0), None, "row {row}");
    }
    Ok(())
}

// The root, a directory of the volume itself, and seven of users, one in the other.
static SOME: [Chain; 3] = [Chain(5, 5, 5), Chain(11, 11, 5), Chain(24, 30, 5)];

// The names of the files where one more, with this number, stands in this directory: put, and taken
// of all files anew.
fn named_both_ways(
    alloc: Global,
    records: &mut [Option<FileRec>],
    number: usize,
    parent: usize,
) -> Result<(Names, Names), Fail> {
    let mut names = Names::new(alloc, records)?;
    let file = directory(alloc, number, parent)?;
    if let Some(link) = record_links(alloc, number as u64, &file)?
        .as_slice()
        .first()
        && number < records.len()
    {
        NewName::new(alloc, records, &names, number as u64, link.clone()?)?.put(&mut names);
    }
    if let Some(place) = records.get_mut(number) {
        *place = Some(file);
    }
    let anew = Names::new(alloc, records)?;
    Ok((names, anew))
}

#[test]
fn one_name_more(rt: HostRuntime) -> Result<(), Fail> {
    let alloc = rt.alloc();
    for (number, parent) in [(40, 27), (41, 11), (42, 5), (329, 30)] {
        let mut records = records_of(alloc, &SOME)?;
        let (names, anew) = named_both_ways(alloc, &mut records, number, parent)?;
        assert_eq!(rt; names.counts, anew.counts, "file {number}");
        let links = links_of(&names.links, number as u64);
        assert_eq!(rt;
            links,
            links_of(&anew.links, number as u64),
            "file {number}"
        );
    }
    Ok(())
}
