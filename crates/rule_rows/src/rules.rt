//! The rules over the names of records that are held in memory, each in a call of its own.
use crate::files::{D, DOT, FG, Form, ITSELF, OLD, OneFile, OneName, records_of, value_of};
use file_record::FileRec;
use file_tree::{Link, LinkList};
use host_base::{FileRef, is_same_reference};
use record_model::StdInfo;
use record_rules::{
    Climber, Ways, all_links, counts_in, file_at, first_misnamed, first_misplaced, first_unrooted,
    has_type, info_of, is_compressed, is_directory_record, is_encrypted, is_index, is_sparse,
    links_in, links_of, push_some, record_links, value_link,
};
use std::alloc::Global;
use std::test::Fail;

// The records of a volume, and the least numbers at which the rules 1, 2 and 8 are broken.
struct Row(&'static [OneFile], [Option<u64>; 3]);

static ROWS: [Row; 7] = [
    Row(
        &[
            OneFile(5, 5, Form::Directory, DOT),
            OneFile(24, 1, Form::Directory, D),
            OneFile(25, 2, Form::File, FG),
            OneFile(26, 1, Form::Extension, &[]),
        ],
        [None, None, None],
    ),
    // no name
    Row(&[OneFile(24, 1, Form::File, &[])], [Some(24), None, None]),
    // no standard information, and no directory
    Row(&[OneFile(24, 1, Form::Bare, D)], [Some(24), Some(24), None]),
    // a partner of namespace 3
    Row(
        &[
            OneFile(5, 5, Form::Directory, DOT),
            OneFile(
                25,
                2,
                Form::File,
                &[OneName(5, 5, 3, b'f'), OneName(5, 5, 2, b'g')],
            ),
        ],
        [Some(25), None, None],
    ),
    // two short names
    Row(
        &[
            OneFile(5, 5, Form::Directory, DOT),
            OneFile(
                25,
                2,
                Form::File,
                &[
                    OneName(5, 5, 1, b'f'),
                    OneName(5, 5, 2, b'g'),
                    OneName(5, 5, 2, b'h'),
                ],
            ),
        ],
        [Some(25), None, None],
    ),
    // a directory of another sequence
    Row(
        &[
            OneFile(5, 5, Form::Directory, DOT),
            OneFile(25, 2, Form::File, OLD),
        ],
        [None, Some(25), None],
    ),
    // a directory in itself
    Row(
        &[
            OneFile(5, 5, Form::Directory, DOT),
            OneFile(24, 1, Form::Directory, ITSELF),
        ],
        [None, None, Some(24)],
    ),
];

// The least numbers at which the rules 1, 2 and 8 are broken.
fn broken_at(alloc: Global, files: &[OneFile]) -> Result<[Option<u64>; 3], Fail> {
    let records = records_of(alloc, files)?;
    let links = links_in(alloc, &records)?;
    let ways = Ways::new(alloc, &records, &links)?;
    let climber = Climber::new(&records, &ways);
    Ok([
        first_misnamed(&records, &links),
        first_misplaced(&records, &links),
        first_unrooted(&climber),
    ])
}

#[test]
fn rules_are_broken(rt: HostRuntime) -> Result<(), Fail> {
    for (row, Row(files, numbers)) in ROWS.iter().enumerate() {
        assert_eq!(rt; broken_at(rt.alloc(), files)?, *numbers, "row {row}");
    }
    Ok(())
}

// Whether these are the names of the root, in order.
#[tactic(auto, using(record_rules::proofs::Tallies::names_known))]
fn is_root_index(alloc: Global, records: &[Option<FileRec>], held: &[Link]) -> Result<bool, Fail> {
    let links = links_in(alloc, records)?;
    let counts = counts_in(alloc, records, &links)?;
    match file_at(records, 5) {
        Some(file) if 5 < counts.len() => {
            let directory = FileRef {
                number: 5,
                seq: file.head().seq,
            };
            Ok(is_index(&[], records, &links, directory, counts[5], held))
        }
        _ => Err("no root".into()),
    }
}

// The names of all files, and these as more of the file 26.
fn names_and(
    alloc: Global,
    records: &[Option<FileRec>],
    more: &[OneName],
) -> Result<LinkList, Fail> {
    let child = FileRef { number: 26, seq: 1 };
    let mut names = all_links(alloc, records)?;
    for name in more {
        let value = value_of(alloc, name)?;
        push_some(&mut names, value_link(alloc, child, &value)?)?;
    }
    Ok(names)
}

// Names as more of the file 26, and whether the list is that of the root's names then.
static LISTED: [(&[OneName], bool); 2] = [(&[], true), (&[OneName(5, 5, 0, b'h')], false)];

#[test]
fn a_list_is_the_names_of_the_root(rt: HostRuntime) -> Result<(), Fail> {
    let records = records_of(rt.alloc(), ROWS[0].0)?;
    for (more, is_root) in &LISTED {
        let names = names_and(rt.alloc(), &records, more)?;
        let found = is_root_index(rt.alloc(), &records, names.as_slice())?;
        assert_eq!(rt; found, *is_root, "{} more", more.len());
    }
    Ok(())
}

#[test]
fn a_record_is_a_directory(rt: HostRuntime) -> Result<(), Fail> {
    let records = records_of(rt.alloc(), ROWS[0].0)?;
    for (number, is_directory) in [(5, Some(true)), (25, Some(false)), (26, None)] {
        let found = file_at(&records, number).map(|file| is_directory_record(file));
        assert_eq!(rt; found, is_directory, "{number}");
    }
    Ok(())
}

#[test]
fn a_record_has_its_fields(rt: HostRuntime) -> Result<(), Fail> {
    let records = records_of(rt.alloc(), ROWS[0].0)?;
    let file = file_at(&records, 25).ok_or("no file")?;
    assert!(rt; has_type(0x10, file) && !has_type(0x80, file));
    let info = StdInfo {
        created: 1,
        modified: 2,
        changed: 3,
        read_at: 4,
        flags: 0x20,
    };
    assert_eq!(rt; info_of(file), info);
    Ok(())
}

#[test]
fn an_attribute_has_its_flags(rt: HostRuntime) {
    assert!(rt; is_compressed(1) && is_encrypted(0x4000) && is_sparse(0x8000));
}

// Whether the first of these names stands in the root.
fn is_first_in_root(names: &[Link]) -> bool {
    let root = FileRef { number: 5, seq: 5 };
    match names.first() {
        Some(name) => is_same_reference(name.parent, root),
        None => false,
    }
}

#[test]
fn names_stand_below_a_directory(rt: HostRuntime) -> Result<(), Fail> {
    let alloc = rt.alloc();
    let records = records_of(alloc, ROWS[0].0)?;
    let links = links_in(alloc, &records)?;
    let file = file_at(&records, 25).ok_or("no file")?;
    let names = record_links(alloc, 25, file)?;
    assert_eq!(rt; names.as_slice(), links_of(&links, 25));
    assert!(rt; is_first_in_root(names.as_slice()));
    Ok(())
}

#[test]
fn names_lead_to_the_root(rt: HostRuntime) -> Result<(), Fail> {
    let alloc = rt.alloc();
    let records = records_of(alloc, ROWS[0].0)?;
    let links = links_in(alloc, &records)?;
    let ways = Ways::new(alloc, &records, &links)?;
    let climber = Climber::new(&records, &ways);
    assert_eq!(rt; climber.parent(25), Some(5));
    assert!(rt; climber.is_system(5, &[]) && !climber.is_system(25, links_of(&links, 25)));
    Ok(())
}
