//! The update sequence of file records and index blocks, undone and made.
use crate::parts::{Edit, put};
use disk_model::{FixupFault, u16_at};
use fixup_record::{has_shape, next_check, protect, protected_is_undone, to_body, unprotect};

// A file record with the check word 7 and the true words 1234 and 5678.
static PROTECTED: [Edit; 5] = [
    Edit(0x04, &[0x30, 0, 3]),
    Edit(0x30, &[7, 0]),
    Edit(0x32, &[0x34, 0x12, 0x78, 0x56]),
    Edit(0x1fe, &[7]),
    Edit(0x3fe, &[7]),
];

// The same with the true words where they belong.
static PLAIN: [Edit; 3] = [
    Edit(0x04, &[0x30, 0, 3]),
    Edit(0x1fe, &[0x34, 0x12]),
    Edit(0x3fe, &[0x78, 0x56]),
];

fn record_of(edits: &[Edit]) -> [u8; 1024] {
    let mut record = [0; 1024];
    put(&mut record, edits);
    record
}

// The words at the ends of both sectors, and the check word with the first word behind it.
fn words(record: &[u8; 1024]) -> [u16; 4] {
    [
        u16_at(record, 0x1fe),
        u16_at(record, 0x3fe),
        u16_at(record, 0x30),
        u16_at(record, 0x34),
    ]
}

#[test]
fn the_true_words_are_put_back(rt: HostRuntime) {
    let mut record = record_of(&PROTECTED);
    assert_eq!(rt; unprotect(&mut record), Ok(7));
    assert_eq!(rt; words(&record), [0x1234, 0x5678, 7, 0x5678]);
}

#[test]
fn a_body_has_no_update_sequence(rt: HostRuntime) {
    let mut body = record_of(&PROTECTED);
    assert_eq!(rt; to_body(&mut body), Ok(7));
    assert_eq!(rt; words(&body), [0x1234, 0x5678, 0, 0]);
}

#[test]
fn a_protected_record_is_undone(rt: HostRuntime) {
    let mut record = record_of(&PLAIN);
    assert!(rt; has_shape(&record));
    protect(&mut record, 7);
    assert_eq!(rt; record, record_of(&PROTECTED));
    protected_is_undone();
    assert_eq!(rt; to_body(&mut record), Ok(7));
    assert_eq!(rt; u16_at(&record, 0x1fe), 0x1234);
}

#[test]
fn check_words_pass_over_0_and_ffff(rt: HostRuntime) {
    for (old, new) in [(0, 1), (1, 2), (0xfffd, 0xfffe), (0xfffe, 1), (0xffff, 1)] {
        assert_eq!(rt; next_check(old), new, "after {old}");
    }
}

#[test]
fn a_torn_record_stays(rt: HostRuntime) {
    let mut record = record_of(&PROTECTED);
    put(&mut record, &[Edit(0x3fe, &[8])]);
    let before = record;
    let torn = Err(FixupFault::Torn { sector: 1 });
    assert_eq!(rt; unprotect(&mut record), torn);
    assert_eq!(rt; to_body(&mut record), torn);
    assert_eq!(rt; record, before);
}

// The place of the array and the count of its words.
static OUT_OF_SHAPE: [[Edit; 1]; 4] = [
    // past the room, odd
    [Edit(0x04, &[0xfa, 0x01, 3])],
    [Edit(0x04, &[0x31, 0, 3])],
    // a word short, a word more
    [Edit(0x04, &[0x30, 0, 2])],
    [Edit(0x04, &[0x30, 0, 4])],
];

#[test]
fn arrays_out_of_shape_are_refused(rt: HostRuntime) {
    for (row, edits) in OUT_OF_SHAPE.iter().enumerate() {
        let mut record = record_of(&PROTECTED);
        put(&mut record, edits);
        assert_eq!(rt; unprotect(&mut record), Err(FixupFault::Shape), "row {row}");
    }
}

#[test]
fn an_index_block_has_eight_sectors(rt: HostRuntime) {
    let mut block = [0; 4096];
    put(&mut block, &[Edit(0x04, &[0x28, 0, 9]), Edit(0x28, &[7])]);
    for sector in 0..8 {
        block[512 * sector + 510] = 7;
        block[0x2a + 2 * sector] = 0x40 + sector as u8;
    }
    assert_eq!(rt; unprotect(&mut block), Ok(7));
    for sector in 0..8 {
        assert_eq!(rt; u16_at(&block, 512 * sector + 510) as usize, 0x40 + sector);
    }
}
