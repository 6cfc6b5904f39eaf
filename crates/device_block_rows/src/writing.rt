//! Bodies that are written to their blocks.
use crate::blocks::{block, body, disk, ends_of, is_written};
use device_blocks::CheckWord;
use device_blocks::CheckWord::{Missing, Sent, Stands, Unread};
use disk_model::BlockKind;
use sector_device::Device;
use std::test::Fail;

/// A block, whether its new body is signed, the word before and after, the words with which its
/// first and its last sector then end, and the moment.
struct Row(u64, BlockKind, bool, CheckWord, CheckWord, (u16, u16), u64);

static ROWS: [Row; 12] = [
    Row(4, BlockKind::FileRec, true, Unread, Stands(8), (8, 8), 4),
    Row(2, BlockKind::FileRec, true, Unread, Stands(1), (1, 1), 4),
    Row(6, BlockKind::FileRec, true, Unread, Stands(1), (1, 1), 4),
    Row(16, BlockKind::FileRec, true, Unread, Stands(1), (1, 1), 4),
    Row(20, BlockKind::FileRec, true, Unread, Stands(1), (1, 1), 4),
    Row(8, BlockKind::Index, true, Unread, Stands(8), (8, 8), 4),
    Row(
        4,
        BlockKind::FileRec,
        false,
        Unread,
        Missing,
        (0x61, 0x62),
        4,
    ),
    Row(
        4,
        BlockKind::Plain,
        false,
        Missing,
        Missing,
        (0x61, 0x61),
        2,
    ),
    Row(4, BlockKind::FileRec, true, Missing, Stands(1), (1, 1), 2),
    Row(
        4,
        BlockKind::FileRec,
        true,
        Stands(0x1fe),
        Stands(0x1ff),
        (0x1ff, 0x1ff),
        2,
    ),
    Row(
        4,
        BlockKind::FileRec,
        true,
        Stands(0xfffd),
        Stands(0xfffe),
        (0xfffe, 0xfffe),
        2,
    ),
    Row(4, BlockKind::FileRec, true, Sent(9), Stands(9), (9, 9), 2),
];

#[test]
fn a_body_is_written_under_the_next_word(rt: HostRuntime) -> Result<(), Fail> {
    let alloc = rt.alloc();
    for Row(first, kind, signed, before, after, ends, moment) in &ROWS {
        let mut device = disk(alloc, &[], 0)?;
        let mut word = *before;
        let new = body(alloc, *kind, *signed)?;
        let ok = is_written(&mut device, block(*first, *kind), &mut word, &new);
        let image = device.left_by(alloc, device.done.len(), &[true; 8])?;
        let all = ends_of(&image, *first);
        let last = kind.sectors() - 1;
        let found = (ok, word, (all[0], all[last]), device.moment());
        assert_eq!(rt; found, (true, *after, *ends, *moment), "{first} {before:?}");
    }
    Ok(())
}
