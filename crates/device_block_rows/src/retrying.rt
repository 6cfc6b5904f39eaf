//! Writes of blocks that fail, and are tried again.
use crate::blocks::{block, body, disk, ends_of, is_inside, is_written};
use device_blocks::CheckWord::{Sent, Stands, Unread};
use device_blocks::{CheckWord, write_again};
use disk_model::BlockKind;
use sector_device::Device;
use std::test::Fail;

/// The calls that fail, the sectors that a failed write puts, and whether the body is changed
/// before the second try; the words after the first try and the second one, the words with which
/// the two sectors end after each, and the moment.
struct Row(
    &'static [u64],
    usize,
    bool,
    (CheckWord, CheckWord),
    (u16, u16),
    (u16, u16),
    u64,
);

static ROWS: [Row; 6] = [
    Row(&[2], 0, false, (Sent(8), Stands(8)), (7, 7), (8, 8), 6),
    Row(&[2], 1, false, (Sent(8), Stands(8)), (8, 7), (8, 8), 6),
    Row(&[2], 2, false, (Sent(8), Stands(8)), (8, 8), (8, 8), 6),
    Row(&[2], 1, true, (Sent(8), Stands(9)), (8, 7), (9, 9), 6),
    Row(&[1], 1, false, (Unread, Stands(8)), (7, 7), (8, 8), 6),
    Row(&[2, 3], 1, false, (Sent(8), Sent(8)), (8, 7), (8, 7), 6),
];

#[test]
fn a_body_is_sent_again(rt: HostRuntime) -> Result<(), Fail> {
    let alloc = rt.alloc();
    let place = block(4, BlockKind::FileRec);
    for Row(failing, tearing, changed, words, torn, ends, moment) in &ROWS {
        let mut device = disk(alloc, failing, *tearing)?;
        let new = body(alloc, BlockKind::FileRec, true)?;
        let mut word = Unread;
        is_written(&mut device, place, &mut word, &new);
        let first = word;
        let middle = device.left_by(alloc, device.done.len(), &[true; 8])?;
        if *changed {
            word = word.changed();
        }
        is_written(&mut device, place, &mut word, &new);
        let image = device.left_by(alloc, device.done.len(), &[true; 8])?;
        let (a, b) = (ends_of(&middle, 4), ends_of(&image, 4));
        let found = ((first, word), (a[0], a[1]), (b[0], b[1]), device.moment());
        assert_eq!(rt;
            found,
            (*words, *torn, *ends, *moment),
            "{failing:?} {tearing}"
        );
    }
    Ok(())
}

/// The calls that fail, whether the block is written, and the moment and the faults.
struct Again(&'static [u64], bool, (u64, u64));

static AGAIN: [Again; 3] = [
    Again(&[], true, (4, 0)),
    Again(&[1], false, (2, 1)),
    Again(&[2], false, (4, 1)),
];

#[test]
fn a_block_is_written_as_it_stands(rt: HostRuntime) -> Result<(), Fail> {
    let alloc = rt.alloc();
    let torn = block(6, BlockKind::FileRec);
    for Again(failing, written, counts) in &AGAIN {
        let mut device = disk(alloc, failing, 1)?;
        let before = device.left_by(alloc, 0, &[])?;
        let ok = is_inside(&device, torn) && write_again(&mut device, torn).is_ok();
        let image = device.left_by(alloc, device.done.len(), &[true; 8])?;
        let found = (ok, image == before, (device.moment(), device.faults()));
        assert_eq!(rt; found, (*written, true, *counts), "{failing:?}");
    }
    Ok(())
}
