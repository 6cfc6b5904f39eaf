//! The check word of a page, by the words with which the sectors end that stand at its place.
use crate::naming::is_named;
use crate::rings::Step::{Seal, Update};
use crate::rings::{make, ring};
use crate::writing::{device, is_put, is_written, words_of};
use std::test::Fail;

/// The words at the place, and the check word.
struct Row([u16; 8], u16);

const ROWS: &[Row] = &[
    Row([1, 2, 3, 1, 5, 1, 1, 1], 4),
    Row([0; 8], 1),
    Row([1; 8], 2),
    Row([0xffff; 8], 1),
    Row([2, 3, 4, 5, 6, 7, 8, 9], 1),
    Row([8, 7, 6, 5, 4, 3, 2, 1], 9),
    Row([1, 2, 3, 4, 5, 6, 7, 0x108], 8),
    Row([0x101, 0x201, 0x301, 2, 3, 4, 5, 6], 1),
];

#[test]
fn a_page_has_a_word_that_no_sector_has(rt: HostRuntime) -> Result<(), Fail> {
    let alloc = rt.alloc();
    for Row(words, check) in ROWS {
        let mut device = device(alloc, &[])?;
        let Some(mut area) = ring(alloc, 5, 1)? else {
            panic!(rt; "five pages are no ring");
        };
        make(alloc, &mut area, &[Update(512), Seal])?;
        let done = is_put(&mut device, 4, words) && is_written(&mut area, &mut device);
        let image = device.left_by(alloc, device.done.len(), &[true; 8])?;
        assert_eq!(rt;
            (done, words_of(&image, 4)),
            (true, [*check; 8]),
            "{words:?}"
        );
    }
    Ok(())
}

#[test]
fn a_restart_page_has_a_word_that_no_sector_has(rt: HostRuntime) -> Result<(), Fail> {
    let alloc = rt.alloc();
    for Row(words, check) in ROWS {
        let mut device = device(alloc, &[])?;
        let Some(mut area) = ring(alloc, 5, 1)? else {
            panic!(rt; "five pages are no ring");
        };
        let done = is_put(&mut device, 0, words) && is_named(&mut area, &mut device, false);
        let image = device.left_by(alloc, device.done.len(), &[true; 8])?;
        assert_eq!(rt;
            (done, words_of(&image, 0)),
            (true, [*check; 8]),
            "{words:?}"
        );
    }
    Ok(())
}
