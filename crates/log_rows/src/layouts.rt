//! Places in the log, its check words, its restart pages and its record pages.
ghost use Rattle.std.specs.Prelude.{◌≡◌, ◌≤◌, length};
ghost use Rattle.log_model.specs.Entries.{most_bytes, FitsEntry};

use crate::filling::fill;
use disk_model::put_u16;
use fixup_record::{has_shape, protect};
use host_base::Bytes;
use log_images::{FIRST, own};
use log_model::Act;
use log_page::{
    Entry, PageFault, Restart, append_page, chosen, digits, has_digits, is_blank, is_second_chosen,
    lap_of, lsn_at, lsn_says_place, offset_of, pick_check, read_page, restart_read_again, said_lsn,
    sequence_bits, written_pages,
};
use log_record::write;
use std::alloc::Global;
use std::test::Fail;

#[test]
fn places_in_a_log_of_513_pages(rt: HostRuntime) {
    has_digits();
    lsn_says_place();
    assert_eq!(rt; (digits(2_101_248), sequence_bits(513)), (22, 45));
    let lsn = lsn_at(513, 1, 4 * 4096 + 0x40);
    let place = (lap_of(513, FIRST), offset_of(513, FIRST));
    assert_eq!(rt; (lsn, place), (FIRST, (1, 16_448)));
}

#[test]
fn the_least_word_that_ends_no_sector(rt: HostRuntime) {
    let mut page = [0; 4096];
    for (sector, word) in [1, 2, 3, 1, 5, 1, 1, 1].into_iter().enumerate() {
        if sector < 8 {
            put_u16(&mut page, 512 * sector + 510, word);
        }
    }
    assert_eq!(rt; (pick_check(&page), pick_check(&[0; 4096])), (4, 1));
}

#[test]
fn a_written_restart_page_is_read(rt: HostRuntime) {
    restart_read_again();
    let restart = own();
    let mut page = [0xff; 4096];
    restart.write(&mut page);
    let bytes = (page[0x1c], page[0x40], page[0x90], page[0xfff]);
    assert_eq!(rt; bytes, (1, 45, b'N', 0));
    assert!(rt; has_shape(&page));
    protect(&mut page, 4);
    let read = (Restart::read(&page), restart.is_clean());
    assert_eq!(rt; read, (Ok(restart), false));
    page[0x3fe] = 5;
    let torn = (Restart::read(&page), is_blank(&page));
    assert_eq!(rt; torn, (Err(PageFault::NotWhole), false));
}

// Two restart pages, the one that is chosen, and whether it is the second.
#[test]
fn the_newer_restart_page_is_chosen(rt: HostRuntime) {
    let old = own();
    let mut new = old;
    new.opens = 4;
    let torn = Err(PageFault::NotWhole);
    for (first, second, wanted, is_second) in [
        (Ok(old), Ok(new), new, true),
        (Ok(new), Ok(old), new, false),
        (torn, Ok(old), old, true),
        (Ok(old), torn, old, false),
    ] {
        let found = (chosen(first, second), is_second_chosen(first, second));
        assert_eq!(rt; found, (Some(wanted), is_second));
    }
}

// An update of the sector 80.
fn update(lsn: u64, redo: Bytes, undo: Bytes) -> Entry
    requires some { 1 ≤ length redo }
    requires few { length redo ≤ most_bytes }
    requires same { length undo ≡ length redo }
    ensures { FitsEntry result }
{
    Entry {
        lsn,
        previous: 0,
        tx: 1,
        act: Act::Update {
            first: 80,
            kind: 0,
            at: 0,
            redo,
            undo,
        },
    }
}

// Three updates of a whole sector, in the bytes of a page.
fn updates(alloc: Global) -> Result<Vec<u8>, Fail> {
    let mut out = Vec::new(alloc);
    for number in 0..3 {
        let redo = Bytes::from(vec![in alloc; 0x22u8; 512]?);
        let undo = Bytes::from(vec![in alloc; 0x11u8; 512]?);
        write(&update(FIRST + 139 * number, redo, undo), &mut out)?;
    }
    Ok(out)
}

#[test]
fn three_updates_of_a_sector_fit_a_page(rt: HostRuntime) -> Result<(), Fail> {
    let alloc = rt.alloc();
    let mut page = [0; 4096];
    let bytes = updates(alloc)?;
    fill(&mut page, &bytes, FIRST + 278);
    let entries = read_page(alloc, &page, 513, FIRST)?;
    let found = (bytes.len(), entries.len(), said_lsn(&page));
    assert_eq!(rt; found, (3336, 3, Some(FIRST + 278)));
    Ok(())
}

// The page's entries from the second one on; and the page with another operation in its second one.
#[test]
fn a_page_is_read_from_its_second_entry_on(rt: HostRuntime) -> Result<(), Fail> {
    let alloc = rt.alloc();
    let mut page = [0; 4096];
    fill(&mut page, &updates(alloc)?, FIRST + 278);
    let mut after = Vec::new(alloc);
    append_page(alloc, &mut after, &page, 513, FIRST, 0x40 + 1112)?;
    assert_eq!(rt; after.len(), 2);
    page[64 + 1112 + 0x20] = 2;
    let foreign = read_page(alloc, &page, 513, FIRST).err();
    assert_eq!(rt; foreign, Some(PageFault::Foreign { lsn: FIRST + 139 }));
    Ok(())
}

// Each sector of the page is torn; and the page is whole, but that of the lap before.
#[test]
fn torn_and_older_pages_are_not_whole(rt: HostRuntime) -> Result<(), Fail> {
    let alloc = rt.alloc();
    written_pages();
    let mut page = [0; 4096];
    fill(&mut page, &updates(alloc)?, FIRST + 278);
    for sector in 0..9 {
        let mut torn = page;
        let mut lsn = FIRST;
        if sector < 8 {
            torn[512 * sector + 510] = 9;
        } else {
            lsn = FIRST + 524_288;
        }
        let fault = read_page(alloc, &torn, 513, lsn).err();
        assert_eq!(rt; fault, Some(PageFault::NotWhole), "sector {sector}");
    }
    Ok(())
}
