//! What recovery makes of a disk by an own log that is in use.
use crate::steps::Change::{Commit, Fill, Record};
use crate::steps::{Change, Step, page_of};
use crate::volume::*;
use disk_model::{Block, BlockKind};
use log_images::FIRST;
use log_recovery::Recovered;
use sector_device::MemoryDevice;
use std::process::Abort;
use std::test::Fail;

// What recovery finds by these entries where the free sector has this byte everywhere.
fn found_by<R: Abort + AllocGlobal>(rt: &R, steps: &[Step], byte: u8) -> Result<Recovered, Fail> {
    let pages = [(4, page_of(rt, FIRST, steps)?)];
    let mut device = volume_with(rt, &pages, byte)?;
    Ok(recovered(rt.alloc(), &mut device)?)
}

// One transaction put 0x22 over 0x11, and hasn't ended, or has. Then a given-up one put 9
// over 0, and an ended one after it 5 over 0.
#[test]
fn a_loser_is_undone_and_an_ended_one_stays(rt: HostRuntime) -> Result<(), Fail> {
    let update = (1, Fill(FREE, 0x22, 0x11));
    let lost: &[Step] = &[update];
    let after: &[Step] = &[(1, Fill(FREE, 9, 0)), (2, Fill(FREE, 5, 0)), (2, Commit)];
    for (steps, on_disk, byte) in [
        (lost, 0x22, Some(0x11)),
        (&[update, (1, Commit)], 0x22, None),
        (after, 9, Some(5)),
    ] {
        let found = found_by(&rt, steps, on_disk)?;
        let count = usize::from(byte.is_some());
        assert_eq!(rt; (count_of(&found), byte_of(&found, 0)), (count, byte));
        assert_eq!(rt; next_of(&found), (2, 1, 4));
    }
    Ok(())
}

// Tears each sector of this page in turn. The first recovered block is filled with this byte.
fn tear<R: Abort + AllocGlobal>(
    rt: &R,
    device: &mut MemoryDevice,
    page: &(u64, Vec<u8>),
    byte: Option<u8>,
) -> Result<(), Fail> {
    let (number, whole) = page;
    for sector in 0..8 {
        let mut torn = whole.clone()?;
        if let Some(cell) = torn.get_mut(512 * sector + 510) {
            *cell = 9;
        }
        put_page(rt, device, *number, &torn);
        let found = recovered(rt.alloc(), device)?;
        assert_eq!(rt; byte_of(&found, 0), byte, "page {number}, sector {sector}");
    }
    Ok(())
}

// Page 4 has an update, and page 5 the commit: the update is undone where page 5 is torn, and isn't
// known where page 4 is.
#[test]
fn a_torn_page_ends_the_log(rt: HostRuntime) -> Result<(), Fail> {
    let pages = [
        (5, page_of(&rt, NEXT, &[(1, Commit)])?),
        (4, page_of(&rt, FIRST, &[(1, Fill(FREE, 0x22, 0x11))])?),
    ];
    let mut device = volume_with(&rt, &pages, 0x22)?;
    let found = recovered(rt.alloc(), &mut device).map(|found| count_of(&found));
    assert_eq!(rt; found, Ok(0));
    for page in &pages {
        let byte = if page.0 == 5 { Some(0x11) } else { None };
        tear(&rt, &mut device, page, byte)?;
    }
    Ok(())
}

// The LSN of the first rival's update of a block that is shadowed.
fn rival_of(found: &Recovered, first: u64, kind: BlockKind) -> Option<u64> {
    let block = Block { first, kind };
    for shadow in found.blocks.shadows.as_slice() {
        if shadow.block == block {
            return Some(shadow.lsn);
        }
    }
    None
}

// An update of the file record in the free sector, in 13 units of an LSN. One of a sector takes
// 139, and a commit 11.
const RECORD: Change = Record(FREE, 0, &[0x33; 8], &[0; 8]);

// The last ended update of the file record stands before one of its first sector, which itself has
// no ended update. Blocks with no update that share a sector with these are shadowed too.
#[test]
fn rivals_shadow_each_other(rt: HostRuntime) -> Result<(), Fail> {
    let steps = [
        (1, RECORD),
        (1, Commit),
        (2, Fill(FREE, 0x22, 0x11)),
        (3, Fill(FREE, 0x44, 0x22)),
    ];
    let found = found_by(&rt, &steps, 0)?;
    for (first, kind, rival) in [
        (FREE, BlockKind::FileRec, Some(FIRST + 24)),
        (FREE, BlockKind::Plain, Some(FIRST)),
        (FREE + 1, BlockKind::Plain, Some(FIRST)),
        (FREE, BlockKind::Index, Some(FIRST)),
        (FREE + 2, BlockKind::Plain, None),
    ] {
        assert_eq!(rt; rival_of(&found, first, kind), rival);
    }
    assert_eq!(rt; count_of(&found), 0);
    Ok(())
}

// The first rival is named, though one after it shadows: a sector is updated before and after the
// last ended update of the file record, whose own ended update stands after that of the sector.
#[test]
fn a_shadow_names_the_first_rival(rt: HostRuntime) -> Result<(), Fail> {
    let steps = [
        (1, Fill(FREE, 0x22, 0x11)),
        (1, Commit),
        (2, RECORD),
        (2, Commit),
        (3, Fill(FREE, 0x44, 0x22)),
    ];
    let found = found_by(&rt, &steps, 0)?;
    let plain = rival_of(&found, FREE, BlockKind::Plain);
    let record = rival_of(&found, FREE, BlockKind::FileRec);
    assert_eq!(rt; (plain, record), (Some(FIRST + 150), Some(FIRST)));
    assert_eq!(rt; count_of(&found), 0);
    Ok(())
}
