//! Where entries go, and which pages are free.
use crate::rings::Step::{Commit, Seal, Update};
use crate::rings::{Step, make, ring};
use log_area::NoRoom;
use std::test::Fail;

/// A sector's update, and its commit.
const DONE: [Step; 2] = [Update(512), Commit];

/// The LSN of a commit that goes next, the free pages, the sealed ones, and whether a page is
/// filled.
type Facts = (u64, u64, u64, bool);

/// The pages of the log, the lap, the steps, what is told then, and the step that finds no room.
struct Row(u32, u64, &'static [Step], Facts, Option<NoRoom>);

const FULL: Option<NoRoom> = Some(NoRoom { pages: 1, room: 0 });

const ROWS: &[Row] = &[
    Row(513, 1, &[], (526_344, 509, 0, false), None),
    Row(513, 1, &[Update(512)], (526_483, 508, 0, true), None),
    Row(513, 1, &DONE, (526_494, 508, 0, true), None),
    Row(513, 1, &[Update(512), Seal], (526_856, 508, 1, false), None),
    Row(513, 1, &[Seal, Seal], (526_344, 509, 0, false), None),
    // three updates of a sector with their commits, and an update that begins the next page
    Row(
        513,
        1,
        &[
            Update(512),
            Commit,
            Update(512),
            Commit,
            Update(512),
            Commit,
        ],
        (526_794, 508, 0, true),
        None,
    ),
    Row(
        513,
        1,
        &[
            Update(512),
            Commit,
            Update(512),
            Commit,
            Update(512),
            Commit,
            Update(512),
        ],
        (526_995, 507, 1, true),
        None,
    ),
    // a ring of one page, and of two, which ends in the next lap
    Row(
        5,
        1,
        &[Update(512), Update(512), Update(512)],
        (6_569, 0, 0, true),
        None,
    ),
    Row(
        5,
        1,
        &[Update(512), Update(512), Update(512), Update(512)],
        (6_569, 0, 0, true),
        FULL,
    ),
    Row(
        6,
        1,
        &[Update(512), Seal, Update(512), Seal],
        (10_248, 0, 2, false),
        None,
    ),
    Row(
        6,
        1,
        &[Update(512), Seal, Update(512), Seal, Commit],
        (10_248, 0, 2, false),
        FULL,
    ),
    Row(5, 3, &[Update(1_900)], (14_831, 0, 0, true), None),
];

#[test]
fn entries_go_to_their_places(rt: HostRuntime) -> Result<(), Fail> {
    let alloc = rt.alloc();
    for Row(pages, lap, steps, facts, fault) in ROWS {
        let Some(mut area) = ring(alloc, *pages, *lap)? else {
            panic!(rt; "{pages} pages are no ring");
        };
        let found = make(alloc, &mut area, steps)?;
        let told = (area.next(88), area.room(), area.sealed(), area.filling());
        assert_eq!(rt; (told, found), (*facts, *fault), "{pages} {lap} {steps:?}");
    }
    Ok(())
}
