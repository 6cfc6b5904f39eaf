//! Transactions that are given up, and blocks over whose sectors another kind of block comes.
use std::test::Fail;
use store_images::Answer::{Barred, Done, Fault};
use store_images::Step::{Begin, Change, Commit, GiveUp, Out, Page, Seal, Sync};
use store_images::{IN_X, Row, S0, S1, S2, Step, Watch, X, first_wrong};

/// Two sectors.
const TWO: [Watch; 2] = [Watch(S0, 0, 512), Watch(S1, 0, 512)];

const FIRST: Step = Change(S0, 0, 512, 0x22);

const SECOND: Step = Change(S1, 0, 512, 0x33);

const THIRD: Step = Change(S2, 0, 512, 0x44);

/// The second change has to read its block, and that fails; or the third one, and then both blocks
/// that were changed are dirty.
static FAULTS: [Row; 3] = [
    Row {
        steps: &[
            (Begin, Done),
            (FIRST, Done),
            (SECOND, Fault),
            (Commit, Barred),
            (Seal, Done),
            (Page, Done),
        ],
        failing: &[5],
        tearing: 0,
        counts: (0, 0),
        seen: &[&[Some(0x11), Some(0x11)]],
    },
    Row {
        steps: &[
            (Begin, Done),
            (FIRST, Done),
            (SECOND, Fault),
            (Begin, Done),
            (SECOND, Done),
            (Commit, Done),
            (Seal, Done),
            (Page, Done),
            (Sync, Done),
            (Out(S0), Done),
            (Out(S1), Done),
            (Out(S0), Barred),
        ],
        failing: &[5],
        tearing: 0,
        counts: (1, 1),
        seen: &[&[Some(0x11), Some(0x33)]],
    },
    Row {
        steps: &[
            (Begin, Done),
            (FIRST, Done),
            (SECOND, Done),
            (THIRD, Fault),
            (GiveUp, Barred),
            (Seal, Done),
            (Page, Done),
            (Sync, Done),
            (Out(S0), Done),
            (Out(S1), Done),
            (Out(S2), Barred),
            (Begin, Done),
            (SECOND, Done),
            (Commit, Done),
            (Seal, Done),
            (Page, Done),
            (Sync, Done),
        ],
        failing: &[6],
        tearing: 0,
        counts: (1, 1),
        seen: &[&[Some(0x11), Some(0x33)]],
    },
];

#[test]
fn a_change_that_fails_gives_up_all(rt: HostRuntime) -> Result<(), Fail> {
    for (number, row) in FAULTS.iter().enumerate() {
        let wrong = first_wrong(rt.alloc(), 16, row, &TWO)?;
        assert!(rt; wrong.is_none(), "row {number}: {wrong:?}");
    }
    Ok(())
}

/// One byte of a sector.
const BYTE: [Watch; 1] = [Watch(S0, 7, 1)];

const TO_5: Step = Change(S0, 7, 1, 5);

const TO_6: Step = Change(S0, 7, 1, 6);

const TO_7: Step = Change(S0, 7, 1, 7);

const TO_8: Step = Change(S0, 7, 1, 8);

const TO_9: Step = Change(S0, 7, 1, 9);

static GIVEN_UP: [Row; 5] = [
    Row {
        steps: &[
            (Begin, Done),
            (TO_9, Done),
            (GiveUp, Done),
            (GiveUp, Barred),
            (Begin, Done),
            (TO_5, Done),
            (Commit, Done),
            (Seal, Done),
            (Page, Done),
        ],
        failing: &[],
        tearing: 0,
        counts: (1, 0),
        seen: &[&[Some(0x11)], &[Some(5)]],
    },
    Row {
        steps: &[
            (Begin, Done),
            (TO_9, Done),
            (GiveUp, Done),
            (Begin, Done),
            (TO_5, Done),
            (Commit, Done),
            (Seal, Done),
            (Page, Done),
            (Sync, Done),
        ],
        failing: &[],
        tearing: 0,
        counts: (1, 1),
        seen: &[&[Some(5)]],
    },
    // changed twice, and given up by a crash
    Row {
        steps: &[
            (Begin, Done),
            (TO_7, Done),
            (TO_8, Done),
            (Seal, Done),
            (Page, Done),
            (Sync, Done),
            (Out(S0), Barred),
        ],
        failing: &[],
        tearing: 0,
        counts: (0, 0),
        seen: &[&[Some(0x11)]],
    },
    // over a commit that is durable and isn't written out
    Row {
        steps: &[
            (Begin, Done),
            (TO_5, Done),
            (Commit, Done),
            (Begin, Done),
            (TO_7, Done),
            (TO_8, Done),
            (Seal, Done),
            (Page, Done),
            (Sync, Done),
            (Out(S0), Barred),
            (GiveUp, Done),
            (Out(S0), Done),
        ],
        failing: &[],
        tearing: 0,
        counts: (1, 1),
        seen: &[&[Some(5)]],
    },
    // over a commit that isn't durable
    Row {
        steps: &[
            (Begin, Done),
            (TO_5, Done),
            (Commit, Done),
            (Begin, Done),
            (TO_7, Done),
            (GiveUp, Done),
            (Out(S0), Barred),
            (Begin, Done),
            (TO_6, Done),
            (Commit, Done),
            (Seal, Done),
            (Page, Done),
            (Out(S0), Barred),
            (Sync, Done),
            (Out(S0), Done),
        ],
        failing: &[],
        tearing: 0,
        counts: (2, 2),
        seen: &[&[Some(6)]],
    },
];

#[test]
fn what_is_given_up_is_undone(rt: HostRuntime) -> Result<(), Fail> {
    for (number, row) in GIVEN_UP.iter().enumerate() {
        let wrong = first_wrong(rt.alloc(), 16, row, &BYTE)?;
        assert!(rt; wrong.is_none(), "row {number}: {wrong:?}");
    }
    Ok(())
}

/// An index block, and a sector in it, which is the device's where it is shadowed.
const RIVALS: [Watch; 2] = [Watch(X, 0x40, 4032), Watch(IN_X, 0, 500)];

const STALE: Step = Change(IN_X, 0, 512, 0x33);

const OVER: Step = Change(X, 0x40, 4032, 0x44);

static OVERS: [Row; 4] = [
    Row {
        steps: &[
            (Begin, Done),
            (STALE, Done),
            (OVER, Barred),
            (Commit, Done),
            (Seal, Done),
            (Page, Done),
            (Sync, Done),
        ],
        failing: &[],
        tearing: 0,
        counts: (1, 1),
        seen: &[&[Some(0x11), Some(0x33)]],
    },
    Row {
        steps: &[
            (Begin, Done),
            (STALE, Done),
            (Commit, Done),
            (Seal, Done),
            (Page, Done),
            (Sync, Done),
            (Begin, Done),
            (OVER, Done),
            (Commit, Done),
            (Out(IN_X), Barred),
            (Seal, Done),
            (Page, Done),
            (Page, Done),
            (Page, Done),
            (Page, Barred),
            (Sync, Done),
            (Out(IN_X), Barred),
        ],
        failing: &[],
        tearing: 0,
        counts: (2, 2),
        seen: &[&[Some(0x44), Some(0x11)]],
    },
    Row {
        steps: &[
            (Begin, Done),
            (STALE, Done),
            (Commit, Done),
            (Seal, Done),
            (Page, Done),
            (Sync, Done),
            (Begin, Done),
            (OVER, Done),
            (Commit, Done),
            (Seal, Done),
            (Page, Done),
            (Page, Done),
            (Page, Done),
            (Sync, Done),
            (Out(X), Done),
            (Out(IN_X), Barred),
        ],
        failing: &[],
        tearing: 0,
        counts: (2, 2),
        seen: &[&[Some(0x44), Some(0x11)], &[Some(0x44), Some(0x44)]],
    },
    Row {
        steps: &[
            (Begin, Done),
            (STALE, Done),
            (Commit, Done),
            (Seal, Done),
            (Page, Done),
            (Sync, Done),
            (Begin, Done),
            (OVER, Done),
            (Commit, Done),
            (Seal, Done),
            (Page, Done),
            (Page, Done),
            (Page, Done),
            (Sync, Done),
            (Out(X), Done),
            (Sync, Done),
            (Out(IN_X), Barred),
        ],
        failing: &[],
        tearing: 0,
        counts: (2, 2),
        seen: &[&[Some(0x44), Some(0x44)]],
    },
];

#[test]
fn a_stale_rival_is_never_written(rt: HostRuntime) -> Result<(), Fail> {
    for (number, row) in OVERS.iter().enumerate() {
        let wrong = first_wrong(rt.alloc(), 16, row, &RIVALS)?;
        assert!(rt; wrong.is_none(), "row {number}: {wrong:?}");
    }
    Ok(())
}
