//! A commit before and after its page is durable, and a file record that is written out.
use std::test::Fail;
use store_images::Answer::{Barred, Done, Fault};
use store_images::Step::{Begin, Change, Commit, Out, Page, Seal, Sync};
use store_images::{Answer, R, Row, S0, Step, Watch, first_wrong};

const WATCHED: [Watch; 1] = [Watch(S0, 0, 512)];

const CHANGE: Step = Change(S0, 0, 512, 0x22);

const OUT: Step = Out(S0);

const OLD: &[Option<u8>] = &[Some(0x11)];

const NEW: &[Option<u8>] = &[Some(0x22)];

static COMMITS: [Row; 11] = [
    Row {
        steps: &[(Begin, Done), (CHANGE, Done)],
        failing: &[],
        tearing: 0,
        counts: (0, 0),
        seen: &[OLD],
    },
    Row {
        steps: &[
            (Page, Barred),
            (Begin, Done),
            (CHANGE, Done),
            (Commit, Done),
            (Begin, Done),
            (Begin, Barred),
        ],
        failing: &[],
        tearing: 0,
        counts: (1, 0),
        seen: &[OLD],
    },
    Row {
        steps: &[
            (Begin, Done),
            (CHANGE, Done),
            (Commit, Done),
            (Page, Barred),
            (Seal, Done),
            (Sync, Done),
            (OUT, Barred),
        ],
        failing: &[],
        tearing: 0,
        counts: (1, 0),
        seen: &[OLD],
    },
    Row {
        steps: &[
            (Begin, Done),
            (CHANGE, Done),
            (Commit, Done),
            (Seal, Done),
            (Page, Done),
            (OUT, Barred),
        ],
        failing: &[],
        tearing: 0,
        counts: (1, 0),
        seen: &[OLD, NEW],
    },
    Row {
        steps: &[
            (Begin, Done),
            (CHANGE, Done),
            (Commit, Done),
            (Seal, Done),
            (Page, Done),
            (Sync, Done),
        ],
        failing: &[],
        tearing: 0,
        counts: (1, 1),
        seen: &[NEW],
    },
    Row {
        steps: &[
            (Begin, Done),
            (CHANGE, Done),
            (Commit, Done),
            (Seal, Done),
            (Page, Done),
            (Sync, Done),
            (OUT, Done),
            (OUT, Barred),
        ],
        failing: &[],
        tearing: 0,
        counts: (1, 1),
        seen: &[NEW],
    },
    Row {
        steps: &[
            (Begin, Done),
            (CHANGE, Done),
            (Commit, Done),
            (Seal, Done),
            (Page, Done),
            (Sync, Fault),
        ],
        failing: &[7],
        tearing: 0,
        counts: (1, 0),
        seen: &[OLD, NEW],
    },
    Row {
        steps: &[
            (Begin, Done),
            (CHANGE, Done),
            (Commit, Done),
            (Seal, Done),
            (Page, Done),
            (Sync, Fault),
            (Sync, Done),
        ],
        failing: &[7],
        tearing: 0,
        counts: (1, 1),
        seen: &[NEW],
    },
    // a page's write that fails with some of its sectors, or with all
    Row {
        steps: &[
            (Begin, Done),
            (CHANGE, Done),
            (Commit, Done),
            (Seal, Done),
            (Page, Fault),
            (Sync, Done),
        ],
        failing: &[6],
        tearing: 3,
        counts: (1, 0),
        seen: &[OLD],
    },
    Row {
        steps: &[
            (Begin, Done),
            (CHANGE, Done),
            (Commit, Done),
            (Seal, Done),
            (Page, Fault),
            (Sync, Done),
        ],
        failing: &[6],
        tearing: 8,
        counts: (1, 0),
        seen: &[NEW],
    },
    Row {
        steps: &[
            (Begin, Done),
            (CHANGE, Done),
            (Commit, Done),
            (Seal, Done),
            (Page, Fault),
            (Sync, Done),
            (Page, Done),
            (Sync, Done),
        ],
        failing: &[6],
        tearing: 3,
        counts: (1, 1),
        seen: &[NEW],
    },
];

#[test]
fn a_commit_is_durable_once_its_page_is(rt: HostRuntime) -> Result<(), Fail> {
    for (number, row) in COMMITS.iter().enumerate() {
        let wrong = first_wrong(rt.alloc(), 16, row, &WATCHED)?;
        assert!(rt; wrong.is_none(), "row {number}: {wrong:?}");
    }
    Ok(())
}

const RECORDS: [Watch; 1] = [Watch(R, 0x40, 960)];

const RENEW: Step = Change(R, 0x40, 960, 0x22);

const RECORD_OUT: Step = Out(R);

/// The record's commit is durable, and it is written out, which fails.
const WRITTEN: &[(Step, Answer)] = &[
    (Begin, Done),
    (RENEW, Done),
    (Commit, Done),
    (Seal, Done),
    (Page, Done),
    (Sync, Done),
    (RECORD_OUT, Fault),
];

const AGAIN: &[(Step, Answer)] = &[
    (Begin, Done),
    (RENEW, Done),
    (Commit, Done),
    (Seal, Done),
    (Page, Done),
    (Sync, Done),
    (RECORD_OUT, Fault),
    (Sync, Done),
    (RECORD_OUT, Done),
    (RECORD_OUT, Barred),
];

static OUTS: [Row; 6] = [
    Row {
        steps: WRITTEN,
        failing: &[8],
        tearing: 0,
        counts: (1, 1),
        seen: &[NEW],
    },
    Row {
        steps: WRITTEN,
        failing: &[8],
        tearing: 1,
        counts: (1, 1),
        seen: &[NEW],
    },
    Row {
        steps: WRITTEN,
        failing: &[8],
        tearing: 2,
        counts: (1, 1),
        seen: &[NEW],
    },
    Row {
        steps: AGAIN,
        failing: &[8],
        tearing: 0,
        counts: (1, 1),
        seen: &[NEW],
    },
    Row {
        steps: AGAIN,
        failing: &[8],
        tearing: 1,
        counts: (1, 1),
        seen: &[NEW],
    },
    Row {
        steps: AGAIN,
        failing: &[8],
        tearing: 2,
        counts: (1, 1),
        seen: &[NEW],
    },
];

#[test]
fn a_write_out_that_is_cut_leaves_a_whole_record(rt: HostRuntime) -> Result<(), Fail> {
    for (number, row) in OUTS.iter().enumerate() {
        let wrong = first_wrong(rt.alloc(), 16, row, &RECORDS)?;
        assert!(rt; wrong.is_none(), "row {number}: {wrong:?}");
    }
    Ok(())
}
