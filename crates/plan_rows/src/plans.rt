//! Replies and changes of plans.
use crate::volume::{Asked, op, streams, view, volume};
use change_plan::{ChangePlan, NamedVolume, Names, PlanFault, Reply, Upcase, plan_change};
use std::alloc::Global;
use std::test::Fail;

// What is replied, as a word and a number, and how many blocks are changed.
type Told = (&'static str, u64, usize);

// How many of the 32 bytes of bits are set, an operation, and what comes of it.
struct Row(u8, Asked, Told);

// The data of the file `a` is `abcd`, which stands in the record.
static ROWS: [Row; 15] = [
    Row(4, Asked::Write(&["a"], 0, b"xy"), ("wrote", 2, 1)),
    Row(4, Asked::Write(&["a"], 9, b"xy"), ("wrote", 2, 1)),
    Row(4, Asked::Write(&["a"], 9, b""), ("wrote", 0, 0)),
    Row(4, Asked::Fill(&["a"], 2, 2), ("wrote", 2, 1)),
    Row(4, Asked::Fill(&["a"], 2, 0), ("wrote", 0, 0)),
    Row(4, Asked::Truncate(&["a"], 2), ("size", 2, 1)),
    Row(4, Asked::Truncate(&["a"], 4), ("size", 4, 0)),
    Row(4, Asked::Truncate(&["a"], 6), ("size", 6, 1)),
    // into one cluster: the record, the bits, and 8 sectors
    Row(4, Asked::Fill(&["a"], 0, 4096), ("wrote", 4096, 10)),
    Row(4, Asked::Write(&["b"], 0, b"x"), ("not-found", 1, 0)),
    Row(4, Asked::Write(&[], 0, b"x"), ("is-directory", 0, 0)),
    Row(4, Asked::Truncate(&["a/b"], 2), ("bad-name", 0, 0)),
    Row(4, Asked::Fill(&["a", "b"], 0, 1), ("not-directory", 1, 0)),
    Row(4, Asked::Fill(&["a"], 90_000, 1), ("too-long", 90_001, 0)),
    Row(32, Asked::Fill(&["a"], 0, 4096), ("no-space", 0, 0)),
];

fn said(reply: &Reply) -> (&'static str, u64) {
    match reply {
        Reply::Wrote { count } => ("wrote", *count),
        Reply::Size { size } => ("size", *size),
        Reply::BadName => ("bad-name", 0),
        Reply::NotFound { part } => ("not-found", *part),
        Reply::NotDirectory { part } => ("not-directory", *part),
        Reply::IsDirectory => ("is-directory", 0),
        Reply::TooLong { end } => ("too-long", *end),
        Reply::NoSpace { room, .. } => ("no-space", *room),
        _ => ("other", 0),
    }
}

fn told(plan: &ChangePlan) -> Told {
    let (word, number) = said(&plan.reply);
    (word, number, plan.changes.len())
}

// The plan of the operation, where the view's call with this number fails, and the view's calls.
fn planned(
    alloc: Global,
    row: &Row,
    failing: u64,
) -> Result<(Result<ChangePlan, PlanFault>, u64), Fail> {
    let map = volume(alloc, row.0)?;
    let names = Names::new(alloc, &map.files)?;
    let volume = NamedVolume::new(&map, &names);
    let up = Upcase::standard(alloc)?;
    let streams = streams(alloc)?;
    let op = op(alloc, &row.1)?;
    let mut view = view(alloc, failing)?;
    let plan = plan_change(alloc, &mut view, &volume, &up, &streams, &op, 9);
    Ok((plan, view.view.calls))
}

// The plan is the row's, and each of the view's calls that fails in turn is answered.
fn is_as_wanted(alloc: Global, row: &Row) -> Result<bool, Fail> {
    let (plan, calls) = planned(alloc, row, 0)?;
    for failing in 1..=calls.min(64) {
        let (failed, _) = planned(alloc, row, failing)?;
        if !matches!(failed, Err(PlanFault::Fault)) {
            return Ok(false);
        }
    }
    Ok(told(&plan?) == row.2)
}

#[test]
fn operations_are_planned(rt: HostRuntime) -> Result<(), Fail> {
    for (i, row) in ROWS.iter().enumerate() {
        assert!(rt; is_as_wanted(rt.alloc(), row)?, "row {i}");
    }
    Ok(())
}
