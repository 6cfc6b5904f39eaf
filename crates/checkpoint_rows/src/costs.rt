//! The calls of the device that commits cost.
use block_view::ViewFault;
use std::alloc::{AllocError, Global};
use std::test::Fail;
use store_images::{Run, commit_byte, disk, go_on, spare};

/// The pages of the log.
const PAGES: u32 = 40;

/// Commits a hundred sectors, and takes the next steps down to none; whether all went well.
fn goes_well(alloc: Global, run: &mut Run) -> Result<bool, AllocError> {
    for number in 0..100 {
        if !commit_byte(alloc, run, spare(number), 512, 0x22)? {
            return Ok(false);
        }
    }
    Ok(go_on(run, 1000).is_some())
}

/// Makes so many rounds; whether all went well.
fn all_well(alloc: Global, run: &mut Run, rounds: u64) -> Result<bool, AllocError> {
    for _ in 0..rounds {
        if !goes_well(alloc, run)? {
            return Ok(false);
        }
    }
    Ok(true)
}

/// The reads, writes and syncs of so many rounds; none where its store isn't opened, or one of them
/// doesn't go well.
fn calls(alloc: Global, rounds: u64) -> Result<Option<(u64, u64, u64)>, ViewFault> {
    let Some(mut run) = Run::open(alloc, PAGES, disk(alloc, &[], 0)?)? else {
        return Ok(None);
    };
    if !all_well(alloc, &mut run, rounds)? {
        return Ok(None);
    }
    let device = run.memory();
    let (writes, syncs) = (device.writes, device.syncs);
    let reads = device.calls.saturating_sub(writes).saturating_sub(syncs);
    Ok(Some((reads, writes, syncs)))
}

/// Rounds of a hundred commits, and their reads, writes and syncs. The opening takes one of each. A
/// round reads and writes the place of each of its 34 pages and of a restart page, reads and writes
/// each sector, and syncs five times.
static ROWS: [(u64, u64, u64, u64); 3] = [
    (1, 136, 136, 6),
    (10, 1351, 1351, 51),
    (100, 13_501, 13_501, 501),
];

#[test]
fn commits_cost_so_many_calls(rt: HostRuntime) -> Result<(), Fail> {
    for (rounds, reads, writes, syncs) in &ROWS {
        let found = calls(rt.alloc(), *rounds)?;
        assert_eq!(rt; found, Some((*reads, *writes, *syncs)), "{rounds}");
    }
    Ok(())
}
