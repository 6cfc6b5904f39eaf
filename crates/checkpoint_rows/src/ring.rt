//! A ring that is full and is freed again, and one that goes round.
use block_view::ViewFault;
use disk_model::Change;
use host_base::Bytes;
use log_page::lap_of;
use log_recovery::RecoveryFault;
use std::alloc::{AllocError, Global};
use std::test::Fail;
use store_images::{Answer, Run, S0, Watch, byte_behind, commit_byte, disk, go_on, is_sound};

/// Commits a sector, up to so many times and while that may be done, and gives up what may not be
/// committed; how many commits there were.
fn filled(alloc: Global, run: &mut Run, most: u64) -> Result<u64, AllocError> {
    for number in 0..most {
        let byte = byte_behind(number.saturating_add(1));
        if !commit_byte(alloc, run, S0, 512, byte)? {
            run.give_up();
            return Ok(number);
        }
    }
    Ok(most)
}

/// The pages that one more commit takes.
fn pages_more(alloc: Global, run: &Run) -> Result<Option<u64>, AllocError> {
    let new = vec![in alloc; 0x22u8; 512]?;
    let change = Change {
        block: S0,
        offset: 0,
        old: Bytes::copy_of(alloc, &[])?,
        new: Bytes::from(new),
    };
    run.pages_for(alloc, &[change])
}

/// What a ring comes to: the commits that fill it, the pages that are free then and those that one
/// more takes, and the pages that are free once no step is left.
type Outcome = (u64, u64, Option<u64>, u64);

/// By a log of so many pages; none where its store isn't opened, or a step fails.
fn full_ring(alloc: Global, pages: u32) -> Result<Option<Outcome>, ViewFault> {
    let Some(mut run) = Run::open(alloc, pages, disk(alloc, &[], 0)?)? else {
        return Ok(None);
    };
    let commits = filled(alloc, &mut run, 200)?;
    let room = run.state().log().room();
    let more = pages_more(alloc, &run)?;
    if go_on(&mut run, 1000).is_none() {
        return Ok(None);
    }
    Ok(Some((commits, room, more, run.state().log().room())))
}

/// The pages of a log, of which all but four are the ring's, and the commits of a sector that fill
/// it, three a page.
static ROWS: [(u32, u64); 4] = [(5, 3), (6, 6), (20, 48), (40, 108)];

#[test]
fn a_ring_that_is_full_is_freed(rt: HostRuntime) -> Result<(), Fail> {
    for (pages, commits) in &ROWS {
        let wanted = (*commits, 0, Some(1), u64::from(pages.saturating_sub(4)));
        assert_eq!(rt; full_ring(rt.alloc(), *pages)?, Some(wanted), "{pages}");
    }
    Ok(())
}

/// The pages of the log that goes round, of which 16 are the ring's.
const PAGES: u32 = 20;

/// So many images are tried by a seed at each place.
const IMAGES: u64 = 34;

const WATCHED: [Watch; 1] = [Watch(S0, 0, 512)];

/// Makes a transaction, where there is room for it.
fn go_round(alloc: Global, run: &mut Run) -> Result<(), AllocError> {
    let byte = byte_behind(run.state().commits().saturating_add(1));
    if !commit_byte(alloc, run, S0, 512, byte)? {
        run.give_up();
    }
    Ok(())
}

/// Makes a transaction and then a step; whether images recover behind it.
fn goes_well(alloc: Global, run: &mut Run) -> Result<bool, RecoveryFault> {
    go_round(alloc, run)?;
    match run.turn() {
        Some((_, Answer::Done)) => is_sound(alloc, PAGES, run, IMAGES, &WATCHED),
        _ => Ok(false),
    }
}

/// How many transactions are tried, with a step behind each, until the log is in this lap; none
/// where an image doesn't recover.
fn rounds_to(alloc: Global, run: &mut Run, lap: u64) -> Result<Option<u64>, RecoveryFault> {
    for round in 0..1000 {
        if lap_of(u64::from(PAGES), run.facts().next) == lap {
            return Ok(Some(round));
        }
        if !goes_well(alloc, run)? {
            return Ok(None);
        }
    }
    Ok(None)
}

/// The same on a new store.
fn rounds(alloc: Global, lap: u64) -> Result<Option<u64>, RecoveryFault> {
    let Some(mut run) = Run::open(alloc, PAGES, disk(alloc, &[], 0)?)? else {
        return Ok(None);
    };
    rounds_to(alloc, &mut run, lap)
}

#[test]
fn images_recover_while_a_ring_goes_round(rt: HostRuntime) -> Result<(), Fail> {
    let found = rounds(rt.alloc(), 3)?;
    assert!(rt; found.is_some());
    Ok(())
}
