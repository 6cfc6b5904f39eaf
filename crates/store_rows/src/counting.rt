//! Pages that changes take, as they are told before and as they are used.
use block_view::ViewFault;
use disk_model::{Block, Change};
use host_base::Bytes;
use std::alloc::{AllocError, Global};
use std::test::Fail;
use store_images::{Run, S0, commit_byte, disk, spare};

/// The pages of the log.
const PAGES: u32 = 40;

/// A change of so many bytes of a sector, from the first one on.
fn change(alloc: Global, block: Block, bytes: usize) -> Result<Change, AllocError> {
    let new = vec![in alloc; 0x22u8; bytes.min(512)]?;
    Ok(Change {
        block,
        offset: 0,
        old: Bytes::copy_of(alloc, &[])?,
        new: Bytes::from(new),
    })
}

/// Changes of so many sectors.
fn changes(alloc: Global, count: u64, bytes: usize) -> Result<Vec<Change>, AllocError> {
    let mut changes = Vec::new(alloc);
    for number in 0..count {
        changes.push(change(alloc, spare(number), bytes)?)?;
    }
    Ok(changes)
}

/// The pages that are told of the changes of so many sectors.
fn told(alloc: Global, run: &Run, count: u64, bytes: usize) -> Result<Option<u64>, AllocError> {
    let changes = changes(alloc, count, bytes)?;
    run.pages_for(alloc, &changes)
}

/// Changes each of so many sectors in a transaction of its own; whether each was committed.
fn are_committed(
    alloc: Global,
    run: &mut Run,
    count: u64,
    bytes: usize,
) -> Result<bool, AllocError> {
    for number in 0..count {
        if !commit_byte(alloc, run, spare(number), bytes, 0x22)? {
            return Ok(false);
        }
    }
    Ok(true)
}

/// The pages that are used by so many transactions; none where one of them isn't made.
fn used(alloc: Global, run: &mut Run, count: u64, bytes: usize) -> Result<Option<u64>, AllocError> {
    let room = run.state().log().room();
    if !are_committed(alloc, run, count, bytes)? {
        return Ok(None);
    }
    Ok(Some(room.saturating_sub(run.state().log().room())))
}

/// The pages that are told of the changes of so many sectors, and those that are used by as many
/// transactions; none where one of them isn't made.
fn pages(
    alloc: Global,
    count: u64,
    bytes: usize,
) -> Result<Option<(Option<u64>, Option<u64>)>, ViewFault> {
    let Some(mut run) = Run::open(alloc, PAGES, disk(alloc, &[], 0)?)? else {
        return Ok(None);
    };
    let told = told(alloc, &run, count, bytes)?;
    let used = used(alloc, &mut run, count, bytes)?;
    Ok(Some((told, used)))
}

/// So many sectors, the bytes of each that change, the pages that are told of all in one
/// transaction, and those that as many transactions use. A sector is logged whole, in 1,112 bytes,
/// and a commit in 88: three of both go into the 4,032 bytes of a page.
struct Row(u64, usize, u64, u64);

static ROWS: [Row; 6] = [
    Row(0, 512, 1, 0),
    Row(1, 512, 1, 1),
    Row(3, 512, 1, 1),
    Row(4, 512, 2, 2),
    Row(100, 512, 34, 34),
    Row(100, 1, 34, 34),
];

#[test]
fn pages_are_told_and_used(rt: HostRuntime) -> Result<(), Fail> {
    for Row(count, bytes, told, used) in &ROWS {
        let found = pages(rt.alloc(), *count, *bytes)?;
        assert_eq!(rt; found, Some((Some(*told), Some(*used))), "{count} {bytes}");
    }
    Ok(())
}

/// Changes of the same sector one behind the other, and the pages that are told: whole once, and a
/// byte after that, in 104 bytes.
static AGAIN: [(u64, u64); 4] = [(1, 1), (2, 1), (28, 1), (29, 2)];

/// The pages that are told of so many changes of one byte of one sector.
fn told_again(alloc: Global, count: u64) -> Result<Option<u64>, ViewFault> {
    let Some(run) = Run::open(alloc, PAGES, disk(alloc, &[], 0)?)? else {
        return Ok(None);
    };
    let mut all = changes(alloc, count, 1)?;
    for change in all.iter_mut() {
        change.block = S0;
    }
    Ok(run.pages_for(alloc, &all)?)
}

#[test]
fn a_sector_is_logged_whole_once(rt: HostRuntime) -> Result<(), Fail> {
    for (count, pages) in &AGAIN {
        let told = told_again(rt.alloc(), *count)?;
        assert_eq!(rt; told, Some(*pages), "{count}");
    }
    Ok(())
}
