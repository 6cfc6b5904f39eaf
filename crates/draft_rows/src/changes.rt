//! The changes that a draft comes to.
ghost use Rattle.std.specs.Prelude.{◌≡◌};

use block_view::{Held, MemoryView, ViewFault};
use disk_model::{Block, BlockKind, Body, Change};
use host_base::Bytes;
use plan_draft::Draft;
use std::alloc::{AllocError, Global};
use std::test::Fail;

// A byte that is put into a sector, so many times from a place on.
struct Part {
    sector: u64,
    fresh: bool,
    offset: u16,
    byte: u8,
    count: u16,
}

// The sector of a change, its place in it, how many bytes it has, and its first new byte.
pub type Told = (u64, u32, usize, Option<u8>);

pub fn told(alloc: Global, changes: &[Change]) -> Result<Vec<Told>, AllocError> {
    let mut all = Vec::new(alloc);
    for change in changes {
        let new = change.new.as_slice();
        all.push((
            change.block.first,
            change.offset,
            new.len(),
            new.first().copied(),
        ))?;
    }
    Ok(all)
}

// A view in which sector 10 has sevens, and all others zeros.
fn sevens(alloc: Global) -> Result<MemoryView, AllocError> {
    let mut held = Vec::new(alloc);
    held.push(Held {
        block: plain(10),
        bytes: Bytes::from(vec![in alloc; 7u8; 512]?),
        torn: false,
    })?;
    Ok(MemoryView::new(held, Vec::new(alloc)))
}

fn plain(first: u64) -> Block
    ensures { result.kind ≡ BlockKind.Plain }
{
    Block {
        first,
        kind: BlockKind::Plain,
    }
}

// Puts the part, if it lies inside its sector.
fn put(alloc: Global, draft: &mut Draft<'_, MemoryView>, part: &Part) -> Result<(), ViewFault> {
    let bytes = vec![in alloc; part.byte; part.count as usize]?;
    let offset = part.offset as usize;
    if bytes.len() <= 512 && offset <= 512 - bytes.len() {
        draft.put_part(alloc, plain(part.sector), part.fresh, offset, &bytes)?;
    }
    Ok(())
}

// What a draft over the sevens comes to.
fn drafted(alloc: Global, parts: &[Part]) -> Result<Vec<Told>, ViewFault> {
    let mut view = sevens(alloc)?;
    let mut draft = Draft::new(alloc, Body::empty(alloc)?, &mut view);
    for part in parts {
        put(alloc, &mut draft, part)?;
    }
    let changes = draft.finish(alloc)?;
    Ok(told(alloc, &changes)?)
}

static CASES: [(&[Part], &[Told]); 7] = [
    (&[], &[]),
    (
        &[Part {
            sector: 10,
            fresh: false,
            offset: 100,
            byte: 7,
            count: 50,
        }],
        &[],
    ),
    (
        &[Part {
            sector: 10,
            fresh: false,
            offset: 100,
            byte: 9,
            count: 50,
        }],
        &[(10, 100, 50, Some(9))],
    ),
    (
        &[Part {
            sector: 11,
            fresh: true,
            offset: 5,
            byte: 1,
            count: 1,
        }],
        &[(11, 0, 512, Some(0))],
    ),
    (
        &[
            Part {
                sector: 11,
                fresh: false,
                offset: 5,
                byte: 1,
                count: 1,
            },
            Part {
                sector: 10,
                fresh: false,
                offset: 0,
                byte: 2,
                count: 1,
            },
            Part {
                sector: 11,
                fresh: false,
                offset: 9,
                byte: 3,
                count: 1,
            },
        ],
        &[(10, 0, 1, Some(2)), (11, 5, 5, Some(1))],
    ),
    (
        &[
            Part {
                sector: 10,
                fresh: false,
                offset: 3,
                byte: 9,
                count: 1,
            },
            Part {
                sector: 10,
                fresh: false,
                offset: 3,
                byte: 7,
                count: 1,
            },
        ],
        &[],
    ),
    (
        &[
            Part {
                sector: 11,
                fresh: false,
                offset: 5,
                byte: 1,
                count: 1,
            },
            Part {
                sector: 11,
                fresh: true,
                offset: 6,
                byte: 1,
                count: 1,
            },
        ],
        &[(11, 0, 512, Some(0))],
    ),
];

#[test]
fn changes_are_ranges_or_whole_bodies(rt: HostRuntime) -> Result<(), Fail> {
    for (parts, want) in &CASES {
        let changes = drafted(rt.alloc(), parts)?;
        assert_eq!(rt; changes.as_slice(), *want);
    }
    Ok(())
}
