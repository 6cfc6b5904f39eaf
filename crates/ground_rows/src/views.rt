//! Views of blocks in memory, and views after a list of changes.
ghost use Rattle.std.specs.Prelude.{◌+◌, ◌*◌, ◌≤◌, All, IfOk};
ghost use Rattle.disk_model.specs.Sectors.{sectors};
ghost use Rattle.block_view.specs.Changes.{Fits};

use block_view::{Block, BlockKind, Body, Change, Held, MemoryView, Overlay, View, ViewFault};
use host_base::Bytes;
use std::alloc::{AllocError, Global};
use std::test::Fail;

const RECORD: Block = Block {
    first: 4,
    kind: BlockKind::FileRec,
};

const OTHER: Block = Block {
    first: 6,
    kind: BlockKind::Index,
};

/// `len` times this byte from `offset` on, for zeros.
fn change(
    alloc: Global,
    block: Block,
    offset: u32,
    byte: u8,
    len: usize,
) -> Result<Change, AllocError>
    requires { offset + len ≤ 512 * sectors block.kind }
    ensures { IfOk result Fits }
{
    let old = Bytes::from(vec![in alloc; 0u8; len]?);
    let new = Bytes::from(vec![in alloc; byte; len]?);
    Ok(Change {
        block,
        offset,
        old,
        new,
    })
}

/// A torn file record of sevens, and a view of it whose first call fails.
fn torn_record(alloc: Global) -> Result<MemoryView, AllocError> {
    let mut held = Vec::new(alloc);
    held.push(Held {
        block: RECORD,
        bytes: Bytes::from(vec![in alloc; 7u8; 1024]?),
        torn: true,
    })?;
    Ok(MemoryView::new(held, Vec::from_slice(alloc, &[1])?))
}

/// Whether a block is torn, how many bytes it has, and the one at this place.
type Told = (bool, usize, Option<u8>);

/// What the next call of a view tells.
fn told<V: View>(alloc: Global, view: &mut V, block: Block, at: usize) -> Result<Told, ViewFault> {
    let mut body = Body::empty(alloc)?;
    view.body(block, &mut body)?;
    let bytes = body.bytes();
    Ok((body.torn(), bytes.len(), bytes.get(at).copied()))
}

#[test]
fn a_view_fails_and_goes_on(rt: HostRuntime) -> Result<(), Fail> {
    let mut view = torn_record(rt.alloc())?;
    for (block, at, want) in [
        (RECORD, 1023, Err(ViewFault::Fault)),
        (RECORD, 1023, Ok((true, 1024, Some(7)))),
        (OTHER, 4095, Ok((false, 4096, Some(0)))),
    ] {
        assert_eq!(rt; told(rt.alloc(), &mut view, block, at), want, "{at}");
    }
    Ok(())
}

/// What a view of the torn record tells of it after these changes.
fn told_after(alloc: Global, changes: &[Change], at: usize) -> Result<Told, ViewFault>
    requires { All Fits changes.now }
{
    let mut view = torn_record(alloc)?;
    let _ = told(alloc, &mut view, RECORD, at);
    let mut after = Overlay {
        view: &mut view,
        changes,
    };
    told(alloc, &mut after, RECORD, at)
}

#[test]
fn an_overlay_gives_the_last_change(rt: HostRuntime) -> Result<(), Fail> {
    let first = change(rt.alloc(), RECORD, 0, 1, 600)?;
    let second = change(rt.alloc(), RECORD, 500, 2, 524)?;
    let changes = [first, second];
    for (at, want) in [(499, 1), (500, 2)] {
        let after = told_after(rt.alloc(), &changes, at)?;
        assert_eq!(rt; after, (false, 1024, Some(want)), "{at}");
    }
    Ok(())
}

#[test]
fn a_block_stays_torn_while_a_byte_is_not_covered(rt: HostRuntime) -> Result<(), Fail> {
    let changes = [change(rt.alloc(), RECORD, 0, 1, 1023)?];
    let after = told_after(rt.alloc(), &changes, 1023)?;
    assert_eq!(rt; after, (true, 1024, Some(7)));
    Ok(())
}
