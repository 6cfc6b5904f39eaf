//! Logs of sixteen pages that were made by hand, on the device of the harness.
ghost use Rattle.std.specs.Prelude.{◌≡◌, IfOk, IsTrue};
ghost use Rattle.log_model.specs.Entries.{FitsAct};

use crate::logs::Change::{Commit, Fill, Sign};
use disk_model::{Block, BlockKind};
use host_base::Bytes;
use log_images::{EntryPage, own, restart_page};
use log_page::Restart;
use log_record::Act;
use std::alloc::{AllocError, Global};
use std::process::Abort;
use std::test::Fail;
use store_images::{LOG, S0, SECTORS, X, bytes_at, disk};

/// The LSN of the first entry of page 4 in lap 1 of a log of sixteen pages, and how many LSNs a lap
/// is ahead of the one before.
pub const FIRST: u64 = LAP + 2056;

pub const LAP: u64 = 1 << 14;

/// What is appended to a log.
#[derive(Clone, Copy, Debug)]
pub enum Change {
    /// So many bytes of a block from this one on become this one, in the place of that one.
    Fill(Block, u16, usize, u8, u8),
    /// All bytes of a file record become this one in the place of that one, but for the head of a
    /// record whose array doesn't have zeros then.
    Sign(Block, u8, u8),
    /// The end of the transaction.
    Commit,
}

/// The number of a transaction, and what is appended of it.
pub type Step = (u32, Change);

/// A log by the entries of its pages, what stands in the first sector of the harness, and whether
/// its index block is torn.
#[derive(Clone, Copy, Debug)]
pub struct Log {
    pub pages: &'static [&'static [Step]],
    pub stands: u8,
    pub torn: bool,
}

/// The restart page of an own log that is in use, from its first entry on.
pub fn restart() -> Restart
    ensures major { result.major ≡ 1 }
    ensures minor { result.minor ≡ 1 }
    ensures own { IsTrue result.own }
{
    let mut restart = own();
    restart.current = FIRST;
    restart.oldest = FIRST;
    restart.bytes = 65_536;
    restart
}

/// The number of a kind in an entry.
fn number_of(kind: BlockKind) -> u16 {
    match kind {
        BlockKind::Plain => 0,
        BlockKind::FileRec => 1,
        BlockKind::Index => 2,
    }
}

/// The act that brings these bytes into a block from this one on, in the place of those.
fn update<R: Abort>(rt: &R, block: Block, at: u16, redo: Vec<u8>, undo: Vec<u8>) -> Act
    ensures { FitsAct result }
{
    let (first, kind) = (block.first, number_of(block.kind));
    assert!(rt; first % 8 == 0 || kind == 0 || (kind == 1 && first % 2 == 0));
    assert!(rt; kind <= 2 && first <= 1 << 32);
    assert!(rt; !redo.is_empty() && redo.len() <= 1900 && undo.len() == redo.len());
    Act::Update {
        first,
        kind,
        at,
        redo: Bytes::from(redo),
        undo: Bytes::from(undo),
    }
}

/// The act of a change.
fn act_of<R: Abort + AllocGlobal>(rt: &R, change: Change) -> Result<Act, AllocError>
    ensures { IfOk result FitsAct }
{
    let alloc = rt.alloc();
    match change {
        Fill(block, at, count, redo, undo) => {
            let redo = vec![in alloc; redo; count]?;
            let undo = vec![in alloc; undo; count]?;
            Ok(update(rt, block, at, redo, undo))
        }
        Sign(block, redo, undo) => {
            let mut redo = vec![in alloc; redo; 1024]?;
            let undo = vec![in alloc; undo; 1024]?;
            lay(&mut redo, 0, b"FILE\x30\0\x03\0");
            Ok(update(rt, block, 0, redo, undo))
        }
        Commit => Ok(Act::Commit),
    }
}

/// The bytes of a record page whose first entry has this LSN, with these entries.
pub fn page_of<R: Abort + AllocGlobal>(
    rt: &R,
    first: u64,
    steps: &[Step],
) -> Result<Vec<u8>, Fail> {
    let mut page = EntryPage::new(rt.alloc(), first);
    for (tx, change) in steps {
        let act = act_of(rt, *change)?;
        assert!(rt; 1 <= *tx);
        page.append(*tx, act)?;
    }
    Ok(page.bytes(rt.alloc())?)
}

/// Puts bytes over those of an image from this sector on.
pub fn lay(image: &mut [u8], sector: u64, bytes: &[u8]) {
    let at = (sector as usize).saturating_mul(512);
    for (cell, byte) in image.iter_mut().skip(at).zip(bytes) {
        *cell = *byte;
    }
}

/// The bytes of the harness's device. The error is want of memory.
pub fn base(alloc: Global) -> Result<Vec<u8>, AllocError> {
    bytes_at(alloc, &disk(alloc, &[], 0)?, 0, SECTORS)
}

/// An image of the harness's device with a log that has this restart page in its first place.
pub fn image_with(
    alloc: Global,
    restart: &Restart,
    words: &[(usize, u16)],
) -> Result<Vec<u8>, AllocError>
    requires major { restart.now.major ≡ 1 }
    requires minor { restart.now.minor ≡ 1 }
    requires own { IsTrue restart.now.own }
{
    let mut image = base(alloc)?;
    lay(&mut image, LOG, &vec![in alloc; 0u8; 65_536]?);
    lay(&mut image, LOG, &restart_page(alloc, restart, words)?);
    Ok(image)
}

/// An image of the harness's device with this log.
pub fn image_of<R: Abort + AllocGlobal>(rt: &R, log: &Log) -> Result<Vec<u8>, Fail> {
    let alloc = rt.alloc();
    let mut image = image_with(alloc, &restart(), &[])?;
    let (mut sector, mut first) = (LOG + 32, FIRST);
    for steps in log.pages {
        lay(&mut image, sector, &page_of(rt, first, steps)?);
        sector = sector.saturating_add(8);
        first = first.saturating_add(512);
    }
    lay(&mut image, S0.first, &[log.stands; 512]);
    if log.torn {
        lay(&mut image, X.first + 1, &[0x99; 512]);
    }
    Ok(image)
}
