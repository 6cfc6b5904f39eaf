//! Pages of the log as lists of what is appended to them.
ghost use Rattle.std.specs.Prelude.{IfOk};
ghost use Rattle.log_model.specs.Entries.{FitsAct};

use host_base::Bytes;
use log_images::{EntryPage, record_update};
use log_record::Act;
use std::alloc::{AllocError, Global};
use std::process::Abort;
use std::test::Fail;

/// The number of a transaction, and what is appended of it.
pub type Step<'a> = (u32, Change<'a>);

/// What is appended to a page.
#[derive(Clone, Copy)]
pub enum Change<'a> {
    /// An update of this sector of plain bytes: all of these for all of those.
    Fill(u64, u8, u8),
    /// An update of the file record from this sector on: from this byte on these for those.
    Record(u64, u16, &'a [u8], &'a [u8]),
    /// The end of the transaction.
    Commit,
}

// An update of a sector of plain bytes.
fn filled(alloc: Global, first: u64, redo: u8, undo: u8) -> Result<Act, AllocError>
    ensures { IfOk result FitsAct }
{
    let redo = vec![in alloc; redo; 512]?;
    let undo = vec![in alloc; undo; 512]?;
    Ok(Act::Update {
        first,
        kind: 0,
        at: 0,
        redo: Bytes::from(redo),
        undo: Bytes::from(undo),
    })
}

// The act of a change.
fn act_of<R: Abort + AllocGlobal>(rt: &R, change: Change) -> Result<Act, AllocError>
    ensures { IfOk result FitsAct }
{
    match change {
        Change::Fill(first, redo, undo) => filled(rt.alloc(), first, redo, undo),
        Change::Record(first, at, redo, undo) => {
            assert!(rt; first % 2 == 0 && !redo.is_empty());
            assert!(rt; redo.len() <= 1900 && undo.len() == redo.len());
            record_update(rt.alloc(), first, at, redo, undo)
        }
        Change::Commit => Ok(Act::Commit),
    }
}

/// The bytes of a record page whose first entry has this LSN, with these entries.
pub fn page_of<R: Abort + AllocGlobal>(
    rt: &R,
    first: u64,
    steps: &[Step],
) -> Result<Vec<u8>, Fail> {
    let mut page = EntryPage::new(rt.alloc(), first);
    for (tx, change) in steps {
        let act = act_of(rt, *change)?;
        assert!(rt; 1 <= *tx);
        page.append(*tx, act)?;
    }
    Ok(page.bytes(rt.alloc())?)
}
