//! Small logs, and what is appended to them.
ghost use Rattle.std.specs.Prelude.{IfOk};
ghost use Rattle.log_model.specs.Entries.{FitsAct};

use host_base::{Bytes, Memory};
use log_area::{Entry, LogArea, LogPlace, NoRoom};
use log_page::{Extent, LogRuns};
use log_reading::is_ring_place;
use log_record::Act;
use std::alloc::{AllocError, Global};

/// What is done with a ring in memory.
#[derive(Clone, Copy, Debug)]
pub enum Step {
    /// An update of so many bytes.
    Update(usize),
    Commit,
    Seal,
}

/// A log of so many pages that begins on the first sector of a device; at most 2^32.
fn place(alloc: Global, pages: u32) -> Result<LogPlace, AllocError> {
    let pages = u64::from(pages);
    let mut runs = Vec::new(alloc);
    runs.push(Extent {
        first: 0,
        sectors: 8 * pages,
    })?;
    Ok(LogPlace {
        runs: LogRuns::from(runs),
        initialised: 4096 * pages,
        pages,
        clusters: pages,
        device: 8 * pages,
    })
}

/// The ring of a log of so many pages in this lap, at most 3; none where it has no pages.
pub fn ring(alloc: Global, pages: u32, lap: u64) -> Result<Option<LogArea>, Memory> {
    let place = place(alloc, pages)?;
    if !is_ring_place(alloc, &place)? || lap < 1 || 3 < lap {
        return Ok(None);
    }
    Ok(Some(LogArea::start(alloc, &place, lap, 0, 1)?))
}

/// An update of so many bytes of a sector; a commit where there are none, or too many.
fn act(alloc: Global, size: usize) -> Result<Act, AllocError>
    ensures { IfOk result FitsAct }
{
    if size < 1 || 1900 < size {
        return Ok(Act::Commit);
    }
    Ok(Act::Update {
        first: 100,
        kind: 0,
        at: 0,
        redo: Bytes::from(vec![in alloc; 0x22u8; size]?),
        undo: Bytes::from(vec![in alloc; 0x11u8; size]?),
    })
}

/// Appends an entry where it goes next.
fn append(area: &mut LogArea, act: Act) -> Result<(), NoRoom>
    requires { FitsAct act }
{
    let mut entry = Entry {
        lsn: 0,
        previous: 0,
        tx: 7,
        act,
    };
    let bytes = entry.size() as u64;
    if bytes <= 4032 && area.has_lap(bytes) {
        entry.lsn = area.next(bytes);
        area.append(&entry)?;
    }
    Ok(())
}

/// Makes a step. The error of the first one that finds no room comes as a value.
pub fn is_made(
    alloc: Global,
    area: &mut LogArea,
    step: Step,
) -> Result<Option<NoRoom>, AllocError> {
    let size = match step {
        Step::Update(size) => size,
        Step::Commit => 0,
        Step::Seal => {
            area.seal();
            return Ok(None);
        }
    };
    let act = act(alloc, size)?;
    Ok(append(area, act).err())
}

/// Makes the steps up to the first one that finds no room.
pub fn make(
    alloc: Global,
    area: &mut LogArea,
    steps: &[Step],
) -> Result<Option<NoRoom>, AllocError> {
    for step in steps {
        if let Some(fault) = is_made(alloc, area, *step)? {
            return Ok(Some(fault));
        }
    }
    Ok(None)
}
