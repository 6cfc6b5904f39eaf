ghost use Rattle.std.specs.Prelude.{◌≡◌, ◌+◌, ◌*◌, ◌^◌, ◌<◌, ◌≤◌, ◌⊎◌, length, All, IfOk, IfErr, IfSome, IsOk, Ok, Err};
ghost use Rattle.host_base.specs.Answers.{GivesOrFails};
ghost use Rattle.file_tree.specs.declared.journal.Usn.{Usn as UsnOf};
ghost use Rattle.block_view.specs.Views.{AsksView};
ghost use Rattle.volume_state.specs.Journals.{journal_first, journal_entries};
ghost use Rattle.usn_journal.specs.PullErrors.{whole_cause, page_cause, pull_cause, IsInside};
ghost use Rattle.usn_journal.specs.declared.pull_fault.PullRefusal.TheVariants.{Trimmed, Ahead};
ghost use Rattle.usn_journal.specs.Pulls.{usn_end, end_of, read_entries, pulled_in, pulled_of};

use crate::pages::read_pages;
use crate::pull_fault::{PageFault, PullFault, PullRefusal};
use crate::shape::first_byte;
use block_view::View;
use disk_model::Body;
use file_tree::{Usn, UsnList};
use std::alloc::{AllocError, Global};
use volume_map::{ClusterSize, Extents};

// The bytes of a page of the journal.
const PAGE: usize = 4096;

// The most bytes of a journal whose pages are read.
const MOST_READ: u64 = u64::MAX - 8192;

/// Records of a change journal, and where the last of them ends.
#[derive(Debug, Drop)]
pub struct Pulled {
    pub entries: UsnList,
    pub end: u64,
}

fn page_room(alloc: Global) -> Result<Vec<u8>, AllocError>
    ensures { IfOk result (λ room. length room.items ≡ PAGE) }
{
    vec![in alloc; 0u8; PAGE]
}

// Where a record ends.
fn usn_end(entry: &Usn) -> u64
    requires { usn_end entry.now < 2 ^ 64 }
    ensures { result ≡ usn_end entry.now }
{
    let bytes = 0x3c + 2 * entry.name.units().len() as u64;
    entry.usn + 8 * ((bytes + 7) / 8)
}

// Where the last of these records ends; this place where there is none.
fn end_of(next: u64, entries: &[Usn]) -> u64
    requires { All (λ (entry : UsnOf). usn_end entry < 2 ^ 64) entries.now }
    ensures { result ≡ end_of next entries.now }
{
    let mut end = next;
    for entry in entries {
        end = usn_end(entry);
    }
    end
}

/// At most `most` of the records of a whole journal, which begins at its byte `first`, from a
/// position in it on, and the place after the last of them, or the journal's next one: as
/// [`read_from`], of which this is the part behind the two tests of the position.
///
/// - [`PageFault::Broken`]: the view gives a record that is at fault, which no view does that is
///   known to hold whole records.
/// - [`PageFault::View`]: the view failed.
/// - [`PageFault::Memory`]: want of memory. It comes too where the real size of `$J` is within
///   8,192 bytes of 2^64, which no lawful sizes allow.
pub fn pull_inside<V: View>(
    alloc: Global,
    view: &mut V,
    per: ClusterSize,
    extents: &Extents,
    first: u64,
    from: u64,
    most: u32,
    body: &mut Body,
) -> Result<Pulled, PageFault>
    requires first { first ≡ journal_first per extents.now }
    requires begun { first ≤ from }
    requires left { from ≤ extents.now.real }
    requires whole { IfSome (V.content view.old) (λ c. IsOk (journal_entries c per extents.now)) }
    ensures value { IfSome (V.content view.old) (λ c. GivesOrFails (λ pulled. pulled) whole_cause result (Ok (pulled_in extents.now.real from most (read_entries (journal_entries c per extents.now))))) }
    ensures kept { AsksView V.content V.kept V.faults page_cause view.old view.new result }
{
    let next = extents.real;
    if next >= MOST_READ {
        return Err(PageFault::Memory);
    }
    let mut room = page_room(alloc)?;
    let found = read_pages(
        alloc, view, per, extents, first, from, most, body, &mut room,
    )?;
    let end = end_of(next, &found);
    Ok(Pulled {
        entries: UsnList::from(found),
        end,
    })
}

/// At most `most` of the records of a change journal that begin at its byte `from` or after it, in
/// order, and the place after the last of them; where there is none, the journal's next place
/// (Linux-NTFS documentation, "$UsnJrnl"; Microsoft's reference, "USN_RECORD_V2"). The journal is
/// `$J` in these clusters, and begins at its first cluster that isn't sparse, within its real size;
/// its records are whole. A volume has `per` sectors a cluster; `body` is room for a body.
///
/// - [`PullRefusal::Trimmed`]: exactly where `from` lies before the journal, which begins there.
/// - [`PullRefusal::Ahead`]: exactly where `from` lies after the journal's next place, which is
///   there.
/// - [`PullRefusal::Broken`]: the view gives a record that is at fault, which no view does that is
///   known to hold whole records.
/// - [`PullFault::View`]: the view failed.
/// - [`PullFault::Memory`]: want of memory. It comes too where the real size of `$J` is within
///   8,192 bytes of 2^64, which no lawful sizes allow.
///
/// It reads the pages from that of `from` on until it has `most` records, each once, and keeps one
/// of them: linear in their bytes, each of whose sectors takes one pass over the runs, and one pass
/// more.
#[tactic(auto, unfolding(crate::specs::Pulls::pulled_of))]
pub fn read_from<V: View>(
    alloc: Global,
    view: &mut V,
    per: ClusterSize,
    extents: &Extents,
    from: u64,
    most: u32,
    body: &mut Body,
) -> Result<Pulled, PullFault>
    requires left { journal_first per extents.now ≤ extents.now.real }
    requires whole { IfSome (V.content view.old) (λ c. IsOk (journal_entries c per extents.now)) }
    ensures value { IfSome (V.content view.old) (λ c. GivesOrFails (λ pulled. pulled) pull_cause result (pulled_of c per extents.now from most)) }
    ensures trimmed { from < journal_first per extents.now
        → result ≡ Err (PullFault.Refused (Trimmed (journal_first per extents.now))) }
    ensures ahead { extents.now.real < from → result ≡ Err (PullFault.Refused (Ahead extents.now.real)) }
    ensures unasked { from < journal_first per extents.now ⊎ extents.now.real < from → view.new ≡ view.old }
    ensures inside { journal_first per extents.now ≤ from → from ≤ extents.now.real → IfErr result IsInside }
    ensures kept { AsksView V.content V.kept V.faults pull_cause view.old view.new result }
{
    let next = extents.real;
    let first = first_byte(per, extents);
    if from < first {
        return Err(PullFault::Refused(PullRefusal::Trimmed { first }));
    }
    if next < from {
        return Err(PullFault::Refused(PullRefusal::Ahead { next }));
    }
    Ok(pull_inside(alloc, view, per, extents, first, from, most, body)?)
}
