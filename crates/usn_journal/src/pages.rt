//! The pages of the journal from a position on.
ghost use Rattle.std.specs.Prelude.{◌≡◌, ◌+◌, ◌-◌, ◌*◌, ◌/◌, ◌^◌, ◌<◌, ◌≤◌, ◌++◌, Vec, min, length, take, All, IfOk, OnOk, IfSome, IsOk, Ok};
ghost use Rattle.host_base.specs.Answers.{GivesOrFails};
ghost use Rattle.file_tree.specs.declared.journal.Usn.{Usn as UsnOf};
ghost use Rattle.journal_model.specs.Journals.{page_entries};
ghost use Rattle.record_rules.specs.state_model.Streams.{byte_at};
ghost use Rattle.block_view.specs.Views.{AsksView};
ghost use Rattle.volume_state.specs.Journals.{journal_first, journal_entries};
ghost use Rattle.usn_journal.specs.PullErrors.{whole_cause, page_cause};
ghost use Rattle.usn_journal.specs.Pulls.{usn_end, from_on, read_entries};

use crate::pull_fault::PageFault;
use block_view::View;
use disk_model::Body;
use file_tree::{Usn, UsnList};
use std::alloc::{AllocError, Global};
use usn_record::read_page;
use volume_map::{ClusterSize, Extents, fill};

// The bytes of a page of the journal.
const PAGE: u64 = 4096;

// Reads the records of the page with this number, from the journal's first byte on; `page` is room
// for its bytes.
fn read_bytes<V: View>(
    alloc: Global,
    view: &mut V,
    per: ClusterSize,
    extents: &Extents,
    first: u64,
    number: u64,
    body: &mut Body,
    page: &mut [u8],
) -> Result<UsnList, PageFault>
    requires begun { first < PAGE * number + PAGE }
    requires left { first ≤ extents.now.real }
    requires inside { PAGE * number < extents.now.real }
    requires room { extents.now.real + 8192 < 2 ^ 64 }
    requires size { length page.old ≡ min extents.now.real (PAGE * number + PAGE) - PAGE * number }
    ensures value { IfSome (V.content view.old) (λ c. GivesOrFails (λ entries. entries) page_cause result (page_entries (byte_at c per extents.now) first extents.now.real number)) }
    ensures ends { IfOk result (λ entries. All (λ (entry : UsnOf). usn_end entry ≤ PAGE * number + PAGE) entries) }
    ensures kept { AsksView V.content V.kept V.faults page_cause view.old view.new result }
{
    let begin = PAGE * number;
    fill(view, per, extents, begin, body, page)?;
    Ok(read_page(alloc, page, first.max(begin))?)
}

// The same; `room` is room for a page.
fn read_number<V: View>(
    alloc: Global,
    view: &mut V,
    per: ClusterSize,
    extents: &Extents,
    first: u64,
    number: u64,
    body: &mut Body,
    room: &mut [u8],
) -> Result<UsnList, PageFault>
    requires begun { first < PAGE * number + PAGE }
    requires left { first ≤ extents.now.real }
    requires inside { PAGE * number < extents.now.real }
    requires room { extents.now.real + 8192 < 2 ^ 64 }
    requires size { length room.old ≡ PAGE }
    ensures value { IfSome (V.content view.old) (λ c. GivesOrFails (λ entries. entries) page_cause result (page_entries (byte_at c per extents.now) first extents.now.real number)) }
    ensures ends { IfOk result (λ entries. All (λ (entry : UsnOf). usn_end entry ≤ PAGE * number + PAGE) entries) }
    ensures kept { AsksView V.content V.kept V.faults page_cause view.old view.new result }
{
    let count = (extents.real - PAGE * number).min(PAGE) as usize;
    read_bytes(
        alloc,
        view,
        per,
        extents,
        first,
        number,
        body,
        &mut room[..count],
    )
}

// Copies of the entries that begin at a position or after it, after those that were found.
fn keep(found: &mut Vec<Usn>, entries: &[Usn], from: u64) -> Result<(), AllocError>
    ensures { OnOk result (found.new.items ≡ found.old.items ++ from_on from entries.now) }
{
    for entry in entries {
        if entry.usn >= from {
            found.push(entry.clone()?)?;
        }
    }
    Ok(())
}

// At most so many of what was found.
fn front(mut found: Vec<Usn>, most: u32) -> Vec<Usn>
    ensures { result.items ≡ take most found.items }
{
    found.truncate(most as usize);
    found
}

/// The records of a journal that begins at its byte `first` from a position in it on, at most so
/// many; `room` is room for a page.
pub fn read_pages<V: View>(
    alloc: Global,
    view: &mut V,
    per: ClusterSize,
    extents: &Extents,
    first: u64,
    from: u64,
    most: u32,
    body: &mut Body,
    room: &mut [u8],
) -> Result<Vec<Usn>, PageFault>
    requires first { first ≡ journal_first per extents.now }
    requires begun { first ≤ from }
    requires left { from ≤ extents.now.real }
    requires room { extents.now.real + 8192 < 2 ^ 64 }
    requires size { length room.old ≡ PAGE }
    requires whole { IfSome (V.content view.old) (λ c. IsOk (journal_entries c per extents.now)) }
    ensures value { IfSome (V.content view.old) (λ c. GivesOrFails (λ (v : Vec UsnOf Global). v.items) whole_cause result (Ok (take most (from_on from (read_entries (journal_entries c per extents.now)))))) }
    ensures ends { IfOk result (λ found. All (λ (entry : UsnOf). usn_end entry < 2 ^ 64) found.items) }
    ensures kept { AsksView V.content V.kept V.faults page_cause view.old view.new result }
{
    let end = (extents.real + (PAGE - 1)) / PAGE;
    let mut found = Vec::new(alloc);
    for number in from / PAGE..end {
        if found.len() >= most as usize {
            return Ok(front(found, most));
        }
        let entries = read_number(alloc, view, per, extents, first, number, body, room)?;
        keep(&mut found, entries.as_slice(), from)?;
    }
    Ok(front(found, most))
}
