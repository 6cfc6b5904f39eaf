//! The pages of the journal.
ghost use Rattle.std.specs.Prelude.{◌≡◌, ◌+◌, ◌-◌, ◌*◌, ◌/◌, ◌^◌, ◌<◌, ◌≤◌, min, length, Ok, IfOk, IfSome};
ghost use Rattle.host_base.specs.Answers.{GivesOrFails};
ghost use Rattle.journal_model.specs.Journals.{page_entries, journal_from};
ghost use Rattle.record_rules.specs.state_model.Streams.{byte_at};
ghost use Rattle.block_view.specs.Views.{AsksView};
ghost use Rattle.volume_state.specs.Journals.{journal_first, journal_entries, journal_owned};
ghost use Rattle.usn_journal.specs.JournalErrors.{journal_cause};
ghost use Rattle.usn_journal.specs.Judging.{judged, owned_in};

use crate::journal_fault::JournalFault;
use block_view::View;
use disk_model::Body;
use std::alloc::{AllocError, Global};
use usn_record::{check_page, ends_in_record};
use volume_map::{ClusterSize, Extents, fill};

// The bytes of a page of the journal.
const PAGE: u64 = 4096;

// The most bytes of a journal whose pages are read.
const MOST_READ: u64 = u64::MAX - 8192;

fn page_room(alloc: Global) -> Result<Vec<u8>, AllocError>
    ensures { IfOk result (λ room. length room.items ≡ PAGE) }
{
    vec![in alloc; 0u8; PAGE as usize]
}

// Checks the records of the page with this number, from the journal's first byte on; `page` is room
// for its bytes.
fn check_bytes<V: View>(
    view: &mut V,
    per: ClusterSize,
    extents: &Extents,
    first: u64,
    number: u64,
    body: &mut Body,
    page: &mut [u8],
) -> Result<(), JournalFault>
    requires begun { first < PAGE * number + PAGE }
    requires left { first ≤ extents.now.real }
    requires inside { PAGE * number < extents.now.real }
    requires room { extents.now.real + 8192 < 2 ^ 64 }
    requires size { length page.old ≡ min extents.now.real (PAGE * number + PAGE) - PAGE * number }
    ensures value { IfSome (V.content view.old) (λ c. GivesOrFails (λ done. done) journal_cause result (judged (page_entries (byte_at c per extents.now) first extents.now.real number))) }
    ensures kept { AsksView V.content V.kept V.faults journal_cause view.old view.new result }
{
    let begin = PAGE * number;
    fill(view, per, extents, begin, body, page)?;
    check_page(page, first.max(begin))?;
    Ok(())
}

// The same; `room` is room for a page.
fn check_number<V: View>(
    view: &mut V,
    per: ClusterSize,
    extents: &Extents,
    first: u64,
    number: u64,
    body: &mut Body,
    room: &mut [u8],
) -> Result<(), JournalFault>
    requires begun { first < PAGE * number + PAGE }
    requires left { first ≤ extents.now.real }
    requires inside { PAGE * number < extents.now.real }
    requires room { extents.now.real + 8192 < 2 ^ 64 }
    requires size { length room.old ≡ PAGE }
    ensures value { IfSome (V.content view.old) (λ c. GivesOrFails (λ done. done) journal_cause result (judged (page_entries (byte_at c per extents.now) first extents.now.real number))) }
    ensures kept { AsksView V.content V.kept V.faults journal_cause view.old view.new result }
{
    let count = (extents.real - PAGE * number).min(PAGE) as usize;
    check_bytes(view, per, extents, first, number, body, &mut room[..count])
}

// Checks the records of all pages from the journal's first byte on; `room` is room for a page.
fn check_pages<V: View>(
    view: &mut V,
    per: ClusterSize,
    extents: &Extents,
    first: u64,
    body: &mut Body,
    room: &mut [u8],
) -> Result<(), JournalFault>
    requires left { first ≤ extents.now.real }
    requires room { extents.now.real + 8192 < 2 ^ 64 }
    requires size { length room.old ≡ PAGE }
    ensures value { IfSome (V.content view.old) (λ c. GivesOrFails (λ done. done) journal_cause result (judged (journal_from (byte_at c per extents.now) first extents.now.real (first / PAGE)))) }
    ensures kept { AsksView V.content V.kept V.faults journal_cause view.old view.new result }
{
    let end = (extents.real + (PAGE - 1)) / PAGE;
    for number in first / PAGE..end {
        check_number(view, per, extents, first, number, body, room)?;
    }
    Ok(())
}

// Whether a record owns the bytes before the journal's end in their page; `room` is room for a
// page.
#[tactic(auto, unfolding(volume_state::specs::Journals::journal_owned, journal_model::specs::Journals::is_owned, journal_model::specs::Journals::bytes_between))]
fn last_owned<V: View>(
    view: &mut V,
    per: ClusterSize,
    extents: &Extents,
    first: u64,
    body: &mut Body,
    room: &mut [u8],
) -> Result<bool, JournalFault>
    requires first { first ≡ journal_first per extents.now }
    requires left { first ≤ extents.now.real }
    requires room { extents.now.real + 8192 < 2 ^ 64 }
    requires size { length room.old ≡ PAGE }
    ensures value { IfSome (V.content view.old) (λ c. GivesOrFails (λ owned. owned) journal_cause result (Ok (journal_owned c per extents.now))) }
    ensures kept { AsksView V.content V.kept V.faults journal_cause view.old view.new result }
{
    let begin = first.max(PAGE * (extents.real / PAGE));
    let page = &mut room[..(extents.real - begin) as usize];
    fill(view, per, extents, begin, body, page)?;
    Ok(ends_in_record(page))
}

/// Checks the records of a journal that begins at its byte `first`, and answers whether a record of
/// any version owns the bytes before its end in their page. A volume has `per` sectors a cluster;
/// `body` is room for a body. It reads each byte once, from the page of `first` on to the real
/// size, those of the last page twice, and keeps one page: linear in those bytes.
///
/// - `Broken`: the record at this offset is the first at fault.
/// - `View`: the view failed.
/// - `Memory`: want of memory. It comes too where the real size is within 8,192 bytes of 2^64,
///   which no lawful sizes allow.
#[tactic(auto, unfolding(volume_state::specs::Journals::journal_entries, journal_model::specs::Journals::journal_in))]
pub fn check_entries<V: View>(
    alloc: Global,
    view: &mut V,
    per: ClusterSize,
    extents: &Extents,
    first: u64,
    body: &mut Body,
) -> Result<bool, JournalFault>
    requires first { first ≡ journal_first per extents.now }
    requires left { first ≤ extents.now.real }
    ensures value { IfSome (V.content view.old) (λ c. GivesOrFails (λ owned. owned) journal_cause result (owned_in c per extents.now)) }
    ensures kept { AsksView V.content V.kept V.faults journal_cause view.old view.new result }
{
    if extents.real >= MOST_READ {
        return Err(JournalFault::Memory);
    }
    let mut room = page_room(alloc)?;
    check_pages(view, per, extents, first, body, &mut room)?;
    last_owned(view, per, extents, first, body, &mut room)
}
