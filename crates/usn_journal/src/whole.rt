//! The journal of a volume.
ghost use Rattle.std.specs.Prelude.{◌≡◌, ◌≤◌, ℕ, [], length, Some, IfSome};
ghost use Rattle.host_base.specs.Answers.{GivesOrFails};
ghost use Rattle.disk_model.specs.Content.{Content};
ghost use Rattle.record_rules.specs.state_model.Loads.{table_in};
ghost use Rattle.record_rules.specs.state_model.Trees.{all_links};
ghost use Rattle.volume_map.specs.Maps.{volume_in};
ghost use Rattle.block_view.specs.Views.{AsksView};
ghost use Rattle.volume_state.specs.Journals.{journal_first, journal_owned, journal_with, journal_of_streams, journal_of_file};
ghost use Rattle.volume_state.specs.Trees.{without_records};
ghost use Rattle.usn_journal.specs.JournalErrors.{journal_cause};
ghost use Rattle.usn_journal.specs.Judging.{bare, journal_in_place, bare_journal};

use crate::finding::{file_or_none, journal_number};
use crate::journal_fault::JournalFault;
use crate::judging::check_entries;
use crate::shape::{entries_of, first_byte, limits_of};
use block_view::View;
use disk_model::Body;
use file_tree::{Journal, Link, UsnList};
use std::alloc::Global;
use volume_map::{
    ClusterSize, DATA, Extents, FileRec, JournalMax, Stream, Upcase, VolumeMap, stream_flags,
    stream_of,
};

// `$Max`
pub const LIMITS_NAME: [u16; 4] = [0x24, 0x4d, 0x61, 0x78];

// `$J`
pub const ENTRIES_NAME: [u16; 2] = [0x24, 0x4a];

// The journal with these limits in these clusters, without records.
fn journal_with(
    alloc: Global,
    limits: JournalMax,
    extents: &Extents,
    first: u64,
    owned: bool,
) -> Journal
    ensures { (c : Content) (per : ℕ) → first ≡ journal_first per extents.now → owned ≡ journal_owned c per extents.now → result ≡ without_records (journal_with c per limits extents.now []) }
{
    Journal {
        max: limits.max,
        delta: limits.delta,
        first,
        next: extents.real,
        reach: extents.allocated,
        owned,
        entries: UsnList::new(alloc),
    }
}

// The same, once its records are checked.
fn placed_journal<V: View>(
    alloc: Global,
    view: &mut V,
    per: ClusterSize,
    limits: JournalMax,
    extents: &Extents,
    body: &mut Body,
) -> Result<Option<Journal>, JournalFault>
    requires left { journal_first per extents.now ≤ extents.now.real }
    ensures value { IfSome (V.content view.old) (λ c. GivesOrFails (λ journal. journal) journal_cause result (journal_in_place c per limits extents.now)) }
    ensures kept { AsksView V.content V.kept V.faults journal_cause view.old view.new result }
{
    let first = first_byte(per, extents);
    let owned = check_entries(alloc, view, per, extents, first, body)?;
    Ok(Some(journal_with(alloc, limits, extents, first, owned)))
}

// The journal of `$Max` and `$J`, which has these flags.
fn stream_journal<V: View>(
    alloc: Global,
    view: &mut V,
    per: ClusterSize,
    flags: u16,
    limits: &Stream,
    entries: &Stream,
    body: &mut Body,
) -> Result<Option<Journal>, JournalFault>
    ensures value { IfSome (V.content view.old) (λ c. GivesOrFails (λ journal. journal) journal_cause result (bare (journal_of_streams c per flags (Some limits.now) (Some entries.now)))) }
    ensures kept { AsksView V.content V.kept V.faults journal_cause view.old view.new result }
{
    let Some(limits) = limits_of(limits) else {
        return Err(JournalFault::Broken { at: 0 });
    };
    let Some(extents) = entries_of(per, flags, entries) else {
        return Err(JournalFault::Broken { at: 0 });
    };
    placed_journal(alloc, view, per, limits, extents, body)
}

// The same of streams that there may be.
fn optional_journal<V: View>(
    alloc: Global,
    view: &mut V,
    per: ClusterSize,
    flags: u16,
    limits: Option<Stream>,
    entries: Option<Stream>,
    body: &mut Body,
) -> Result<Option<Journal>, JournalFault>
    ensures value { IfSome (V.content view.old) (λ c. GivesOrFails (λ journal. journal) journal_cause result (bare (journal_of_streams c per flags limits entries))) }
    ensures kept { AsksView V.content V.kept V.faults journal_cause view.old view.new result }
{
    let Some(limits) = limits else {
        return Ok(None);
    };
    let Some(entries) = entries else {
        return Ok(None);
    };
    stream_journal(alloc, view, per, flags, &limits, &entries, body)
}

// The journal of a file, if it has both streams.
#[tactic(auto, unfolding(volume_state::specs::Journals::entries_flags, volume_state::specs::Journals::limits_name, volume_state::specs::Journals::entries_name))]
fn file_journal<V: View>(
    alloc: Global,
    view: &mut V,
    per: ClusterSize,
    file: &FileRec,
    body: &mut Body,
) -> Result<Option<Journal>, JournalFault>
    ensures value { IfSome (V.content view.old) (λ c. GivesOrFails (λ journal. journal) journal_cause result (bare (journal_of_file c per (Some file.now)))) }
    ensures kept { AsksView V.content V.kept V.faults journal_cause view.old view.new result }
{
    let attrs = file.attrs().as_slice();
    let limits = stream_of(alloc, DATA, &LIMITS_NAME, attrs)?;
    let entries = stream_of(alloc, DATA, &ENTRIES_NAME, attrs)?;
    let flags = stream_flags(DATA, &ENTRIES_NAME, file);
    optional_journal(alloc, view, per, flags, limits, entries, body)
}

/// The change journal of a loaded volume (Linux-NTFS documentation, "$UsnJrnl"), without its
/// records; none where `$Extend` has no `$UsnJrnl`, or this lacks one of its streams `$Max` and
/// `$J`. `up` is the volume's table of upper-case units, `links` are all its names, and `body` is
/// room for a body.
///
/// - `Broken` with 0: `$Max` isn't resident or has fewer than 0x20 bytes; or `$J` is
///   resident, or isn't flagged sparse, or isn't initialised; or a sparse run of it ends past its
///   real size, or past the first cluster that isn't sparse; or more than 2^43 bytes are allocated
///   to it.
/// - `Broken` with an offset: the first record of `$J` that is at fault (Microsoft's reference,
///   "USN_RECORD_V2") stands there.
/// - `View`: the view failed.
/// - `Memory`: want of memory. It comes too where the real size of `$J` is within 8,192 bytes of
///   2^64, which no lawful sizes allow.
///
/// Linear in the links, in the file's attributes and runs, and in the bytes of the journal from its
/// first cluster that isn't sparse on, each of whose sectors takes one pass over the runs more.
#[tactic(auto, unfolding(crate::specs::Judging::bare_journal, volume_state::specs::Journals::journal_of, volume_state::specs::Journals::journal_file))]
pub fn volume_journal<V: View>(
    alloc: Global,
    view: &mut V,
    map: &VolumeMap,
    up: &Upcase,
    links: &[Link],
    body: &mut Body,
) -> Result<Option<Journal>, JournalFault>
    requires links { links.now ≡ all_links (table_in map.now.files.items) (length map.now.files.items) }
    ensures value { IfSome (V.content view.old) (λ c. GivesOrFails (λ journal. journal) journal_cause result (bare_journal c up.now (volume_in map.now))) }
    ensures kept { AsksView V.content V.kept V.faults journal_cause view.old view.new result }
{
    let number = journal_number(alloc, up, links)?;
    match file_or_none(map, number) {
        Some(file) => file_journal(alloc, view, map.per_cluster, file, body),
        None => Ok(None),
    }
}
