//! The records of a journal whose place is known.
ghost use Rattle.std.specs.Prelude.{◌≡◌, ◌<◌, ◌≤◌, List, length, IfOk, IfSome, IsOk, Ok};
ghost use Rattle.host_base.specs.Answers.{Gives, GivesOrFails};
ghost use Rattle.file_tree.specs.declared.journal.Usn.{Usn as UsnOf};
ghost use Rattle.image_open.specs.state_model.Loads.{table_in};
ghost use Rattle.image_open.specs.state_model.Trees.{all_links};
ghost use Rattle.image_open.specs.volume_map.Maps.{volume_in};
ghost use Rattle.block_view.specs.Views.{AsksView};
ghost use Rattle.volume_check.specs.volume_state.Journals.{journal_first, journal_entries};
ghost use Rattle.volume_check.specs.usn_journal.Places.{journal_place};
ghost use Rattle.volume_check.specs.usn_journal.Pulls.{read_entries};
ghost use Rattle.image_open.specs.Errors.{scan_cause, refused_as};
ghost use Rattle.image_open.specs.declared.refusal.Refusal.TheVariants.{NoJournal};
ghost use Rattle.image_read.specs.Errors.{error_of_place, error_of_pages};
ghost use Rattle.image_read.specs.Records.{place_on};

use block_view::View;
use disk_model::Body;
use file_tree::{Link, UsnList};
use image_open::{ClusterSize, Extents, MountFault, Refusal, VolumeMap};
use std::alloc::Global;
use volume_check::{PageFault, PlaceFault, Upcase, journal_place, pull_inside, upper_table};
use volume_links::all_links;

// The most records that are asked for at once.
const MOST: u32 = u32::MAX;

// The number of the rule that a record at fault breaks.
const JOURNAL_RULE: u32 = 9;

fn error_of_place(fault: PlaceFault) -> MountFault
    ensures value { result ≡ error_of_place fault }
{
    match fault {
        PlaceFault::Absent { why } => MountFault::Refused(Refusal::NoJournal { why }),
        PlaceFault::Memory => MountFault::Memory,
    }
}

fn error_of_pages(fault: PageFault) -> MountFault
    ensures value { result ≡ error_of_pages fault }
{
    match fault {
        PageFault::Broken { at } => MountFault::Refused(Refusal::BadVolume {
            rule: JOURNAL_RULE,
            number: at,
        }),
        PageFault::View => MountFault::Device,
        PageFault::Memory => MountFault::Memory,
    }
}

// The clusters of `$J`, by the table of upper-case units and the names of a volume.
fn named_place(
    alloc: Global,
    map: &VolumeMap,
    up: &Upcase,
    links: &[Link],
) -> Result<Extents, MountFault>
    requires links { links.now ≡ all_links (table_in map.now.files.items) (length map.now.files.items) }
    ensures answer { Gives (λ e. e) scan_cause result (refused_as NoJournal (journal_place up.now (volume_in map.now))) }
    ensures inside { IfOk result (λ e. journal_first map.now.per_cluster e ≤ e.real) }
{
    match journal_place(alloc, map, up, links) {
        Ok(extents) => Ok(extents),
        Err(fault) => Err(error_of_place(fault)),
    }
}

/// Where the records of a loaded volume's change journal lie: the clusters of `$J` (Linux-NTFS
/// documentation, "$UsnJrnl"). `body` is room for a body. It reads the table of upper-case units,
/// and is linear in this and in the files' attributes.
///
/// - [`MountFault::Refused`]: [`Refusal::NoJournal`] with why there is no journal.
/// - [`MountFault::Device`]: the view failed.
/// - [`MountFault::Memory`]: want of memory.
pub fn place_on<V: View>(
    alloc: Global,
    view: &mut V,
    map: &VolumeMap,
    body: &mut Body,
) -> Result<Extents, MountFault>
    ensures answer { IfSome (V.content view.old) (λ c. GivesOrFails (λ e. e) scan_cause result (place_on c (volume_in map.now))) }
    ensures inside { IfOk result (λ e. journal_first map.now.per_cluster e ≤ e.real) }
    ensures kept { AsksView V.content V.kept V.faults scan_cause view.old view.new result }
{
    let up = upper_table(alloc, view, map, body)?;
    let links = all_links(alloc, &map.files)?;
    named_place(alloc, map, &up, links.as_slice())
}

// Entries of which there are fewer than can be asked for at once.
fn fewer(entries: UsnList) -> Result<UsnList, MountFault>
    ensures value { IfOk result (λ kept. kept ≡ entries) }
    ensures few { IfOk result (λ kept. length kept < MOST) }
    ensures cause { Gives (λ (l : List UsnOf). l) scan_cause result (Ok entries) }
{
    if entries.as_slice().len() >= MOST as usize {
        return Err(MountFault::Memory);
    }
    Ok(entries)
}

/// All records of a whole journal, in these clusters, which begins at its byte `first`. A volume
/// has `per` sectors a cluster; `body` is room for a body. Linear in the bytes of the journal, each
/// of whose sectors takes one pass over the runs.
///
/// - [`MountFault::Refused`]: [`Refusal::BadVolume`] with rule 9, where the view gives a record
///   that is at fault, which no view does that is known to hold whole records.
/// - [`MountFault::Device`]: the view failed.
/// - [`MountFault::Memory`]: want of memory, or there are 2^32 - 1 records or more.
pub fn all_entries<V: View>(
    alloc: Global,
    view: &mut V,
    per: ClusterSize,
    extents: &Extents,
    first: u64,
    body: &mut Body,
) -> Result<UsnList, MountFault>
    requires first { first ≡ journal_first per extents.now }
    requires left { journal_first per extents.now ≤ extents.now.real }
    requires whole { IfSome (V.content view.old) (λ c. IsOk (journal_entries c per extents.now)) }
    ensures answer { IfSome (V.content view.old) (λ c. GivesOrFails (λ (l : List UsnOf). l) scan_cause result (Ok (read_entries (journal_entries c per extents.now)))) }
    ensures kept { AsksView V.content V.kept V.faults scan_cause view.old view.new result }
{
    match pull_inside(alloc, view, per, extents, first, first, MOST, body) {
        Ok(pulled) => fewer(pulled.entries),
        Err(fault) => Err(error_of_pages(fault)),
    }
}
