//! Where the journal's records lie.
ghost use Rattle.std.specs.Prelude.{◌≡◌, ◌≤◌, IfOk, Some, IfSome, length};
ghost use Rattle.host_base.specs.Answers.{Gives};
ghost use Rattle.record_rules.specs.state_model.Loads.{table_in};
ghost use Rattle.record_rules.specs.state_model.Trees.{all_links};
ghost use Rattle.volume_map.specs.Maps.{volume_in};
ghost use Rattle.volume_state.specs.Journals.{journal_first, entries_in};
ghost use Rattle.usn_journal.specs.Places.{in_shape, place_of_streams, place_of_file, journal_place, place_cause};

use crate::finding::{file_or_none, journal_number};
use crate::shape::{has_shape, limits_of};
use crate::whole::{ENTRIES_NAME, LIMITS_NAME};
use file_tree::Link;
use host_base::Memory;
use record_rules::has_type;
use std::alloc::{AllocError, Global};
use thiserror::Error;
use volume_map::{
    ATTRIBUTE_LIST, ClusterSize, DATA, Extents, FileRec, Stream, Upcase, VolumeMap, stream_flags,
    stream_of,
};

// No file is the journal's.
const NO_FILE: u32 = 1;

// The file has an attribute list.
const HAS_LIST: u32 = 2;

// A stream is missing or out of shape.
const NO_STREAM: u32 = 3;

/// Why the records of a volume's change journal can't be read.
#[derive(Clone, Copy, Debug, PartialEq, Eq, Error)]
pub enum PlaceFault {
    /// 1: `$Extend` has no `$UsnJrnl`; 2: its file has an attribute list; 3: one of its streams is
    /// missing or out of shape.
    #[error("there is no journal: {why}")]
    Absent { why: u32 },
    #[error("no memory")]
    Memory,
}

impl From<AllocError> for PlaceFault {
    ghost use Rattle.std.specs.Prelude.{◌≡◌};
    ghost use Rattle.usn_journal.specs.declared.place.PlaceFault.TheVariants.{Memory as no_memory};

    ghost from_gives = { λ _ fault. fault ≡ no_memory };

    fn from(_error: AllocError) -> Self {
        PlaceFault::Memory
    }
}

impl From<Memory> for PlaceFault {
    ghost use Rattle.std.specs.Prelude.{◌≡◌};
    ghost use Rattle.usn_journal.specs.declared.place.PlaceFault.TheVariants.{Memory as no_memory};

    ghost from_gives = { λ _ fault. fault ≡ no_memory };

    fn from(_error: Memory) -> Self {
        PlaceFault::Memory
    }
}

// The clusters of `$J`, which has these flags.
fn entries_place(per: ClusterSize, flags: u16, entries: Stream) -> Result<Extents, PlaceFault>
    ensures place { Gives (λ e. e) place_cause result (in_shape (entries_in per flags entries)) }
    ensures inside { IfOk result (λ e. journal_first per e ≤ e.real) }
{
    let Stream::Placed(extents) = entries else {
        return Err(PlaceFault::Absent { why: NO_STREAM });
    };
    if !has_shape(per, flags, &extents) {
        return Err(PlaceFault::Absent { why: NO_STREAM });
    }
    Ok(extents)
}

// The same, where there are both streams and `$Max` is in shape.
fn streams_place(
    per: ClusterSize,
    flags: u16,
    limits: Option<Stream>,
    entries: Option<Stream>,
) -> Result<Extents, PlaceFault>
    ensures place { Gives (λ e. e) place_cause result (place_of_streams per flags limits entries) }
    ensures inside { IfOk result (λ e. journal_first per e ≤ e.real) }
{
    let Some(limits) = limits else {
        return Err(PlaceFault::Absent { why: NO_STREAM });
    };
    let Some(entries) = entries else {
        return Err(PlaceFault::Absent { why: NO_STREAM });
    };
    match limits_of(&limits) {
        Some(_) => entries_place(per, flags, entries),
        None => Err(PlaceFault::Absent { why: NO_STREAM }),
    }
}

// The same of the file that holds the journal.
#[tactic(auto, unfolding(volume_state::specs::Journals::entries_flags, volume_state::specs::Journals::limits_name, volume_state::specs::Journals::entries_name))]
fn file_place(alloc: Global, per: ClusterSize, file: &FileRec) -> Result<Extents, PlaceFault>
    ensures place { Gives (λ e. e) place_cause result (place_of_file per (Some file.now)) }
    ensures inside { IfOk result (λ e. journal_first per e ≤ e.real) }
{
    if has_type(ATTRIBUTE_LIST, file) {
        return Err(PlaceFault::Absent { why: HAS_LIST });
    }
    let attrs = file.attrs().as_slice();
    let limits = stream_of(alloc, DATA, &LIMITS_NAME, attrs)?;
    let entries = stream_of(alloc, DATA, &ENTRIES_NAME, attrs)?;
    let flags = stream_flags(DATA, &ENTRIES_NAME, file);
    streams_place(per, flags, limits, entries)
}

/// Where the records of a loaded volume's change journal lie: the clusters of `$J` (Linux-NTFS
/// documentation, "$UsnJrnl"), which is in shape. `up` is the volume's table of upper-case units,
/// and `links` are all its names.
///
/// - [`PlaceFault::Absent`] with 1: `$Extend` has no `$UsnJrnl`; with 2: its file has an attribute
///   list; with 3: it lacks one of its streams `$Max` and `$J`, or one is out of shape. `$Max` is
///   out of shape where it isn't resident or has fewer than 0x20 bytes; `$J` where it
///   is resident, or isn't flagged sparse, or isn't initialised; or where a sparse run of it ends
///   past its real size, or past the first cluster that isn't sparse; or where more than 2^43 bytes
///   are allocated to it.
/// - [`PlaceFault::Memory`]: want of memory.
///
/// Linear in the links, and in the file's attributes and runs.
#[tactic(auto, unfolding(crate::specs::Places::journal_place, volume_state::specs::Journals::journal_file))]
pub fn journal_place(
    alloc: Global,
    map: &VolumeMap,
    up: &Upcase,
    links: &[Link],
) -> Result<Extents, PlaceFault>
    requires links { links.now ≡ all_links (table_in map.now.files.items) (length map.now.files.items) }
    ensures place { Gives (λ e. e) place_cause result (journal_place up.now (volume_in map.now)) }
    ensures inside { IfOk result (λ e. journal_first map.now.per_cluster e ≤ e.real) }
{
    let number = journal_number(alloc, up, links)?;
    match file_or_none(map, number) {
        Some(file) => file_place(alloc, map.per_cluster, file),
        None => Err(PlaceFault::Absent { why: NO_FILE }),
    }
}
