//! The bits of bitmaps after changes.
ghost use Rattle.std.specs.Prelude.{◌≡◌, ◌*◌, ◌≤◌, ◌==◌, true, List, [], find, length, IfOk, IfSome};
ghost use Rattle.std.specs.Option.{option_copied};
ghost use Rattle.bit_set.specs.Words.{bits_of_bytes};
ghost use Rattle.volume_map.specs.state_model.Files.{only_base};
ghost use Rattle.volume_map.specs.state_model.Streams.{stream_bytes};
ghost use Rattle.stream_laws.specs.Sharing.{runs_in};
ghost use Rattle.volume_map.specs.volume_model.Volumes.{count_of, file_in, file_stream, record_bitmap, cluster_bitmap};
ghost use Rattle.volume_map.specs.block_view.Views.{AsksView};
ghost use Rattle.volume_map.specs.Errors.{map_cause, NeverRefused};
ghost use Rattle.volume_map.specs.Maps.{volume_in};
ghost use Rattle.map_change.specs.declared.change.RecordChange.{RecordChange};
ghost use Rattle.map_change.specs.Parts.{MapParts, live_parts};
ghost use Rattle.map_change.specs.Applying.{applied_all, tabled};
ghost use Rattle.map_change.specs.Reading.{IsBits, touched_sectors};

use crate::change::{BitsChange, RecordChange};
use crate::keeping::shared_runs;
use crate::live::LiveMap;
use crate::marking::sector_runs;
use crate::numbers::touched_numbers;
use bit_set::BitSet;
use disk_model::{BlockKind, Body, Change};
use host_base::Memory;
use std::alloc::{AllocError, Global};
use volume_map::{
    BITMAP_TYPE, ClusterSize, DATA, Extents, FileRec, MapFault, Run, Stream, View, VolumeMap,
    file_at, file_stream, front, is_base_record, stream_of, stream_or_empty,
};

// The numbers of the files of the file table and of the clusters' bitmap.
const TABLE_FILE: u64 = 0;

const BITMAP_FILE: u64 = 6;

// The bits of a sector.
const SECTOR_BITS: u64 = 4096;

// ---- streams after changes

// The change of the record with this number, if there is one: the first of them.
fn change_of(records: &[RecordChange], number: u64) -> Option<&RecordChange>
    ensures { option_copied result ≡ find (λ x. x.number == number) records.now }
{
    records.iter().find(|change| change.number == number)
}

// The file where it is a base record.
fn only_base(file: &Option<FileRec>) -> Option<&FileRec>
    ensures { option_copied result ≡ only_base file.now }
{
    match file {
        Some(file) if is_base_record(file) => Some(file),
        _ => None,
    }
}

// The file with this number of a map whose file table has these extents, after changes of records.
fn file_after<'a>(
    live: &'a LiveMap,
    table: &Extents,
    records: &'a [RecordChange],
    number: u64,
) -> Option<&'a FileRec>
    ensures { option_copied result ≡ file_in (applied_all records.now (tabled table.now (live_parts live.now))).volume number }
{
    if number >= table.real / 1024 {
        return None;
    }
    match change_of(records, number) {
        Some(change) => only_base(&change.file),
        None => file_at(&live.map.files, number),
    }
}

// Its unnamed stream of this type, if it has one.
fn stream_after(
    alloc: Global,
    live: &LiveMap,
    table: &Extents,
    records: &[RecordChange],
    number: u64,
    kind: u32,
) -> Result<Option<Stream>, Memory>
    ensures { IfOk result (λ stream. stream ≡ file_stream kind [] (file_in (applied_all records.now (tabled table.now (live_parts live.now))).volume number)) }
{
    match file_after(live, table, records, number) {
        Some(file) => stream_of(alloc, kind, &[], file.attrs().as_slice()),
        None => Ok(None),
    }
}

// How many records a map has whose file table gets these extents, whichever of them change.
fn count_after(table: &Extents) -> u64
    ensures { (records : List RecordChange) (parts : MapParts) → result ≡ count_of (applied_all records (tabled table.now parts)).volume }
{
    table.real / 1024
}

// Whether they are the same runs.
#[tactic(auto, using(crate::proofs::Places::all_shared))]
fn are_equal(one: &[Run], other: &[Run]) -> bool
    ensures { result ≡ true → one.now ≡ other.now }
{
    if shared_runs(one, other) < one.len() {
        return false;
    }
    one.len() == other.len()
}

// Whether they have the same runs.
fn are_same_runs(one: &Extents, other: &Extents) -> bool
    ensures { result ≡ true → one.now.runs ≡ other.now.runs }
{
    are_equal(one.runs.as_slice(), other.runs.as_slice())
}

// Whether they have the same sizes.
fn are_same_sizes(one: &Extents, other: &Extents) -> bool
    ensures allocated { result ≡ true → one.now.allocated ≡ other.now.allocated }
    ensures real { result ≡ true → one.now.real ≡ other.now.real }
    ensures initialised { result ≡ true → one.now.initialised ≡ other.now.initialised }
{
    one.allocated == other.allocated
        && one.real == other.real
        && one.initialised == other.initialised
}

// Whether they are the same runs and sizes.
#[tactic(auto, using(crate::proofs::Places::same_extents))]
fn are_same_extents(one: &Extents, other: &Extents) -> bool
    ensures { result ≡ true → one.now ≡ other.now }
{
    if !are_same_runs(one, other) {
        return false;
    }
    are_same_sizes(one, other)
}

// Whether they are one stream.
fn are_same(one: &Option<Stream>, other: &Option<Stream>) -> bool
    ensures { result ≡ true → one.now ≡ other.now }
{
    match (one, other) {
        (None, None) => true,
        (Some(Stream::Held(one)), Some(Stream::Held(other))) => one == other,
        (Some(Stream::Placed(one)), Some(Stream::Placed(other))) => are_same_extents(one, other),
        _ => false,
    }
}

// ---- all bits

// So many zeros.
fn zeros(alloc: Global, count: usize) -> Result<Vec<u8>, AllocError>
    ensures { IfOk result (λ room. length room.items ≡ count) }
{
    vec![in alloc; 0u8; count]
}

// How many bytes so many bits take.
fn bytes_for(count: u64) -> usize
    ensures { count ≤ 8 * result }
{
    (count / 8 + 1) as usize
}

// The first so many bits of a stream; `room` is room for their bytes.
fn front_bits<V: View>(
    alloc: Global,
    view: &mut V,
    per: ClusterSize,
    stream: &Stream,
    count: u64,
    body: &mut Body,
    room: &mut [u8],
) -> Result<BitSet, MapFault>
    requires enough { count ≤ 8 * length room.old }
    ensures value { IfSome (V.content view.old) (λ d. IfOk result (λ bits. bits ≡ bits_of_bytes (stream_bytes d per stream.now) count)) }
    ensures kept { AsksView V.content V.kept V.faults map_cause view.old view.new result }
    ensures certain { NeverRefused result }
{
    front(view, per, stream, 0, body, room)?;
    Ok(BitSet::from_bytes(alloc, room, count)?)
}

// The first so many bits of a stream.
fn stream_bits<V: View>(
    alloc: Global,
    view: &mut V,
    per: ClusterSize,
    stream: &Stream,
    count: u64,
    body: &mut Body,
) -> Result<BitSet, MapFault>
    ensures value { IfSome (V.content view.old) (λ d. IfOk result (λ bits. bits ≡ bits_of_bytes (stream_bytes d per stream.now) count)) }
    ensures kept { AsksView V.content V.kept V.faults map_cause view.old view.new result }
    ensures certain { NeverRefused result }
{
    let mut room = zeros(alloc, bytes_for(count))?;
    front_bits(alloc, view, per, stream, count, body, &mut room)
}

// ---- touched bits

// The runs of a stream; there are none of a value in a record.
fn runs_in(stream: &Option<Stream>) -> &[Run]
    ensures { result.now ≡ runs_in stream.now }
{
    match stream {
        Some(Stream::Placed(extents)) => extents.runs.as_slice(),
        _ => &[],
    }
}

// The sectors of the first so many bits of a stream that changes may be of.
fn touched_sectors(
    alloc: Global,
    per: ClusterSize,
    stream: &Option<Stream>,
    count: u64,
    changes: &[Change],
) -> Result<Vec<u64>, AllocError>
    ensures { IfOk result (λ sectors. sectors.items ≡ touched_sectors per stream.now count changes.now) }
{
    let runs = runs_in(stream);
    touched_numbers(
        alloc,
        BlockKind::Plain,
        per,
        count / SECTOR_BITS + 1,
        runs,
        changes,
    )
}

// ---- a bitmap

// A bitmap: its stream, if there is one, and how many bits count.
#[derive(Drop)]
struct Bitmap {
    stream: Option<Stream>,
    count: u64,
}

// Whether it is one bitmap with as many bits.
fn is_same(old: &Bitmap, new: &Bitmap) -> bool
    ensures stream { result ≡ true → old.now.stream ≡ new.now.stream }
    ensures count { result ≡ true → old.now.count ≡ new.now.count }
{
    old.count == new.count && are_same(&old.stream, &new.stream)
}

// The bitmap of a map's records.
fn old_record_bitmap(alloc: Global, map: &VolumeMap) -> Result<Bitmap, Memory>
    ensures stream { IfOk result (λ bitmap. bitmap.stream ≡ record_bitmap (volume_in map.now)) }
    ensures count { IfOk result (λ bitmap. bitmap.count ≡ count_of (volume_in map.now)) }
{
    Ok(Bitmap {
        stream: file_stream(alloc, &map.files, TABLE_FILE, BITMAP_TYPE)?,
        count: map.files.len() as u64,
    })
}

// The same after changes.
fn new_record_bitmap(
    alloc: Global,
    live: &LiveMap,
    table: &Extents,
    records: &[RecordChange],
) -> Result<Bitmap, Memory>
    ensures stream { IfOk result (λ bitmap. bitmap.stream ≡ record_bitmap (applied_all records.now (tabled table.now (live_parts live.now))).volume) }
    ensures count { IfOk result (λ bitmap. bitmap.count ≡ count_of (applied_all records.now (tabled table.now (live_parts live.now))).volume) }
{
    Ok(Bitmap {
        stream: stream_after(alloc, live, table, records, TABLE_FILE, BITMAP_TYPE)?,
        count: count_after(table),
    })
}

// The bits of a bitmap in the view, which is the one after the changes: where it is the old one,
// those of its sectors that the changes may be of.
fn changed_bits<V: View>(
    alloc: Global,
    view: &mut V,
    per: ClusterSize,
    old: &Bitmap,
    new: Bitmap,
    changes: &[Change],
    body: &mut Body,
) -> Result<BitsChange, MapFault>
    ensures value { IfSome (V.content view.old) (λ d. IfOk result (IsBits d per old.now.stream old.now.count new.stream new.count changes.now)) }
    ensures kept { AsksView V.content V.kept V.faults map_cause view.old view.new result }
    ensures certain { NeverRefused result }
{
    let stays = is_same(old, &new);
    let Bitmap { stream, count } = new;
    let stream = stream_or_empty(alloc, stream);
    if !stays {
        let bits = stream_bits(alloc, view, per, &stream, count, body)?;
        return Ok(BitsChange::Whole(bits));
    }
    let sectors = touched_sectors(alloc, per, &old.stream, count, changes)?;
    let runs = sector_runs(alloc, view, per, &stream, count, &sectors, body)?;
    Ok(BitsChange::Runs(runs))
}

/// What makes the bits of a map's records those of the view, which is the one after the changes,
/// where its file table has these extents and these records are changed. Where their bitmap stays
/// as it is, and their count, it reads those of its sectors that the changes may be of; else all.
pub fn changed_record_bits<V: View>(
    alloc: Global,
    live: &LiveMap,
    view: &mut V,
    table: &Extents,
    records: &[RecordChange],
    changes: &[Change],
    body: &mut Body,
) -> Result<BitsChange, MapFault>
    ensures value { IfSome (V.content view.old) (λ d. IfOk result (IsBits d live.now.map.per_cluster (record_bitmap (volume_in live.now.map)) (count_of (volume_in live.now.map))
        (record_bitmap (applied_all records.now (tabled table.now (live_parts live.now))).volume) (count_of (applied_all records.now (tabled table.now (live_parts live.now))).volume) changes.now)) }
    ensures kept { AsksView V.content V.kept V.faults map_cause view.old view.new result }
    ensures certain { NeverRefused result }
{
    let old = old_record_bitmap(alloc, &live.map)?;
    let new = new_record_bitmap(alloc, live, table, records)?;
    changed_bits(alloc, view, live.map.per_cluster, &old, new, changes, body)
}

/// The same of its clusters.
pub fn changed_cluster_bits<V: View>(
    alloc: Global,
    live: &LiveMap,
    view: &mut V,
    table: &Extents,
    records: &[RecordChange],
    changes: &[Change],
    body: &mut Body,
) -> Result<BitsChange, MapFault>
    ensures value { IfSome (V.content view.old) (λ d. IfOk result (IsBits d live.now.map.per_cluster (cluster_bitmap (volume_in live.now.map)) live.now.map.clusters
        (cluster_bitmap (applied_all records.now (tabled table.now (live_parts live.now))).volume) live.now.map.clusters changes.now)) }
    ensures kept { AsksView V.content V.kept V.faults map_cause view.old view.new result }
    ensures certain { NeverRefused result }
{
    let old = Bitmap {
        stream: file_stream(alloc, &live.map.files, BITMAP_FILE, DATA)?,
        count: live.map.clusters,
    };
    let new = Bitmap {
        stream: stream_after(alloc, live, table, records, BITMAP_FILE, DATA)?,
        count: live.map.clusters,
    };
    changed_bits(alloc, view, live.map.per_cluster, &old, new, changes, body)
}
