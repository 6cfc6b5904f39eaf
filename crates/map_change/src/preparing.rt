//! A change of a map, prepared.
ghost use Rattle.std.specs.Prelude.{◌≡◌, ◌*◌, ◌^◌, ◌<◌, ◌≤◌, All, Ok, true, IfOk, IfSome, OnOk, vec_capacity};
ghost use Rattle.std.specs.Option.{option_map};
ghost use Rattle.host_base.specs.Answers.{GivesOrFails};
ghost use Rattle.disk_model.specs.declared.block.BlockKind.TheVariants.{FileRec};
ghost use Rattle.volume_map.specs.state_model.Streams.{has_cut_block};
ghost use Rattle.volume_map.specs.state_model.Loads.{record_count, table_of};
ghost use Rattle.volume_map.specs.block_view.Borrowed.{BorrowedView};
ghost use Rattle.volume_map.specs.block_view.Changes.{Fits, content_after};
ghost use Rattle.volume_map.specs.block_view.Views.{AsksView};
ghost use Rattle.volume_map.specs.Errors.{map_cause, NeverRefused};
ghost use Rattle.map_change.specs.Parts.{map_of, live_parts, geometry_in};
ghost use Rattle.map_change.specs.Applying.{applied, HasRoomFor, HasRoom};
ghost use Rattle.map_change.specs.Reading.{AreFound};
ghost use Rattle.map_change.specs.Preparing.{IsTable, IsPrepared};

use crate::bits::{changed_cluster_bits, changed_record_bits};
use crate::change::{MapChange, PartsChange};
use crate::keeping::{changed_numbers, kept_records};
use crate::live::LiveMap;
use crate::loading::load_live;
use crate::reading::read_records;
use disk_model::{BlockKind, Body, Change};
use host_base::Memory;
use std::alloc::{AllocError, Global};
use volume_map::{
    ClusterSize, Extents, Geometry, MapFault, Overlay, View, VolumeMap, has_cut_block, table_of,
};

// Where a map's file table is found.
fn geometry_of(map: &VolumeMap) -> Geometry
    ensures value { result ≡ geometry_in map.now }
    ensures place { result.mft * result.per_cluster < 2 ^ 62 }
{
    Geometry {
        per_cluster: map.per_cluster,
        mft: map.mft,
    }
}

// Whether a record of the table lies in two runs.
fn is_cut(per: ClusterSize, table: &Extents) -> bool
    ensures { result ≡ has_cut_block per FileRec (record_count table.now) table.now.runs }
{
    has_cut_block(
        per,
        BlockKind::FileRec,
        table.real / 1024,
        table.runs.as_slice(),
    )
}

// The extents of the file table in the view, where nothing refuses them and no record lies in two
// runs.
fn new_table<V: View>(
    alloc: Global,
    map: &VolumeMap,
    view: &mut V,
    body: &mut Body,
) -> Result<Option<Extents>, MapFault>
    ensures value { IfSome (V.content view.old) (λ d. IfOk result (λ found. IfSome found (IsTable d (geometry_in map.now)))) }
    ensures kept { AsksView V.content V.kept V.faults map_cause view.old view.new result }
    ensures certain { NeverRefused result }
{
    match table_of(alloc, view, &geometry_of(map), body) {
        Ok(table) if is_cut(map.per_cluster, &table) => Ok(None),
        Ok(table) => Ok(Some(table)),
        Err(MapFault::View) => Err(MapFault::View),
        Err(MapFault::Memory) => Err(MapFault::Memory),
        // The load refuses it, too.
        Err(MapFault::Refused(_)) => Ok(None),
    }
}

// What changes put in the place of parts of a map whose file table has these extents in the view,
// which is the one after the changes; none where a record that is read anew doesn't stand alone.
fn parts_by<V: View>(
    alloc: Global,
    live: &LiveMap,
    view: &mut V,
    changes: &[Change],
    table: Extents,
    body: &mut Body,
) -> Result<Option<PartsChange>, MapFault>
    requires plain { live.now.plain ≡ true }
    ensures value { IfSome (V.content view.old) (λ d. IfOk result (λ found. IsTable d (geometry_in live.now.map) table → IfSome found (AreFound d (live_parts live.now) (geometry_in live.now.map) changes.now))) }
    ensures kept { AsksView V.content V.kept V.faults map_cause view.old view.new result }
    ensures certain { NeverRefused result }
{
    let per = live.map.per_cluster;
    let kept = kept_records(per, &live.map.table, &table);
    let numbers = changed_numbers(alloc, per, &live.map.table, &table, kept, changes)?;
    let Some(records) = read_records(alloc, view, per, &table, &numbers, body)? else {
        return Ok(None);
    };
    let record_bits = changed_record_bits(alloc, live, view, &table, &records, changes, body)?;
    let cluster_bits = changed_cluster_bits(alloc, live, view, &table, &records, changes, body)?;
    Ok(Some(PartsChange {
        table,
        records,
        record_bits,
        cluster_bits,
    }))
}

// What changes put in the place of parts of a map, where these are all that they change: the view
// is the one after the changes.
fn changed_parts<V: View>(
    alloc: Global,
    live: &LiveMap,
    view: &mut V,
    changes: &[Change],
) -> Result<Option<PartsChange>, MapFault>
    ensures value { IfSome (V.content view.old) (λ d. IfOk result (λ found. IfSome found (AreFound d (live_parts live.now) (geometry_in live.now.map) changes.now))) }
    ensures kept { AsksView V.content V.kept V.faults map_cause view.old view.new result }
    ensures certain { NeverRefused result }
{
    if !live.plain {
        return Ok(None);
    }
    let mut body = Body::empty(alloc)?;
    match new_table(alloc, &live.map, view, &mut body)? {
        Some(table) => parts_by(alloc, live, view, changes, table, &mut body),
        None => Ok(None),
    }
}

// The map of the view, for the volume of a map, loaded anew.
fn load_again<V: View>(alloc: Global, live: &LiveMap, view: &mut V) -> Result<LiveMap, MapFault>
    ensures answer { IfSome (V.content view.old) (λ d. GivesOrFails live_parts map_cause result (map_of d (geometry_in live.now.map) live.now.map.clusters)) }
    ensures kept { AsksView V.content V.kept V.faults map_cause view.old view.new result }
{
    let geometry = geometry_of(&live.map);
    load_live(alloc, view, &geometry, live.map.clusters)
}

// What makes a map that of the view, which is the one after the changes.
fn prepare_over<V: View>(
    alloc: Global,
    live: &LiveMap,
    view: &mut V,
    changes: &[Change],
) -> Result<MapChange, MapFault>
    ensures answer { IfSome (V.content view.old) (λ d. IsPrepared d live.now changes.now result) }
    ensures kept { AsksView V.content V.kept V.faults map_cause view.old view.new result }
{
    let found = changed_parts(alloc, live, view, changes)?;
    if let Some(parts) = found {
        return Ok(MapChange::Parts(parts));
    }
    let anew = load_again(alloc, live, view)?;
    Ok(MapChange::Anew(anew))
}

// The view after the changes.
fn overlay<'a, V: View>(view: &'a mut V, changes: &'a [Change]) -> Overlay<'a, V>
    requires { All Fits changes.now }
    ensures content { ⟦<Overlay<'a, V> as View>⟧.content result ≡ option_map (content_after changes.now) (V.content view.entry.now) }
    ensures faults { ⟦<Overlay<'a, V> as View>⟧.faults result ≡ V.faults view.entry.now }
    ensures kept { ⟦<Overlay<'a, V> as View>⟧.kept result ≡ record { reference = view.entry.ghost_name; content = V.content view.entry.now; kept = V.kept view.entry.now } }
{
    Overlay { view, changes }
}

// Room for so many elements.
fn reserve<T>(items: &mut Vec<T>, count: usize) -> Result<(), AllocError>
    ensures items { items.new.items ≡ items.old.items }
    ensures room { OnOk result (count ≤ vec_capacity items.new) }
{
    let more = count.saturating_sub(items.len());
    items.reserve(more)
}

// Room in a map for as many records.
fn reserve_records(live: &mut LiveMap, count: usize) -> Result<(), AllocError>
    ensures stays { live_parts live.new ≡ live_parts live.old }
    ensures room { OnOk result (HasRoomFor live.new count) }
{
    reserve(&mut live.map.files, count)?;
    reserve(&mut live.map.heads, count)
}

// Room in a map for what a change puts there.
fn make_room(live: &mut LiveMap, change: &MapChange) -> Result<(), AllocError>
    ensures stays { live_parts live.new ≡ live_parts live.old }
    ensures room { OnOk result (HasRoom live.new change.now) }
{
    match change {
        MapChange::Anew(_) => Ok(()),
        MapChange::Parts(parts) => reserve_records(live, (parts.table.real / 1024) as usize),
    }
}

// The change, with room for it in the map.
fn with_room(live: &mut LiveMap, change: MapChange) -> Result<MapChange, AllocError>
    ensures value { IfOk result (λ ready. ready ≡ change) }
    ensures stays { live_parts live.new ≡ live_parts live.old }
    ensures room { IfOk result (HasRoom live.new) }
{
    make_room(live, &change)?;
    Ok(change)
}

/// What makes a map that of its view after a list of changes, if it is that of the view now; the
/// map stays as it is. All memory that [`apply`](crate::apply) needs is taken here, also room in
/// the map's own lists where it gets more records.
///
/// - [`MapFault::Refused`]: the first refusal of a load of the view after the changes.
/// - [`MapFault::View`]: the view failed.
/// - [`MapFault::Memory`]: want of memory.
///
/// It reads record 0, each changed record and each changed sector of a bitmap once, and takes time
/// and memory linear in these and in the changes, and for each of them in the runs of the file
/// table or of the bitmap. Where record 0 gives the table other clusters or sizes, it reads all
/// records behind those that keep their places: where runs are only added, those that are new. It
/// reads a bitmap whole where its clusters or sizes change, and that of the records where their
/// count does. The map is loaded anew, at the cost of a load, where a file has an attribute list or
/// gets one, and where a record that is read is refused by itself or has an index block in two
/// runs.
pub fn prepare<V: View>(
    alloc: Global,
    live: &mut LiveMap,
    view: &mut V,
    changes: &[Change],
) -> Result<MapChange, MapFault>
    requires fits { All Fits changes.now }
    ensures answer { IfSome (V.content view.old) (λ c. map_of c (geometry_in live.old.map) live.old.map.clusters ≡ Ok (live_parts live.old)
        → GivesOrFails (λ change. applied change (live_parts live.old)) map_cause result (map_of (content_after changes.now c) (geometry_in live.old.map) live.old.map.clusters)) }
    ensures stays { live_parts live.new ≡ live_parts live.old }
    ensures room { IfOk result (HasRoom live.new) }
    ensures kept { AsksView V.content V.kept V.faults map_cause view.old view.new result }
{
    let mut after = overlay(view, changes);
    let change = prepare_over(alloc, live, &mut after, changes)?;
    Ok(with_room(live, change)?)
}
