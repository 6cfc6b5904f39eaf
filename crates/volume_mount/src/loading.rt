//! A volume that is loaded, and what refuses it.
ghost use Rattle.std.specs.Prelude.{◌≡◌, ◌*◌, ◌^◌, ◌<◌, Ok, All, IfOk, IfSome};
ghost use Rattle.host_base.specs.Answers.{Gives, GivesOrFails};
ghost use Rattle.block_view.specs.Views.{AsksView};
ghost use Rattle.volume_state.specs.volume_model.Volumes.{upper_of};
ghost use Rattle.image_read.specs.volume_map.Maps.{IsMapOf, volume_in};
ghost use Rattle.volume_shadows.specs.log_recovery.Recovering.{content_with, IsSized};
ghost use Rattle.volume_shadows.specs.log_recovery.Places.{HasPlaces};
ghost use Rattle.image_read.specs.image_open.Errors.{scan_cause};
ghost use Rattle.volume_shadows.specs.Live.{least_lsn};
ghost use Rattle.volume_mount.specs.Mounts.{ruled, unshadowed, placed, settled, paged, unjournaled, tried, loaded_on};

use crate::holding::may_be_changed;
use crate::journal::has_no_journal;
use crate::pages::has_pages;
use block_view::View;
use disk_model::Body;
use image_read::{
    LogPlace, MountFault, OpeningToWrite, Refusal, VolumeMap, check_version, tree_on, upper_table,
    volume_on,
};
use state_model::Geometry;
use std::alloc::Global;
use volume_lookup::Upcase;
use volume_shadows::{Places, RecoveredView, Shadow, least_live};

/// A volume as it is loaded, and its table of upper-case units.
#[derive(Drop)]
pub struct LoadedVolume {
    pub map: VolumeMap,
    pub upper: Upcase,
}

// A loaded volume that keeps the nine rules.
fn ruled<V: View>(alloc: Global, view: &mut V, map: &VolumeMap) -> Result<(), MountFault>
    requires parts { IfSome (V.content view.old) (λ c. IsMapOf c map.now) }
    ensures answer { IfSome (V.content view.old) (λ c. GivesOrFails (λ _. volume_in map.now) scan_cause result (ruled c (volume_in map.now))) }
    ensures kept { AsksView V.content V.kept V.faults scan_cause view.old view.new result }
{
    tree_on(alloc, view, map)?;
    Ok(())
}

// The same, of whose live blocks no log says anything by these shadows.
#[tactic(auto, unfolding(crate::specs::Mounts::unshadowed, volume_shadows::specs::Live::least_live))]
fn unshadowed(alloc: Global, map: &VolumeMap, shadows: &[Shadow]) -> Result<(), MountFault>
    ensures { Gives (λ _. volume_in map.now) scan_cause result (unshadowed (least_lsn shadows.now) (volume_in map.now)) }
{
    match least_live(alloc, map.per_cluster, &map.files, shadows)? {
        Some(lsn) => Err(MountFault::Refused(Refusal::ForeignLog { lsn })),
        None => Ok(()),
    }
}

// The same, whose log lies on the device, and which may be changed.
#[tactic(auto, unfolding(crate::specs::Mounts::placed))]
fn placed(
    alloc: Global,
    shadows: &[Shadow],
    place: &LogPlace,
    map: &VolumeMap,
) -> Result<(), MountFault>
    ensures { Gives (λ _. volume_in map.now) scan_cause result (placed (least_lsn shadows.now) place.now map.now.cluster_bits (volume_in map.now)) }
{
    may_be_changed(alloc, place, map)?;
    unshadowed(alloc, map, shadows)
}

// The same behind the nine rules.
fn settled<V: View>(
    alloc: Global,
    view: &mut V,
    shadows: &[Shadow],
    place: &LogPlace,
    map: &VolumeMap,
) -> Result<(), MountFault>
    requires parts { IfSome (V.content view.old) (λ c. IsMapOf c map.now) }
    ensures answer { IfSome (V.content view.old) (λ c. GivesOrFails (λ _. volume_in map.now) scan_cause result (settled (least_lsn shadows.now) place.now c (volume_in map.now))) }
    ensures kept { AsksView V.content V.kept V.faults scan_cause view.old view.new result }
{
    ruled(alloc, view, map)?;
    placed(alloc, shadows, place, map)
}

// The same, whose log has the pages that it needs.
fn paged<V: View>(
    alloc: Global,
    view: &mut V,
    shadows: &[Shadow],
    place: &LogPlace,
    map: &VolumeMap,
) -> Result<(), MountFault>
    requires parts { IfSome (V.content view.old) (λ c. IsMapOf c map.now) }
    ensures answer { IfSome (V.content view.old) (λ c. GivesOrFails (λ _. volume_in map.now) scan_cause result (paged (least_lsn shadows.now) place.now c (volume_in map.now))) }
    ensures kept { AsksView V.content V.kept V.faults scan_cause view.old view.new result }
{
    has_pages(place)?;
    settled(alloc, view, shadows, place, map)
}

// The same, without a change journal by this table of upper-case units.
fn unjournaled<V: View>(
    alloc: Global,
    view: &mut V,
    shadows: &[Shadow],
    up: &Upcase,
    place: &LogPlace,
    map: &VolumeMap,
) -> Result<(), MountFault>
    requires parts { IfSome (V.content view.old) (λ c. IsMapOf c map.now) }
    ensures answer { IfSome (V.content view.old) (λ c. GivesOrFails (λ _. volume_in map.now) scan_cause result (unjournaled (least_lsn shadows.now) up.now place.now c (volume_in map.now))) }
    ensures kept { AsksView V.content V.kept V.faults scan_cause view.old view.new result }
{
    has_no_journal(alloc, map, up)?;
    paged(alloc, view, shadows, place, map)
}

// The table of upper-case units of a loaded volume.
fn upper_on<V: View>(alloc: Global, view: &mut V, map: &VolumeMap) -> Result<Upcase, MountFault>
    ensures value { IfSome (V.content view.old) (λ c. GivesOrFails (λ upper. upper) scan_cause result (Ok (upper_of c (volume_in map.now)))) }
    ensures kept { AsksView V.content V.kept V.faults scan_cause view.old view.new result }
{
    let mut body = Body::empty(alloc)?;
    Ok(upper_table(alloc, view, map, &mut body)?)
}

// The table of a loaded volume whose version is handled and that nothing refuses.
fn tried_upper<V: View>(
    alloc: Global,
    view: &mut V,
    shadows: &[Shadow],
    place: &LogPlace,
    map: &VolumeMap,
) -> Result<Upcase, MountFault>
    requires parts { IfSome (V.content view.old) (λ c. IsMapOf c map.now) }
    ensures answer { IfSome (V.content view.old) (λ c. GivesOrFails (λ _. volume_in map.now) scan_cause result (unjournaled (least_lsn shadows.now) (upper_of c (volume_in map.now)) place.now c (volume_in map.now))) }
    ensures upper { IfSome (V.content view.old) (λ c. IfOk result (λ upper. upper ≡ upper_of c (volume_in map.now))) }
    ensures kept { AsksView V.content V.kept V.faults scan_cause view.old view.new result }
{
    let upper = upper_on(alloc, view, map)?;
    unjournaled(alloc, view, shadows, &upper, place, map)?;
    Ok(upper)
}

// The table of a loaded volume that nothing refuses.
fn tried<V: View>(
    alloc: Global,
    view: &mut V,
    shadows: &[Shadow],
    place: &LogPlace,
    map: &VolumeMap,
) -> Result<Upcase, MountFault>
    requires parts { IfSome (V.content view.old) (λ c. IsMapOf c map.now) }
    ensures answer { IfSome (V.content view.old) (λ c. GivesOrFails (λ _. volume_in map.now) scan_cause result (tried (least_lsn shadows.now) place.now c (volume_in map.now))) }
    ensures upper { IfSome (V.content view.old) (λ c. IfOk result (λ upper. upper ≡ upper_of c (volume_in map.now))) }
    ensures kept { AsksView V.content V.kept V.faults scan_cause view.old view.new result }
{
    check_version(map)?;
    tried_upper(alloc, view, shadows, place, map)
}

// The volume of a content, of this geometry and so many clusters.
fn loaded_on<V: View>(
    alloc: Global,
    view: &mut V,
    shadows: &[Shadow],
    place: &LogPlace,
    geometry: &Geometry,
    total: u64,
) -> Result<LoadedVolume, MountFault>
    requires table { geometry.now.mft * geometry.now.per_cluster < 2 ^ 62 }
    ensures answer { IfSome (V.content view.old) (λ c. GivesOrFails (λ l. volume_in l.map) scan_cause result (loaded_on (least_lsn shadows.now) place.now c geometry.now total)) }
    ensures upper { IfSome (V.content view.old) (λ c. IfOk result (λ l. l.upper ≡ upper_of c (volume_in l.map))) }
    ensures parts { IfSome (V.content view.old) (λ c. IfOk result (λ l. IsMapOf c l.map)) }
    ensures kept { AsksView V.content V.kept V.faults scan_cause view.old view.new result }
{
    let map = volume_on(alloc, view, geometry, total)?;
    let upper = tried(alloc, view, shadows, place, &map)?;
    Ok(LoadedVolume { map, upper })
}

/// The volume that was opened so, as it is loaded from the recovered content of a view: with the
/// bodies that recovery found, which stand at these places. It costs what a check does.
///
/// - [`MountFault::Refused`]: the first refusal of the file table's records; then of the version;
///   then of a change journal; then of the log's pages; then of the nine rules; then
///   [`Refusal::LogSmall`] where a page of the log lies nowhere; then [`Refusal::BadVolume`] with
///   rule 4 and the number of a file with an attribute list in two pieces; then with number 0, and
///   rule 5 where a stream has the first cluster that isn't the data of `$Boot`, or rule 6 where the
///   bit of that cluster is clear; then [`Refusal::ForeignLog`] where the log shadows a live block,
///   with the LSN of the first update of a rival, of several the least.
/// - [`MountFault::Device`]: the view failed.
/// - [`MountFault::Memory`]: want of memory.
pub fn load_recovered<V: View>(
    alloc: Global,
    view: &mut V,
    opening: &OpeningToWrite,
    places: &Places,
) -> Result<LoadedVolume, MountFault>
    requires table { opening.now.geometry.mft * opening.now.geometry.per_cluster < 2 ^ 62 }
    requires sized { All IsSized opening.now.found.recovered.blocks.bodies.items }
    requires right { HasPlaces opening.now.found.recovered.blocks.bodies.items places.now }
    ensures answer { IfSome (V.content view.old) (λ c. GivesOrFails (λ l. volume_in l.map) scan_cause result (loaded_on (least_lsn opening.now.found.recovered.blocks.shadows.items) opening.now.place (content_with opening.now.found.recovered.blocks.bodies.items c) opening.now.geometry opening.now.total)) }
    ensures upper { IfSome (V.content view.old) (λ c. IfOk result (λ l. l.upper ≡ upper_of (content_with opening.now.found.recovered.blocks.bodies.items c) (volume_in l.map))) }
    ensures parts { IfSome (V.content view.old) (λ c. IfOk result (λ l. IsMapOf (content_with opening.now.found.recovered.blocks.bodies.items c) l.map)) }
    ensures kept { AsksView V.content V.kept V.faults scan_cause view.old view.new result }
{
    let bodies = &opening.found.recovered.blocks.bodies;
    let mut recovered = RecoveredView::new(view, bodies, places);
    loaded_on(
        alloc,
        &mut recovered,
        &opening.found.recovered.blocks.shadows,
        &opening.place,
        &opening.geometry,
        opening.total,
    )
}
