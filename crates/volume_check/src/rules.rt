//! The rules before the ninth, each tried where those before it are kept.
ghost use Rattle.std.specs.Prelude.{◌≡◌, ◌+◌, ◌*◌, ◌<◌, IfOk, IfSome, IsSome};
ghost use Rattle.disk_model.specs.Content.{Content as the_content};
ghost use Rattle.volume_model.specs.Owners.{volume_runs};
ghost use Rattle.volume_tree.specs.volume_map.Maps.{volume_in, IsMapOf};
ghost use Rattle.block_view.specs.Views.{AsksView};
ghost use Rattle.volume_check.specs.Errors.{check_cause, NeverBroken};
ghost use Rattle.volume_check.specs.Parts.{AreParts};
ghost use Rattle.volume_model.specs.Sizes.{is_at, placed_record, keeps_place};
ghost use Rattle.volume_state.specs.Rules.{broken_1, broken_2, broken_4};
ghost use Rattle.volume_check.specs.Steps.{from_1, from_2, from_3, from_4, from_5, from_6, from_7, from_8};

use crate::fault::CheckFault;
use block_view::View;
use disk_model::{BlockKind, Body};
use host_base::Memory;
use std::alloc::Global;
use stream_rules::{Run, block_at, volume_runs};
use usn_journal::{first_misnamed, first_misplaced, first_unrooted};
use volume_model::Upcase;
use volume_tree::{Broken, NamedVolume, VolumeMap};

// Rule 8: the way up of each directory.
#[tactic(auto, unfolding(crate::specs::Steps::from_8, volume_state::specs::Rules::broken_8))]
fn from_8(volume: &NamedVolume) -> Option<Broken>
    ensures { result ≡ from_8 (volume_in volume.now.map.now) }
{
    match first_unrooted(&volume.climber()) {
        Some(number) => Some(Broken { rule: 8, number }),
        None => None,
    }
}

// From rule 7 on: records that are in use and not marked.
#[tactic(auto, unfolding(crate::specs::Steps::from_7, volume_state::specs::Rules::broken_7))]
fn from_7(volume: &NamedVolume) -> Option<Broken>
    ensures { (c : the_content) → IsMapOf c volume.now.map.now → result ≡ from_7 c (volume_in volume.now.map.now) }
{
    match volume_tree::first_unmarked(&volume.map.heads, &volume.map.record_bits) {
        Some(number) => Some(Broken { rule: 7, number }),
        None => from_8(volume),
    }
}

// From rule 6 on: clusters that are owned and not marked.
#[tactic(auto, unfolding(crate::specs::Steps::from_6, volume_state::specs::Rules::broken_6))]
fn from_6(alloc: Global, volume: &NamedVolume, runs: &[Run]) -> Result<Option<Broken>, Memory>
    requires runs { runs.now ≡ volume_runs volume.now.map.now.files.items }
    ensures { (c : the_content) → IsMapOf c volume.now.map.now → IfOk result (λ broken. broken ≡ from_6 c (volume_in volume.now.map.now)) }
{
    match stream_rules::first_unmarked(alloc, runs, &volume.map.cluster_bits)? {
        Some(number) => Ok(Some(Broken { rule: 6, number })),
        None => Ok(from_7(volume)),
    }
}

// From rule 5 on: clusters that are owned twice.
#[tactic(auto, unfolding(crate::specs::Steps::from_5, volume_state::specs::Rules::broken_5))]
fn from_5(alloc: Global, volume: &NamedVolume) -> Result<Option<Broken>, Memory>
    ensures { (c : the_content) → IsMapOf c volume.now.map.now → IfOk result (λ broken. broken ≡ from_5 c (volume_in volume.now.map.now)) }
{
    let runs = volume_runs(alloc, &volume.map.files)?;
    match stream_rules::first_shared(alloc, runs.as_slice(), volume.map.clusters)? {
        Some(number) => Ok(Some(Broken { rule: 5, number })),
        None => from_6(alloc, volume, runs.as_slice()),
    }
}

// Whether the record with this number, by the runs of the file table, is that of the boot sector.
fn is_in_place(map: &VolumeMap, number: u64) -> bool
    requires number { number < 4 }
    ensures { result ≡ is_at (map.now.mft * map.now.per_cluster + 2 * number) (placed_record (volume_in map.now) number) }
{
    let first = map.mft * map.per_cluster.sectors() + 2 * number;
    let runs = map.table.runs.as_slice();
    match block_at(map.per_cluster, runs, BlockKind::FileRec, number) {
        Some(block) => block.first == first,
        None => false,
    }
}

// Whether the file table begins where the boot sector says.
#[tactic(auto, unfolding(volume_model::specs::Sizes::keeps_place))]
fn keeps_place(map: &VolumeMap) -> bool
    ensures { result ≡ keeps_place (volume_in map.now) }
{
    is_in_place(map, 0) && is_in_place(map, 1) && is_in_place(map, 2) && is_in_place(map, 3)
}

// The least number at which rule 4 is broken: 0 where the file table begins elsewhere.
#[tactic(auto, unfolding(volume_state::specs::Rules::broken_4))]
fn first_unfit<V: View>(
    alloc: Global,
    view: &mut V,
    map: &VolumeMap,
    body: &mut Body,
) -> Result<Option<u64>, CheckFault>
    ensures value { IfSome (V.content view.old) (λ c. IfOk result (λ number. number ≡ broken_4 c (volume_in map.now))) }
    ensures never { NeverBroken result }
    ensures kept { AsksView V.content V.kept V.faults check_cause view.old view.new result }
{
    if !keeps_place(map) {
        return Ok(Some(0));
    }
    let (per, clusters) = (map.per_cluster, map.clusters);
    let number = stream_rules::first_broken(alloc, view, per, clusters, &map.files, body)?;
    Ok(number)
}

// From rule 4 on: pieces, places and sizes of streams.
#[tactic(auto, unfolding(crate::specs::Steps::from_4, volume_state::specs::Rules::broken_4))]
fn from_4<V: View>(
    alloc: Global,
    view: &mut V,
    volume: &NamedVolume,
    body: &mut Body,
) -> Result<Option<Broken>, CheckFault>
    ensures value { IfSome (V.content view.old) (λ c. IsMapOf c volume.now.map.now → IfOk result (λ broken. broken ≡ from_4 c (volume_in volume.now.map.now))) }
    ensures never { NeverBroken result }
    ensures kept { AsksView V.content V.kept V.faults check_cause view.old view.new result }
{
    match first_unfit(alloc, view, volume.map, body)? {
        Some(number) => Ok(Some(Broken { rule: 4, number })),
        None => Ok(from_5(alloc, volume)?),
    }
}

// From rule 3 on: the index of each directory.
#[tactic(auto, unfolding(crate::specs::Steps::from_3, volume_state::specs::Rules::broken_3))]
fn from_3<V: View>(
    alloc: Global,
    view: &mut V,
    volume: &NamedVolume,
    upper: &Upcase,
    body: &mut Body,
) -> Result<Option<Broken>, CheckFault>
    ensures value { IfSome (V.content view.old) (λ c. AreParts c volume.now.map.now upper.now → IfOk result (λ broken. broken ≡ from_3 c (volume_in volume.now.map.now))) }
    ensures never { NeverBroken result }
    ensures kept { AsksView V.content V.kept V.faults check_cause view.old view.new result }
{
    match directory_index::first_broken(
        alloc,
        view,
        volume.map.per_cluster,
        upper,
        &volume.map.files,
        &volume.names.links,
        &volume.names.counts,
    )? {
        Some(number) => Ok(Some(Broken { rule: 3, number })),
        None => from_4(alloc, view, volume, body),
    }
}

// From rule 2 on: the directory of each name.
#[tactic(auto, unfolding(crate::specs::Steps::from_2, volume_state::specs::Rules::broken_2))]
fn from_2<V: View>(
    alloc: Global,
    view: &mut V,
    volume: &NamedVolume,
    upper: &Upcase,
    body: &mut Body,
) -> Result<Option<Broken>, CheckFault>
    ensures value { IfSome (V.content view.old) (λ c. AreParts c volume.now.map.now upper.now → IfOk result (λ broken. broken ≡ from_2 c (volume_in volume.now.map.now))) }
    ensures never { NeverBroken result }
    ensures kept { AsksView V.content V.kept V.faults check_cause view.old view.new result }
    ensures unasked { IsSome (broken_2 (volume_in volume.now.map.now)) → view.new ≡ view.old }
{
    match first_misplaced(&volume.map.files, &volume.names.links) {
        Some(number) => Ok(Some(Broken { rule: 2, number })),
        None => from_3(alloc, view, volume, upper, body),
    }
}

/// The first rule before the ninth that a loaded volume breaks, with the least number at which it
/// does, if it breaks one. `upper` is its table of upper-case units, and `body` is room for a body.
///
/// It goes over the indexes and then over the streams, and sorts the runs; a rule is tried only
/// where those before it are kept. Where rule 1 is broken the view isn't asked.
#[tactic(auto, unfolding(crate::specs::Steps::from_1, volume_state::specs::Rules::broken_1))]
pub fn from_1<V: View>(
    alloc: Global,
    view: &mut V,
    volume: &NamedVolume,
    upper: &Upcase,
    body: &mut Body,
) -> Result<Option<Broken>, CheckFault>
    ensures value { IfSome (V.content view.old) (λ c. AreParts c volume.now.map.now upper.now → IfOk result (λ broken. broken ≡ from_1 c (volume_in volume.now.map.now))) }
    ensures never { NeverBroken result }
    ensures kept { AsksView V.content V.kept V.faults check_cause view.old view.new result }
    ensures unasked { IsSome (broken_1 (volume_in volume.now.map.now)) → view.new ≡ view.old }
{
    match first_misnamed(&volume.map.files, &volume.names.links) {
        Some(number) => Ok(Some(Broken { rule: 1, number })),
        None => from_2(alloc, view, volume, upper, body),
    }
}
