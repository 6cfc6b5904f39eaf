//! What is planned of a level more and of the nodes below it.
ghost use Rattle.std.specs.Prelude.{◌≡◌, ◌+◌, ◌<◌, ◌≤◌, ◌^◌, Ok, Some, IfErr, IfOk, IfSome, length};
ghost use Rattle.block_view.specs.Views.{AsksView};
ghost use Rattle.index_tree.specs.Places.{place_of};
ghost use Rattle.volume_model.specs.Indexes.{index_place, root_value};
ghost use Rattle.place_raises.specs.Faults.{raise_cause, OnDeep, OnFull};
ghost use Rattle.place_raises.specs.Raising.{CountsNodes, IsDeep, LieBehindLevel, PlansLevel, level_vcn};

use crate::fault::RaiseFault;
use crate::level::{Level, level_of};
use block_view::View;
use directory_index::index_place;
use file_makes::{DirPlace, FileRec, NewFile, NodesPlan};
use place_makes::{planned, vcns_from};
use plan_draft::Draft;
use state_model::ClusterSize;
use std::alloc::{AllocError, Global};
use upcase_order::Upcase;

// An index has fewer blocks than these.
const MOST_BLOCKS: u64 = 1 << 61;

/// A level more, with the VCN of its node, the VCNs that the nodes below it may take, and these
/// nodes.
#[derive(Drop)]
pub struct LevelPlan {
    pub level: Level,
    pub first: u64,
    pub fresh: Vec<u64>,
    pub nodes: NodesPlan,
}

// The VCNs behind that of the level.
fn vcns_behind(alloc: Global, file: &FileRec, first: u64) -> Result<Vec<u64>, AllocError>
    requires first { first ≡ level_vcn file.now }
    requires few { first < 2 ^ 61 }
    ensures lie { IfOk result (λ vcns. LieBehindLevel file.now vcns.items) }
    ensures enough { IfOk result (λ vcns. 17 ≤ length vcns.items) }
{
    Ok(vcns_from(alloc, first + 1)?)
}

// The nodes of the index that lies there, planned with the new file as if no byte of the record
// were used.
fn count_nodes<V: View>(
    draft: &mut Draft<'_, V>,
    alloc: Global,
    up: &Upcase,
    made: &NewFile,
    file: &FileRec,
    dir: &DirPlace,
    fresh: &[u64],
) -> Result<NodesPlan, RaiseFault>
    requires number { made.now.file.number < 2 ^ 32 }
    requires parent { made.now.parent.number < 2 ^ 48 }
    requires place { place_of dir.now ≡ index_place 8 file.now }
    requires root { root_value file.now ≡ Some dir.now.root }
    requires used { dir.now.used ≡ 0 }
    requires lie { LieBehindLevel file.now fresh.now }
    requires enough { 17 ≤ length fresh.now }
    ensures counts { IfOk result (λ nodes. IfSome (V.content draft.old.view.now) (λ c. CountsNodes c up.now made.now file.now dir.now.root fresh.now draft.old.touched.items nodes)) }
    ensures full { IfErr result (OnFull (λ used. ⊥)) }
    ensures deep { IfErr result (OnDeep (λ height. ⊥)) }
    ensures touched { draft.new.touched.items ≡ draft.old.touched.items }
    ensures asks { AsksView V.content V.kept V.faults raise_cause draft.old.view.now draft.new.view.now result }
    ensures reference { draft.new.view.ghost_name ≡ draft.old.view.ghost_name }
{
    Ok(planned(draft, alloc, up, dir, made, fresh)?)
}

// The level and the nodes of the index that lies there.
fn plan_there<V: View>(
    draft: &mut Draft<'_, V>,
    alloc: Global,
    up: &Upcase,
    made: &NewFile,
    file: &FileRec,
    dir: &DirPlace,
) -> Result<LevelPlan, RaiseFault>
    requires number { made.now.file.number < 2 ^ 32 }
    requires parent { made.now.parent.number < 2 ^ 48 }
    requires place { place_of dir.now ≡ index_place 8 file.now }
    requires root { root_value file.now ≡ Some dir.now.root }
    requires used { dir.now.used ≡ 0 }
    ensures plans { IfOk result (λ plan. IfSome (V.content draft.old.view.now) (λ c. PlansLevel c up.now made.now file.now draft.old.touched.items plan.level.root plan.level.node plan.fresh.items plan.nodes)) }
    ensures first { IfOk result (λ plan. plan.first ≡ level_vcn file.now) }
    ensures small { IfOk result (λ plan. length plan.level.root ≡ 56) }
    ensures long { IfOk result (λ plan. length plan.level.node ≡ 4096) }
    ensures enough { IfOk result (λ plan. 17 ≤ length plan.fresh.items) }
    ensures full { IfErr result (OnFull (λ used. ⊥)) }
    ensures deep { IfErr result (OnDeep (λ height. IfSome (V.content draft.old.view.now) (λ c. IsDeep c file.now draft.old.touched.items height))) }
    ensures touched { draft.new.touched.items ≡ draft.old.touched.items }
    ensures asks { AsksView V.content V.kept V.faults raise_cause draft.old.view.now draft.new.view.now result }
    ensures reference { draft.new.view.ghost_name ≡ draft.old.view.ghost_name }
{
    let first = dir.blocks.len();
    if first >= MOST_BLOCKS {
        return Err(RaiseFault::Unplanned);
    }
    let level = level_of(draft, alloc, file, dir, first)?;
    let fresh = vcns_behind(alloc, file, first)?;
    let nodes = count_nodes(draft, alloc, up, made, file, dir, &fresh)?;
    Ok(LevelPlan {
        level,
        first,
        fresh,
        nodes,
    })
}

/// A level more of a directory's index, and the nodes below it, planned with the new file; the
/// nodes are those of the index as it is.
///
/// - [`RaiseFault::Deep`]: the index has so many levels, sixteen.
/// - [`RaiseFault::Unplanned`]: the root's entries have no room in a block, or what was read is
///   part of no state.
/// - [`RaiseFault::Fault`]: the view failed, and counts it.
/// - [`RaiseFault::Memory`]: want of memory.
pub fn plan_level<V: View>(
    draft: &mut Draft<'_, V>,
    alloc: Global,
    per: ClusterSize,
    up: &Upcase,
    made: &NewFile,
    file: &FileRec,
) -> Result<LevelPlan, RaiseFault>
    requires per { per ≡ 8 }
    requires number { made.now.file.number < 2 ^ 32 }
    requires parent { made.now.parent.number < 2 ^ 48 }
    ensures plans { IfOk result (λ plan. IfSome (V.content draft.old.view.now) (λ c. PlansLevel c up.now made.now file.now draft.old.touched.items plan.level.root plan.level.node plan.fresh.items plan.nodes)) }
    ensures first { IfOk result (λ plan. plan.first ≡ level_vcn file.now) }
    ensures small { IfOk result (λ plan. length plan.level.root ≡ 56) }
    ensures long { IfOk result (λ plan. length plan.level.node ≡ 4096) }
    ensures enough { IfOk result (λ plan. 17 ≤ length plan.fresh.items) }
    ensures full { IfErr result (OnFull (λ used. ⊥)) }
    ensures deep { IfErr result (OnDeep (λ height. IfSome (V.content draft.old.view.now) (λ c. IsDeep c file.now draft.old.touched.items height))) }
    ensures touched { draft.new.touched.items ≡ draft.old.touched.items }
    ensures asks { AsksView V.content V.kept V.faults raise_cause draft.old.view.now draft.new.view.now result }
    ensures reference { draft.new.view.ghost_name ≡ draft.old.view.ghost_name }
{
    match index_place(alloc, per, file)? {
        None => Err(RaiseFault::Unplanned),
        Some(dir) => plan_there(draft, alloc, up, made, file, &dir),
    }
}
