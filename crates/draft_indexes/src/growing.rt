//! A directory's index that gets more blocks.
ghost use Rattle.std.specs.Prelude.{◌≡◌, ◌+◌, ◌<◌, ◌≤◌, ◌^◌, All, IfErr, IfOk, IfSome, OnOk, not, count_by, length};
ghost use Rattle.host_base.specs.Answers.{GivesOrFails};
ghost use Rattle.block_view.specs.Views.{AsksView};
ghost use Rattle.draft_growth.specs.record_streams.Fitting.{FitsButRoom};
ghost use Rattle.stream_runs.specs.Runs.{IsNear};
ghost use Rattle.space_model.specs.Choosing.{with_runs};
ghost use Rattle.draft_growth.specs.draft_records.Faults.{draft_cause};
ghost use Rattle.draft_growth.specs.draft_records.Records.{fits_room, StaysWhereFull};
ghost use Rattle.draft_growth.specs.Faults.{growth_cause, growth_space, growth_room};
ghost use Rattle.draft_growth.specs.Growing.{space_for};
ghost use Rattle.draft_indexes.specs.Growing.{wanted_clusters, taken_for, grown_file, raised_file, blocks_in, MayGrowBlocks, PutsIndex, PutsRaised, GrowsBlocks, RaisesBlocks, StaysWhereRefused};

use crate::blocks::IndexBlocks;
use crate::fresh::{put_block, put_empty_blocks};
use crate::longer::{longer_blocks, raised_blocks};
use block_view::View;
use draft_growth::{DraftFault, GrowthFault, Resized, placed_fits, put_resized};
use plan_draft::Draft;
use plan_space::FreeBits;
use state_model::{ClusterSize, Extents};
use std::alloc::Global;

// How many blocks begin below so many bytes.
fn blocks_in(bytes: u64) -> u64
    requires { bytes < 2 ^ 63 }
    ensures { result ≡ blocks_in bytes }
{
    (bytes + 4095) / 4096
}

// Puts the directory with the bits of its clusters, and then so many blocks as zeros.
fn put_blocks<V: View>(
    draft: &mut Draft<'_, V>,
    alloc: Global,
    per: ClusterSize,
    bitmap: &Extents,
    table: &Extents,
    mirror: &Extents,
    number: u64,
    longer: &Resized,
    first: u64,
    count: u64,
) -> Result<(), DraftFault>
    requires size { bitmap.now.initialised < 2 ^ 63 }
    requires number { number < 2 ^ 48 }
    requires fits { FitsButRoom longer.now.file }
    requires taken { All IsNear longer.now.taken.items }
    requires freed { All IsNear longer.now.freed.items }
    requires blocks { first + count < 2 ^ 48 }
    ensures room { GivesOrFails (λ x. x) draft_cause result (fits_room longer.now.file) }
    ensures put { OnOk result (IfSome (V.content draft.old.view.now) (λ c. PutsIndex c per bitmap.now table.now mirror.now number longer.now first count draft.old.touched.items draft.new.touched.items)) }
    ensures full { IfErr result (StaysWhereFull draft.old.touched.items draft.new.touched.items) }
    ensures asks { AsksView V.content V.kept V.faults draft_cause draft.old.view.now draft.new.view.now result }
    ensures reference { draft.new.view.ghost_name ≡ draft.old.view.ghost_name }
{
    placed_fits();
    put_resized(draft, alloc, per, bitmap, table, mirror, number, longer)?;
    put_empty_blocks(draft, alloc, per, &longer.extents, first, count)?;
    Ok(())
}

// Puts the directory with the bits of its clusters, then this body into a block, and so many blocks
// behind it as zeros.
fn put_level<V: View>(
    draft: &mut Draft<'_, V>,
    alloc: Global,
    per: ClusterSize,
    bitmap: &Extents,
    table: &Extents,
    mirror: &Extents,
    number: u64,
    raised: &Resized,
    first: u64,
    count: u64,
    node: &[u8],
) -> Result<(), DraftFault>
    requires size { bitmap.now.initialised < 2 ^ 63 }
    requires number { number < 2 ^ 48 }
    requires fits { FitsButRoom raised.now.file }
    requires taken { All IsNear raised.now.taken.items }
    requires freed { All IsNear raised.now.freed.items }
    requires blocks { first + 1 + count < 2 ^ 48 }
    requires node { length node.now ≡ 4096 }
    ensures room { GivesOrFails (λ x. x) draft_cause result (fits_room raised.now.file) }
    ensures put { OnOk result (IfSome (V.content draft.old.view.now) (λ c. PutsRaised c per bitmap.now table.now mirror.now number raised.now first count node.now draft.old.touched.items draft.new.touched.items)) }
    ensures full { IfErr result (StaysWhereFull draft.old.touched.items draft.new.touched.items) }
    ensures asks { AsksView V.content V.kept V.faults draft_cause draft.old.view.now draft.new.view.now result }
    ensures reference { draft.new.view.ghost_name ≡ draft.old.view.ghost_name }
{
    placed_fits();
    put_resized(draft, alloc, per, bitmap, table, mirror, number, raised)?;
    put_block(draft, alloc, per, &raised.extents, first, node)?;
    put_empty_blocks(draft, alloc, per, &raised.extents, first + 1, count)?;
    Ok(())
}

/// Gives a directory's index so many blocks more, where it has an allocation and a bitmap already
/// (Linux-NTFS documentation, "$INDEX_ALLOCATION" and "$BITMAP"): its sizes rise by 4,096 bytes for
/// each, all of it initialised; it takes the clusters that it lacks for them, chosen behind its
/// last one, as [`grow`](resized_streams::grow) does; the bitmap of its blocks has 8 bytes for each
/// 64 of them, or more if it had, in which the bits of the blocks that come are set. The record is
/// put, the bits of the clusters are set in the data of `$Bitmap`, which `bitmap` is, and each block
/// that comes to be initialised is put whole, as zeros. `table` has the clusters of the file table and `mirror` those of its
/// mirror, of `per` sectors each. The answer is what [`put_resized`](draft_resized::put_resized)
/// put.
///
/// - [`GrowthFault::Full`]: the record would use these bytes, which are above 1,024; the draft is
///   as it was, and the clusters are taken among the bits.
/// - [`GrowthFault::Short`]: fewer clusters are clear than it lacks, so many; all is as it was.
/// - [`GrowthFault::Fault`]: the view failed, which is asked where a block wasn't touched.
/// - [`GrowthFault::Memory`]: want of memory.
///
/// After the last two some of it is put and taken: the draft and the bits are of no more use. It
/// takes time and memory linear in the record, the runs and the blocks that come.
pub fn grow_blocks<V: View, B: FreeBits>(
    draft: &mut Draft<'_, V>,
    alloc: Global,
    per: ClusterSize,
    bits: &mut B,
    bitmap: &Extents,
    table: &Extents,
    mirror: &Extents,
    index: IndexBlocks,
    more: u64,
) -> Result<Resized, GrowthFault>
    requires size { bitmap.now.initialised < 2 ^ 63 }
    requires index { MayGrowBlocks per (length (B.bits bits.old)) more index }
    ensures put { IfOk result (λ z. IfSome (V.content draft.old.view.now) (λ c. GrowsBlocks c per (B.bits bits.old) bitmap.now table.now mirror.now index more draft.old.touched.items draft.new.touched.items z)) }
    ensures fits { IfOk result (λ z. FitsButRoom z.file) }
    ensures bits { IfOk result (λ _. B.bits bits.new ≡ with_runs (taken_for per (B.bits bits.old) more index.extents) (B.bits bits.old)) }
    ensures space { GivesOrFails (λ _. tt) growth_space result (space_for (wanted_clusters per more index.extents) (B.bits bits.old)) }
    ensures unchanged { count_by not (B.bits bits.old) < wanted_clusters per more index.extents → B.bits bits.new ≡ B.bits bits.old }
    ensures room { GivesOrFails (λ _. tt) growth_room result (fits_room (grown_file per (taken_for per (B.bits bits.old) more index.extents) more index)) }
    ensures stays { IfErr result (StaysWhereRefused draft.old.touched.items draft.new.touched.items) }
    ensures asks { AsksView V.content V.kept V.faults growth_cause draft.old.view.now draft.new.view.now result }
    ensures reference { draft.new.view.ghost_name ≡ draft.old.view.ghost_name }
{
    let number = index.number;
    let first = blocks_in(index.extents.initialised);
    let end = blocks_in(index.extents.real + 4096 * more);
    let longer = longer_blocks(alloc, per, bits, index, more)?;
    put_blocks(
        draft,
        alloc,
        per,
        bitmap,
        table,
        mirror,
        number,
        &longer,
        first,
        end.saturating_sub(first),
    )?;
    Ok(longer)
}

/// Gives a directory's index so many blocks more, at least one, as [`grow_blocks`] does, and with
/// them a level more: in the same put the root of the index gets the value `root`, and the body
/// `node` goes into the first block that comes to be initialised, in place of zeros (Linux-NTFS
/// documentation, "$INDEX_ROOT"). So an index whose root has no room beside the longer streams can
/// grow: the root's entries stand in that node then. The answer and the refusals are those of
/// [`grow_blocks`], where the record is the one with the new root.
pub fn raise_blocks<V: View, B: FreeBits>(
    draft: &mut Draft<'_, V>,
    alloc: Global,
    per: ClusterSize,
    bits: &mut B,
    bitmap: &Extents,
    table: &Extents,
    mirror: &Extents,
    index: IndexBlocks,
    more: u64,
    root: &[u8],
    node: &[u8],
) -> Result<Resized, GrowthFault>
    requires size { bitmap.now.initialised < 2 ^ 63 }
    requires index { MayGrowBlocks per (length (B.bits bits.old)) more index }
    requires root { length root.now ≤ 2 ^ 16 }
    requires node { length node.now ≡ 4096 }
    ensures put { IfOk result (λ z. IfSome (V.content draft.old.view.now) (λ c. RaisesBlocks c per (B.bits bits.old) bitmap.now table.now mirror.now index more root.now node.now draft.old.touched.items draft.new.touched.items z)) }
    ensures fits { IfOk result (λ z. FitsButRoom z.file) }
    ensures bits { IfOk result (λ _. B.bits bits.new ≡ with_runs (taken_for per (B.bits bits.old) more index.extents) (B.bits bits.old)) }
    ensures space { GivesOrFails (λ _. tt) growth_space result (space_for (wanted_clusters per more index.extents) (B.bits bits.old)) }
    ensures unchanged { count_by not (B.bits bits.old) < wanted_clusters per more index.extents → B.bits bits.new ≡ B.bits bits.old }
    ensures room { GivesOrFails (λ _. tt) growth_room result (fits_room (raised_file per (taken_for per (B.bits bits.old) more index.extents) more root.now index)) }
    ensures stays { IfErr result (StaysWhereRefused draft.old.touched.items draft.new.touched.items) }
    ensures asks { AsksView V.content V.kept V.faults growth_cause draft.old.view.now draft.new.view.now result }
    ensures reference { draft.new.view.ghost_name ≡ draft.old.view.ghost_name }
{
    let number = index.number;
    let at = blocks_in(index.extents.initialised);
    let end = blocks_in(index.extents.real + 4096 * more);
    let raised = raised_blocks(alloc, per, bits, index, more, root)?;
    put_level(
        draft,
        alloc,
        per,
        bitmap,
        table,
        mirror,
        number,
        &raised,
        at,
        end.saturating_sub(at + 1),
        node,
    )?;
    Ok(raised)
}
