//! Numbers that are taken of a table whose bitmap stands anywhere.
ghost use Rattle.std.specs.Prelude.{◌≡◌, ◌<◌, ◌≤◌, ◌^◌, IfOk, IfSome, OnErr, length};
ghost use Rattle.block_view.specs.Views.{AsksView};
ghost use Rattle.draft_bitmaps.specs.plan_draft.Drafts.{drafted};
ghost use Rattle.draft_numbers.specs.draft_records.Faults.{draft_cause};
ghost use Rattle.draft_numbers.specs.Numbers.{new_sequence, IsLowestSpare, MarksNumber};
ghost use Rattle.draft_bitmaps.specs.Bitmaps.{bit_count, IsBitmap};
ghost use Rattle.draft_growth.specs.Taking.{PutsNumberOf};

use crate::table::Table;
use bit_set::BitSet;
use block_view::View;
use draft_bitmaps::{ClusterSize, Draft, Extents, put_bits_of};
use draft_numbers::{DraftFault, spare_number};
use host_base::FileRef;
use std::alloc::Global;

/// Takes the lowest spare number ([`spare_number`]) of a table whose bitmap stands anywhere: its bit
/// is set there, as [`put_bits_of`] does, and among `bits`, so that the next call takes another one;
/// none is taken where each bit is set. `mirror` has the clusters of the table's mirror.
///
/// - [`DraftFault::Full`]: record 0 would use these bytes, which are above 1,024.
/// - [`DraftFault::Fault`]: the view failed, which is asked where a block wasn't touched.
/// - [`DraftFault::Memory`]: want of memory.
///
/// After an error `bits` and the table are as they were. It takes a [`spare_number`] and a
/// [`put_bits_of`].
pub fn take_number_of<V: View>(
    draft: &mut Draft<'_, V>,
    alloc: Global,
    per: ClusterSize,
    mirror: &Extents,
    table: &mut Table,
    bits: &mut BitSet,
) -> Result<Option<FileRef>, DraftFault>
    requires stands { IsBitmap table.old.bitmap }
    requires few { length bits.old ≤ 2 ^ 48 }
    requires within { length bits.old ≤ bit_count table.old.bitmap.stream }
    ensures number { IfOk result (λ spare. IsLowestSpare bits.old spare) }
    ensures sequence { IfSome (V.content draft.old.view.now) (λ c. IfOk result (λ spare. IfSome spare (λ r. r.seq ≡ new_sequence (drafted draft.old.touched.items c) per table.old.extents r.number))) }
    ensures marked { IfOk result (λ spare. MarksNumber bits.old bits.new spare) }
    ensures put { IfSome (V.content draft.old.view.now) (λ c. IfOk result (λ spare. PutsNumberOf c per table.old.extents mirror.now table.old.bitmap draft.old.touched.items draft.new.touched.items table.new.bitmap spare)) }
    ensures unmarked { OnErr result (bits.new ≡ bits.old) }
    ensures unchanged { OnErr result (table.new ≡ table.old) }
    ensures extents { table.new.extents ≡ table.old.extents }
    ensures asks { AsksView V.content V.kept V.faults draft_cause draft.old.view.now draft.new.view.now result }
    ensures reference { draft.new.view.ghost_name ≡ draft.old.view.ghost_name }
{
    let Some(spare) = spare_number(draft, alloc, per, &table.extents, bits)? else {
        return Ok(None);
    };
    put_bits_of(
        draft,
        alloc,
        per,
        &table.extents,
        mirror,
        &mut table.bitmap,
        spare.number,
        1,
        true,
    )?;
    bits.set_run(spare.number, 1);
    Ok(Some(spare))
}
