//! A file that is written or cut.
ghost use Rattle.std.specs.Prelude.{◌≡◌, ◌<◌, ◌≤◌, ◌^◌, max, ℕ, List, Bool, IfErr, IfOk, IfSome, OnOk, OnErr, not, count_by, length};
ghost use Rattle.block_view.specs.Views.{AsksView};
ghost use Rattle.space_model.specs.Choosing.{with_runs};
ghost use Rattle.plan_space.specs.Choices.{TakesFirst};
ghost use Rattle.plan_draft.specs.Faults.{fault_cause};
ghost use Rattle.tree_model.specs.Needs.{size_after};
ghost use Rattle.file_puts.specs.step_model.Placing.{more_of};
ghost use Rattle.file_puts.specs.data_plan.Changes.{growth_of, row_of, IsChange, IsReadyChange};
ghost use Rattle.file_puts.specs.Puts.{PutsChange};
ghost use Rattle.file_writes.specs.Faults.{write_cause, IsShortOf, HasRow, StaysWhereRefused};
ghost use Rattle.file_writes.specs.Writing.{HasRoom, MayWrite, SizedPut, PutsWrite};

use crate::clusters::{put_cut, put_growing};
use crate::fault::WriteFault;
use crate::held::{put_leaving, put_value};
use crate::sizes::{put_shorter, put_sizes};
use block_view::{View, ViewFault};
use file_puts::{DataChange, FileRec, Resized, VolumeStreams, data_after};
use file_tree::Node;
use plan_draft::Draft;
use plan_space::FreeBits;
use state_model::ClusterSize;
use std::alloc::Global;
use tree_model::{Op, shrinks};

// Puts the record whose data has other sizes in its clusters of before.
fn put_sized<V: View>(
    draft: &mut Draft<'_, V>,
    alloc: Global,
    per: ClusterSize,
    streams: &VolumeStreams,
    number: u64,
    op: &Op,
    node: &Node,
    stamp: u64,
    resized: &Resized,
) -> Result<(), ViewFault>
    requires per { per ≡ 8 }
    requires number { number < 2 ^ 48 }
    requires ends { max node.now.valid (size_after op.now node.now) < 2 ^ 62 }
    requires room { HasRoom resized.now.file }
    ensures put { OnOk result (IfSome (V.content draft.old.view.now) (λ c. SizedPut c streams.now number op.now node.now stamp resized.now draft.old.touched.items draft.new.touched.items)) }
    ensures asks { AsksView V.content V.kept V.faults fault_cause draft.old.view.now draft.new.view.now result }
    ensures reference { draft.new.view.ghost_name ≡ draft.old.view.ghost_name }
{
    if shrinks(op, node) {
        put_shorter(draft, alloc, per, streams, number, stamp, resized)?;
        return Ok(());
    }
    put_sizes(draft, alloc, per, streams, number, op, node, stamp, resized)?;
    Ok(())
}

// Puts what comes of the file's data.
fn put_change<V: View>(
    draft: &mut Draft<'_, V>,
    alloc: Global,
    per: ClusterSize,
    streams: &VolumeStreams,
    number: u64,
    file: &FileRec,
    op: &Op,
    node: &Node,
    stamp: u64,
    change: &DataChange,
) -> Result<(), ViewFault>
    requires per { per ≡ 8 }
    requires may { (clusters : ℕ) × MayWrite clusters number streams.now file.now op.now node.now }
    requires change { (bits : List Bool) × IsChange (growth_of bits file.now op.now node.now) file.now op.now node.now change.now }
    requires ready { IsReadyChange change.now }
    ensures put { OnOk result (IfSome (V.content draft.old.view.now) (λ c. PutsChange c streams.now number op.now node.now stamp file.now change.now draft.old.touched.items draft.new.touched.items)) }
    ensures asks { AsksView V.content V.kept V.faults fault_cause draft.old.view.now draft.new.view.now result }
    ensures reference { draft.new.view.ghost_name ≡ draft.old.view.ghost_name }
{
    match change {
        DataChange::Stays { .. } => {
            put_value(draft, alloc, per, streams, number, file, op, node, stamp)
        }
        DataChange::Leaves(z) => put_leaving(
            draft, alloc, per, streams, number, file, op, node, stamp, z,
        ),
        DataChange::Grows(z) => {
            put_growing(draft, alloc, per, streams, number, op, node, stamp, z)
        }
        DataChange::Cut(z) => put_cut(draft, alloc, per, streams, number, stamp, z),
        DataChange::Sized(z) => {
            put_sized(draft, alloc, per, streams, number, op, node, stamp, z)
        }
    }
}

/// Puts a file that an operation writes or cuts (Linux-NTFS documentation, "FILE Record", "$DATA",
/// "Attribute Header"): what [`data_after`] says comes of its unnamed data, with the times of the
/// change, in units of 100 ns since 1601-01-01. Data in its record gets its value anew there, or
/// leaves for clusters with it; data in clusters takes more, gives some back or keeps them, with
/// the bits of those that come and go, and gets its sizes and the bytes that the operation brings.
/// `file` is the file's record as it is in the draft, with standard information, `node` shows its
/// data, and `bits` are those of the volume's clusters, of 8 sectors each. A record is put once for
/// each of these steps.
///
/// - [`WriteFault::Short`]: fewer clusters are free than the data wants, so many. The draft and the
///   bits are as they were.
/// - [`WriteFault::Full`]: the record would use so many bytes, which are above 1,024. The draft is
///   as it was; all runs that the data would take are taken, or none.
/// - [`WriteFault::Fault`]: the view failed, which is asked where a block wasn't touched.
/// - [`WriteFault::Memory`]: want of memory.
///
/// After the last two some of it is put, and the first of the runs are taken, none of them or all:
/// the draft and the bits are of no more use. It takes a [`data_after`], time and memory linear in
/// the record and the bytes that are put, and a pass over the runs for each sector of them.
pub fn write_file<V: View, B: FreeBits>(
    draft: &mut Draft<'_, V>,
    alloc: Global,
    per: ClusterSize,
    bits: &mut B,
    streams: &VolumeStreams,
    number: u64,
    file: &FileRec,
    op: &Op,
    node: &Node,
    stamp: u64,
) -> Result<(), WriteFault>
    requires per { per ≡ 8 }
    requires may { MayWrite (length (B.bits bits.old)) number streams.now file.now op.now node.now }
    ensures put { OnOk result (IfSome (V.content draft.old.view.now) (λ c. PutsWrite c (B.bits bits.old) streams.now number op.now node.now stamp file.now draft.old.touched.items draft.new.touched.items)) }
    ensures bits { OnOk result (B.bits bits.new ≡ with_runs (growth_of (B.bits bits.old) file.now op.now node.now).runs (B.bits bits.old)) }
    ensures short { count_by not (B.bits bits.old) < more_of (growth_of (B.bits bits.old) file.now op.now node.now) → IsShortOf (count_by not (B.bits bits.old)) result }
    ensures unchanged { count_by not (B.bits bits.old) < more_of (growth_of (B.bits bits.old) file.now op.now node.now) → B.bits bits.new ≡ B.bits bits.old }
    ensures full { more_of (growth_of (B.bits bits.old) file.now op.now node.now) ≤ count_by not (B.bits bits.old) → HasRow (row_of (B.bits bits.old) file.now op.now node.now) result }
    ensures first { OnErr result (TakesFirst (growth_of (B.bits bits.old) file.now op.now node.now).runs (B.bits bits.old) (B.bits bits.new)) }
    ensures refused { IfErr result (StaysWhereRefused draft.old.touched.items draft.new.touched.items) }
    ensures asks { AsksView V.content V.kept V.faults write_cause draft.old.view.now draft.new.view.now result }
    ensures reference { draft.new.view.ghost_name ≡ draft.old.view.ghost_name }
{
    let change = data_after(alloc, per, bits, file, op, node)?;
    put_change(
        draft, alloc, per, streams, number, file, op, node, stamp, &change,
    )?;
    Ok(())
}
