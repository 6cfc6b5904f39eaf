//! Data that stands in its record.
ghost use Rattle.std.specs.Prelude.{◌≡◌, ◌<◌, ◌≤◌, ◌^◌, true, false, [], ◌∷◌, IfOk, length};
ghost use Rattle.used_laws.specs.record_model.Constants.{data_type};
ghost use Rattle.used_laws.specs.record_model.Pairs.{cluster_limit};
ghost use Rattle.used_laws.specs.state_model.Streams.{attributes_of};
ghost use Rattle.used_laws.specs.record_streams.Fitting.{FitsButRoom};
ghost use Rattle.used_laws.specs.resized_streams.Resizing.{unplaced};
ghost use Rattle.used_laws.specs.step_model.Used.{used_after, own_attr, value_attr};
ghost use Rattle.used_laws.specs.tree_model.Steps.{IsWithinBounds};
ghost use Rattle.data_plan.specs.Changes.{data_in, ShowsData, BeginsAtZero, HasData, GrowsLittle, IsHeld, MustLeave, IsKept, IsReadyChange, DataAfter};

use crate::change::DataChange;
use crate::fault::DataFault;
use crate::resizing::{MOST_USED, grown, used};
use host_base::Memory;
use std::alloc::Global;
use used_laws::{
    ClusterSize, DATA, Extents, FileRec, FreeBits, Node, Op, Runs, clusters_for, shrinks,
    size_after, valued_record,
};

// The bytes that the record uses where its data is a value of so many bytes.
fn used_as_value(alloc: Global, file: &FileRec, size: u64) -> Result<u64, Memory>
    requires fits { FitsButRoom file.now }
    requires there { BeginsAtZero (attributes_of data_type [] file.now.attrs) }
    requires size { size < 2 ^ 63 }
    ensures { IfOk result (λ used. used ≡ used_after (value_attr size (own_attr data_type [] file.now) ∷ []) file.now) }
{
    let empty = valued_record(alloc, DATA, &[], &[], file)?;
    Ok(used(&empty) + 8 * ((size + 7) / 8))
}

// A value of so many bytes as data that has no clusters yet.
fn unplaced(alloc: Global, size: u64) -> Extents
    ensures { result ≡ unplaced size }
{
    Extents {
        runs: Runs::new(alloc),
        allocated: 0,
        real: size,
        initialised: size,
    }
}

// A value leaves its record.
fn leaves<B: FreeBits>(
    alloc: Global,
    per: ClusterSize,
    bits: &mut B,
    file: &FileRec,
    op: &Op,
    node: &Node,
) -> Result<DataChange, DataFault>
    requires per { per ≡ 8 }
    requires clusters { length (B.bits bits.old) ≤ cluster_limit }
    requires bounds { IsWithinBounds op.now }
    requires has { HasData (length (B.bits bits.old)) file.now }
    requires shows { ShowsData node.now file.now }
    requires little { GrowsLittle op.now node.now }
    requires held { IsHeld (data_in file.now) }
    requires leaves { MustLeave file.now op.now node.now }
    ensures after { DataAfter (B.bits bits.old) (B.bits bits.new) file.now op.now node.now result }
    ensures ready { IfOk result IsReadyChange }
{
    let size = size_after(op, node);
    let value = unplaced(alloc, size);
    let z = grown(alloc, per, bits, &value, file, clusters_for(size))?;
    Ok(DataChange::Leaves(z))
}

// A value stays in its record, where that has room with it.
fn stays(size: u64, used: u64) -> Result<DataChange, DataFault>
    ensures kept { IsKept size used result }
    ensures ready { IfOk result IsReadyChange }
{
    if used > MOST_USED {
        return Err(DataFault::Full { used });
    }
    Ok(DataChange::Stays { size })
}

// What comes of data that stands in its record.
pub fn held_after<B: FreeBits>(
    alloc: Global,
    per: ClusterSize,
    bits: &mut B,
    file: &FileRec,
    op: &Op,
    node: &Node,
) -> Result<DataChange, DataFault>
    requires per { per ≡ 8 }
    requires clusters { length (B.bits bits.old) ≤ cluster_limit }
    requires bounds { IsWithinBounds op.now }
    requires has { HasData (length (B.bits bits.old)) file.now }
    requires shows { ShowsData node.now file.now }
    requires little { GrowsLittle op.now node.now }
    requires held { IsHeld (data_in file.now) }
    ensures after { DataAfter (B.bits bits.old) (B.bits bits.new) file.now op.now node.now result }
    ensures ready { IfOk result IsReadyChange }
{
    let size = size_after(op, node);
    let used = used_as_value(alloc, file, size)?;
    if size > 0 && used > MOST_USED && !shrinks(op, node) {
        return leaves(alloc, per, bits, file, op, node);
    }
    stays(size, used)
}
