//! Data that stands in clusters.
ghost use Rattle.std.specs.Prelude.{◌≡◌, ◌<◌, ◌≤◌, ◌^◌, ℕ, false, List, Bool, Some, IfOk, length};
ghost use Rattle.used_laws.specs.record_model.Pairs.{cluster_limit};
ghost use Rattle.used_laws.specs.state_model.declared.stream.Stream.TheVariants.{Placed};
ghost use Rattle.used_laws.specs.tree_model.Effects.{clusters_after};
ghost use Rattle.used_laws.specs.tree_model.Steps.{IsWithinBounds};
ghost use Rattle.data_plan.specs.Changes.{data_in, ShowsData, HasData, GrowsLittle, IsReadyChange, DataAfter};

use crate::change::DataChange;
use crate::fault::DataFault;
use crate::resizing::{MOST_USED, grown, have_bytes, used, with_room};
use std::alloc::Global;
use used_laws::{
    ClusterSize, DATA, Extents, FileRec, FreeBits, Node, Op, clusters_after, cut, size_after,
    sized, valid_after,
};

// Data takes clusters behind its own.
fn grows<B: FreeBits>(
    alloc: Global,
    per: ClusterSize,
    bits: &mut B,
    extents: &Extents,
    file: &FileRec,
    op: &Op,
    node: &Node,
) -> Result<DataChange, DataFault>
    requires per { per ≡ 8 }
    requires clusters { length (B.bits bits.old) ≤ cluster_limit }
    requires bounds { IsWithinBounds op.now }
    requires has { HasData (length (B.bits bits.old)) file.now }
    requires shows { ShowsData node.now file.now }
    requires little { GrowsLittle op.now node.now }
    requires placed { data_in file.now ≡ Some (Placed extents.now) }
    requires more { node.now.clusters < clusters_after false op.now node.now }
    ensures after { DataAfter (B.bits bits.old) (B.bits bits.new) file.now op.now node.now result }
    ensures ready { IfOk result IsReadyChange }
{
    let wanted = clusters_after(op, node) - node.clusters;
    let z = grown(alloc, per, bits, extents, file, wanted)?;
    Ok(DataChange::Grows(z))
}

// Data is cut off, and gives clusters back.
fn cuts(
    alloc: Global,
    per: ClusterSize,
    extents: &Extents,
    file: &FileRec,
    op: &Op,
    node: &Node,
) -> Result<DataChange, DataFault>
    requires per { per ≡ 8 }
    requires bounds { IsWithinBounds op.now }
    requires has { (clusters : ℕ) × HasData clusters file.now }
    requires shows { ShowsData node.now file.now }
    requires placed { data_in file.now ≡ Some (Placed extents.now) }
    requires fewer { clusters_after false op.now node.now < node.now.clusters }
    ensures after { (bits : List Bool) → DataAfter bits bits file.now op.now node.now result }
    ensures ready { IfOk result IsReadyChange }
{
    let z = cut(alloc, per, DATA, &[], extents, file, size_after(op, node))?;
    let whole = with_room(z)?;
    Ok(DataChange::Cut(whole))
}

// Data has other sizes in its clusters.
fn changes_sizes(
    alloc: Global,
    per: ClusterSize,
    extents: &Extents,
    file: &FileRec,
    op: &Op,
    node: &Node,
) -> Result<DataChange, DataFault>
    requires per { per ≡ 8 }
    requires bounds { IsWithinBounds op.now }
    requires has { (clusters : ℕ) × HasData clusters file.now }
    requires shows { ShowsData node.now file.now }
    requires placed { data_in file.now ≡ Some (Placed extents.now) }
    requires same { clusters_after false op.now node.now ≡ node.now.clusters }
    ensures after { (bits : List Bool) → DataAfter bits bits file.now op.now node.now result }
    ensures ready { IfOk result IsReadyChange }
{
    let used = used(file);
    if used > MOST_USED {
        return Err(DataFault::Full { used });
    }
    have_bytes(file.attrs().as_slice());
    let (real, initialised) = (size_after(op, node), valid_after(op, node));
    let z = sized(alloc, per, DATA, &[], extents, file, real, initialised)?;
    Ok(DataChange::Sized(z))
}

// What comes of data that stands in clusters.
pub fn placed_after<B: FreeBits>(
    alloc: Global,
    per: ClusterSize,
    bits: &mut B,
    extents: &Extents,
    file: &FileRec,
    op: &Op,
    node: &Node,
) -> Result<DataChange, DataFault>
    requires per { per ≡ 8 }
    requires clusters { length (B.bits bits.old) ≤ cluster_limit }
    requires bounds { IsWithinBounds op.now }
    requires has { HasData (length (B.bits bits.old)) file.now }
    requires shows { ShowsData node.now file.now }
    requires little { GrowsLittle op.now node.now }
    requires placed { data_in file.now ≡ Some (Placed extents.now) }
    ensures after { DataAfter (B.bits bits.old) (B.bits bits.new) file.now op.now node.now result }
    ensures ready { IfOk result IsReadyChange }
{
    let wanted = clusters_after(op, node);
    if wanted > node.clusters {
        return grows(alloc, per, bits, extents, file, op, node);
    }
    if wanted < node.clusters {
        return cuts(alloc, per, extents, file, op, node);
    }
    changes_sizes(alloc, per, extents, file, op, node)
}
