//! What comes of a file's unnamed data.
ghost use Rattle.std.specs.Prelude.{◌≡◌, ◌≤◌, IfOk, length};
ghost use Rattle.used_laws.specs.record_model.Pairs.{cluster_limit};
ghost use Rattle.used_laws.specs.tree_model.Steps.{IsWithinBounds};
ghost use Rattle.data_plan.specs.Changes.{ShowsData, HasData, GrowsLittle, IsReadyChange, DataAfter};

use crate::change::DataChange;
use crate::fault::DataFault;
use crate::held::held_after;
use crate::placed::placed_after;
use std::alloc::Global;
use used_laws::{ClusterSize, DATA, FileRec, FreeBits, Node, Op, Stream, stream_of};

/// What comes of the unnamed data of this file in an operation that writes or cuts it (Linux-NTFS
/// documentation, "$DATA", "Attribute Header"), as a step counts it: it stays in its record, leaves
/// it, takes clusters behind its own, gives some back, or has other sizes alone. The record is made
/// with it, but where a value stays; nothing is put. `node` shows the data's sizes and clusters; the
/// volume has 8 sectors a cluster, and `bits` are those of its clusters. The operation has numbers
/// within bounds, and the data grows by at most 32,768 clusters. A draft can put what is made. A
/// value that is cut stays in its record, since a cut needs no clusters.
///
/// - [`DataFault::Short`]: fewer bits are clear than the data wants, so many. All stay as they were.
/// - [`DataFault::Full`]: the record would use so many bytes, which are above 1,024. All runs that
///   the data would take are taken, or none.
/// - [`DataFault::Memory`]: the first of these runs are taken, none of them or all.
///
/// It takes a [`grow`](resized_streams::grow), and time and memory linear in the record and the
/// data's runs.
pub fn data_after<B: FreeBits>(
    alloc: Global,
    per: ClusterSize,
    bits: &mut B,
    file: &FileRec,
    op: &Op,
    node: &Node,
) -> Result<DataChange, DataFault>
    requires per { per ≡ 8 }
    requires clusters { length (B.bits bits.old) ≤ cluster_limit }
    requires bounds { IsWithinBounds op.now }
    requires has { HasData (length (B.bits bits.old)) file.now }
    requires shows { ShowsData node.now file.now }
    requires little { GrowsLittle op.now node.now }
    ensures after { DataAfter (B.bits bits.old) (B.bits bits.new) file.now op.now node.now result }
    ensures ready { IfOk result IsReadyChange }
{
    let stream = stream_of(alloc, DATA, &[], file.attrs().as_slice())?;
    match &stream {
        Some(Stream::Placed(extents)) => placed_after(alloc, per, bits, extents, file, op, node),
        Some(Stream::Held(_)) => held_after(alloc, per, bits, file, op, node),
        None => held_after(alloc, per, bits, file, op, node),
    }
}
