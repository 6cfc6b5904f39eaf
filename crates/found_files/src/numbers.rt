//! Numbers of an operation, and what a file comes to have by it.
ghost use Rattle.std.specs.Prelude.{◌≡◌, ◌↔◌, ◌<◌, ◌≤◌, ◌^◌, true};
ghost use Rattle.record_model.specs.Pairs.{cluster_limit};
ghost use Rattle.tree_model.specs.Steps.{IsWithinBounds};
ghost use Rattle.written_made.specs.data_plan.Changes.{GrowsLittle};

use file_tree::Node;
use tree_model::{Op, clusters_after};

// A volume has at most so many clusters.
pub const CLUSTER_LIMIT: u64 = 0x1_0000_0000;

// Places and sizes of an operation are below this.
const PLACE_LIMIT: u64 = 0x4000_0000_0000_0000;

// The most bytes of a write, and of a read.
const MOST_WRITTEN: u64 = 65_536;

const MOST_READ: u64 = 4096;

// The most clusters by which data grows.
const MOST_MORE: u64 = 32_768;

/// Whether the numbers of an operation are within bounds.
pub fn is_within_bounds(op: &Op) -> bool
    ensures { (result ≡ true) ↔ IsWithinBounds op.now }
{
    match op {
        Op::Write { offset, bytes, .. } => {
            *offset < PLACE_LIMIT && bytes.len() as u64 <= MOST_WRITTEN
        }
        Op::Fill { offset, count, .. } => *offset < PLACE_LIMIT && *count <= MOST_WRITTEN,
        Op::Truncate { size, .. } => *size < PLACE_LIMIT,
        Op::Read { offset, count, .. } => *offset < PLACE_LIMIT && *count <= MOST_READ,
        Op::Journal { from } => *from < PLACE_LIMIT,
        _ => true,
    }
}

/// Whether the data comes to have not too many clusters, and not too many more.
pub fn grows_little(op: &Op, node: &Node) -> bool
    requires { IsWithinBounds op.now }
    ensures { (result ≡ true) ↔ GrowsLittle op.now node.now }
{
    let clusters = clusters_after(op, node);
    clusters <= CLUSTER_LIMIT && clusters.saturating_sub(node.clusters) <= MOST_MORE
}
