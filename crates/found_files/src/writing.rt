//! Whether a file may be written or cut.
ghost use Rattle.std.specs.Prelude.{◌≡◌, ◌↔◌, true, IfOk};
ghost use Rattle.written_made.specs.record_streams.Fitting.{FitsButRoom};
ghost use Rattle.written_made.specs.file_writes.Writing.{MayWrite};
ghost use Rattle.found_files.specs.Parts.{HasNumbers};

use crate::data::has_shown_data;
use crate::numbers::{CLUSTER_LIMIT, grows_little, is_within_bounds};
use file_tree::Node;
use host_base::Memory;
use record_model::STANDARD_INFORMATION;
use std::alloc::Global;
use tree_model::Op;
use volume_map::has_type;
use written_made::{FileRec, VolumeStreams};

// Numbers of file records are below this.
const NUMBER_LIMIT: u64 = 0x1_0000_0000_0000;

// The initialised size of the bits of the clusters is below this.
const BITS_LIMIT: u64 = 0x8000_0000_0000_0000;

// Whether the numbers beside the file's record are within what a write asks for.
fn has_numbers(clusters: u64, number: u64, streams: &VolumeStreams, op: &Op, node: &Node) -> bool
    ensures { (result ≡ true) ↔ HasNumbers clusters number streams.now op.now node.now }
{
    if clusters > CLUSTER_LIMIT || number >= NUMBER_LIMIT {
        return false;
    }
    if streams.bitmap.initialised >= BITS_LIMIT || node.valid > node.size {
        return false;
    }
    if !is_within_bounds(op) {
        return false;
    }
    grows_little(op, node)
}

/// Whether a file may be given to the call that writes or cuts it
/// ([`write_file`](file_writes::write_file)): with standard information and unnamed data that
/// stands in its record or in clusters of the volume (Linux-NTFS documentation, "FILE Record",
/// "$DATA"), which the node shows, in an operation that has numbers within bounds and lets the data
/// grow little. `file` is the record with this number, as it was read or as its data was made, and
/// the volume has so many clusters. In each state the answer is true for a file that an operation was
/// found to write or cut, as [`found_may_write`](crate::found_may_write) says. The error is want of
/// memory. It takes a [`stream_of`](stream_map::stream_of), and time and memory linear in the record
/// and its runs.
pub fn may_write(
    alloc: Global,
    clusters: u64,
    number: u64,
    streams: &VolumeStreams,
    file: &FileRec,
    op: &Op,
    node: &Node,
) -> Result<bool, Memory>
    requires fits { FitsButRoom file.now }
    ensures answer { IfOk result (λ may. (may ≡ true) ↔ MayWrite clusters number streams.now file.now op.now node.now) }
{
    if !has_numbers(clusters, number, streams, op, node) {
        return Ok(false);
    }
    if !has_type(file, STANDARD_INFORMATION) {
        return Ok(false);
    }
    let has = has_shown_data(alloc, clusters, file, node)?;
    Ok(has)
}
